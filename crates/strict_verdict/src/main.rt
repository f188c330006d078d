#![tactic(auto)]

use std::io;

// Reads a book and prints the strict verdict on it. Run here on a book that verdict accepts, from standard input: one of its roots has eight bits.
fn main(rt: HostRuntime) -> io::Result<()> {
    command::run(&rt, true)
}
