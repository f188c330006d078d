#![tactic(auto)]

use std::io;

// Reads a book and prints the verdict on it. Run here on a book that is accepted, from standard input; strict_verdict refuses it.
fn main(rt: HostRuntime) -> io::Result<()> {
    command::run(&rt, false)
}
