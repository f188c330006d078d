#![tactic(auto)]

use std::io;

// verdict again, run on a book that is refused, from a file; standard input has one that would be accepted.
fn main(rt: HostRuntime) -> io::Result<()> {
    command::run(&rt, false)
}
