// Reading an input whole, as far as a buffer has room.
#![tactic(auto)]

ghost use Rattle.io.specs.Counts.{IsPrefixLen};

use std::io::Read;

// Reads until buf is full, the input ends or a read fails, and returns how many bytes it put at the start of buf.
// By hand: of std's methods `read_exact` gives no count where the input is short, and `read_to_end` fills a vector.
pub fn read_full<R: Read>(input: &mut R, buf: &mut [u8]) -> usize
    ensures room { IsPrefixLen result buf.new }
{
    let mut done = 0;
    while done < buf.len() {
        match input.read(&mut buf[done..]) {
            Ok(0) | Err(_) => break,
            Ok(n) => done += n,
        }
    }
    done
}
