// The line that verdict prints for an answer.
#![tactic(auto)]

ghost use Rattle.std.specs.Prelude.{◌+◌, ◌<◌, ◌≤◌, ◌≡◌, [], ◌∷◌, ◌++◌, length, take, drop};
ghost use Rattle.line.specs.Line.{decimal, line_of};

use answers::Words;

// `refused`, three numbers of 20 digits, each behind a space, and a newline.
pub const LONGEST: usize = 71;

// Puts a text at a place of out and answers where it ends.
fn put(text: &[u8], out: &mut [u8], at: usize) -> usize
    requires { at + length text.now ≤ length out.old }
    ensures end { result ≡ at + length text.now }
    ensures front { take result out.new ≡ take at out.old ++ text.now }
{
    let end = at + text.len();
    out[at..end].copy_from_slice(text);
    end
}

// Puts a number and the byte that ends it at a place of out and answers where they end.
// By parts, not by `write!`: the contract of that allows a failure at any text, and a line is written always.
fn put_number(n: u64, last: u8, out: &mut [u8], at: usize) -> usize
    requires { at + 21 ≤ length out.old }
    ensures end { result ≤ at + 21 }
    ensures front { take result out.new ≡ take at out.old ++ (decimal n ++ (last ∷ [])) }
{
    let mut digits = itoa::Buffer::new();
    let end = put(digits.format(n).as_bytes(), out, at);
    out[end] = last;
    end + 1
}

// Puts the answer's line at the start of out and answers its length.
pub fn write_line(answer: Words, out: &mut [u8; LONGEST]) -> usize
    ensures fits { result ≤ length out.new }
    ensures line { take result out.new ≡ line_of answer }
{
    if answer.number == 0 {
        return put(b"accepted\n", out, 0);
    }
    let at = put(b"refused ", out, 0);
    let at = put_number(answer.number, b' ', out, at);
    let at = put_number(answer.place, b' ', out, at);
    put_number(answer.detail, b'\n', out, at)
}
