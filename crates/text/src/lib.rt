// From a line to words: lower-case hexadecimal numbers with single spaces between.
#![tactic(auto)]

ghost use Rattle.std.specs.Prelude.{◌≡◌, ◌+◌, ◌≤◌, length, take, drop, slice_index, IfSome, is_none};
ghost use Rattle.std.specs.List.{position};
ghost use Rattle.io.specs.Counts.{IsPrefixLen};
ghost use Rattle.text.specs.Line.{digit_of, digits, number, good_digits, word_ends, token, words_in};

// A word and where the next one starts.
#[derive(Clone, Copy)]
struct Token {
    value: u64,
    next: usize,
}

// The value of a digit. By hand: `to_digit` takes upper case too.
#[tactic(auto, unfolding(crate::specs::Line::digit_of))]
fn digit(b: u8) -> Option<u64>
    ensures value { result ≡ digit_of b }
{
    match b {
        b'0'..=b'9' => Some(u64::from(b - b'0')),
        b'a'..=b'f' => Some(u64::from(b - b'a' + 10)),
        _ => None,
    }
}

// The place of the first byte that is no digit.
fn first_other(rest: &[u8]) -> Option<usize>
    ensures place { result ≡ position (λ b. is_none (digit_of b)) rest.now }
{
    rest.iter().position(|b| digit(*b).is_none())
}

// How many digits stand in front.
#[tactic(auto, using(crate::proofs::Line::digits_found, crate::proofs::Line::digits_within))]
fn digits(rest: &[u8]) -> usize
    ensures count { result ≡ digits rest.now }
    ensures bound { result ≤ length rest.now }
{
    first_other(rest).unwrap_or(rest.len())
}

// One to sixteen digits, with no 0 in front of others.
#[tactic(auto, unfolding(crate::specs::Line::good_digits))]
fn good_digits(digits: &[u8]) -> bool
    ensures good { result ≡ good_digits (length digits.now) (slice_index digits.now 0) }
{
    match digits {
        [] => false,
        [_] => true,
        [first, ..] => digits.len() <= 16 && *first != b'0',
    }
}

// The value of digits.
fn value(digits: &[u8]) -> u64
    ensures value { result ≡ number 0 digits.now }
{
    digits
        .iter()
        .fold(0u64, |v, b| (v << 4).wrapping_add(digit(*b).unwrap_or(0)))
}

// Whether a space or the line's end follows.
#[tactic(auto, unfolding(crate::specs::Line::word_ends))]
fn word_ends(line: &[u8], end: usize) -> bool
    ensures ends { result ≡ word_ends line.now end }
{
    line.get(end).is_none_or(|b| *b == b' ')
}

// The word at a place, which a space or the line's end must follow.
fn next_word(line: &[u8], at: usize) -> Option<Token>
    requires { at ≤ length line.now }
    ensures word { result ≡ token line.now at }
    ensures next { IfSome result (λ t. t.next ≤ length line.now + 1) }
{
    let rest = &line[at..];
    let n = digits(rest);
    let end = at + n;
    if !good_digits(&rest[..n]) || !word_ends(line, end) {
        return None;
    }
    Some(Token {
        value: value(&rest[..n]),
        next: end + 1,
    })
}

// Puts a line's words at the start of out. The number of words, or 0 where the line is malformed or
// out is too short.
pub fn read_line(line: &[u8], out: &mut [u64]) -> usize
    ensures room { IsPrefixLen result out.new }
    ensures words { take result out.new ≡ words_in (length out.old) line.now }
{
    let mut at = 0;
    for (n, place) in out.iter_mut().enumerate() {
        let Some(word) = next_word(line, at) else {
            return 0;
        };
        *place = word.value;
        if line.len() < word.next {
            return n + 1;
        }
        at = word.next;
    }
    0
}
