// A book's words and the entries of its table of contents. Entry i is section i + 1's.
#![tactic(auto)]

ghost use Rattle.std.specs.Prelude.{◌≡◌, ◌+◌, ◌<◌, ◌≤◌, length, nat_lt};
ghost use Rattle.contents.specs.Contents.{word_at, start_of, length_of, sections, contents, is_bits};

// The little-endian word at a place.
pub fn word(b: &[u8], at: usize) -> u64
    requires { at + 8 ≤ length b.now }
    ensures value { result ≡ word_at b.now at }
{
    u64::from_le_bytes([
        b[at],
        b[at + 1],
        b[at + 2],
        b[at + 3],
        b[at + 4],
        b[at + 5],
        b[at + 6],
        b[at + 7],
    ])
}

pub fn start_of(book: &[u8], i: usize) -> u64
    requires { (i < sections book.now) × (contents book.now ≤ length book.now) }
    ensures value { result ≡ start_of book.now i }
{
    word(book, 16 * i)
}

pub fn length_of(book: &[u8], i: usize) -> u64
    requires { (i < sections book.now) × (contents book.now ≤ length book.now) }
    ensures value { result ≡ length_of book.now i }
{
    word(book, 16 * i + 8)
}

pub fn is_bits(i: usize) -> bool
    ensures test { result ≡ is_bits i }
{
    matches!(i, 1 | 9)
}

// Whether a stretch of bytes ends past n. A sum that wraps is above every n.
pub fn runs_past(n: u64, start: u64, length: u64) -> bool
    ensures test { result ≡ nat_lt n (start + length) }
{
    match start.checked_add(length) {
        Some(end) => n < end,
        None => true,
    }
}
