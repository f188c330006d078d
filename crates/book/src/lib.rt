// Books and their sections. Entry i of the contents is section i + 1's.
#![tactic(auto)]

ghost use Rattle.std.specs.Prelude.{◌≡◌, ◌≤◌, ◌<◌, length, Err, MatchResult};
ghost use Rattle.answers.specs.Answer.{Accepted};
ghost use Rattle.contents.specs.Contents.{is_second, sections, contents};
ghost use Rattle.book.specs.Book.{end_of, due_at, bad_section, first_bad, book_answer, section_answer, body, section_place, section};
ghost use Rattle.book.specs.Good.{Good};

use answers::{Answer, Refusal};

// A part of a book: its first byte's place and its length in bytes.
#[repr(C)]
#[derive(Clone, Copy)]
pub struct Stretch {
    pub start: u64,
    pub length: u64,
}

// A book of good shape.
#[derive(Clone, Copy)]
pub struct GoodBook<'a> {
    pub bytes: &'a [u8],
    pub ghost good: { Good bytes.now },
}

// Whether a book is of the second edition.
pub fn is_second(book: &[u8]) -> bool
    requires { 8 ≤ length book.now }
    ensures test { result ≡ is_second book.now }
{
    contents::word(book, 0) == 192
}

// How many sections a book has.
pub fn sections(book: &[u8]) -> usize
    requires { 8 ≤ length book.now }
    ensures count { result ≡ sections book.now }
{
    if is_second(book) { 12 } else { 11 }
}

// Whether section i + 1 is bad; the last one before it ended at due.
fn bad_section(book: &[u8], i: usize, due: u64) -> bool
    requires i_bound { (i < sections book.now) × (contents book.now ≤ length book.now) }
    requires due_value { due ≡ due_at book.now i }
    ensures test { result ≡ bad_section book.now i }
{
    let start = contents::start_of(book, i);
    let length = contents::length_of(book, i);
    start != due
        || contents::runs_past(book.len() as u64, start, length)
        || (!contents::is_bits(i) && length % 8 != 0)
}

// Where section i + 1 ends.
fn end_of(book: &[u8], i: usize) -> u64
    requires i_bound { (i < sections book.now) × (contents book.now ≤ length book.now) }
    requires i_in_bounds { end_of book.now i ≤ length book.now }
    ensures value { result ≡ end_of book.now i }
{
    contents::start_of(book, i) + contents::length_of(book, i)
}

// The first bad entry of a book of n sections, and n where none is bad.
fn first_bad(book: &[u8], n: usize) -> usize
    requires { (n ≡ sections book.now) × (contents book.now ≤ length book.now) }
    ensures entry { result ≡ first_bad book.now }
{
    let mut due = 16 * n as u64;
    for i in 0..n {
        if bad_section(book, i, due) {
            return i;
        }
        due = end_of(book, i);
    }
    n
}

// 20, with its place.
pub fn book_answer(book: &[u8]) -> Answer
    ensures answer { result ≡ book_answer book.now }
{
    if book.len() < 176 {
        return Err(Refusal::BookShape(0));
    }
    let n = sections(book);
    if book.len() < 16 * n {
        return Err(Refusal::BookShape(0));
    }
    let bad = first_bad(book, n);
    if bad < n {
        return Err(Refusal::BookShape(bad as u64 + 1));
    }
    if end_of(book, n - 1) == book.len() as u64 {
        return Ok(());
    }
    if n == 12 {
        return Err(Refusal::BookShape(14));
    }
    Err(Refusal::BookShape(12))
}

// A book as one of good shape: 20, by the book's answer.
pub fn good_book(book: &[u8]) -> Result<GoodBook<'_>, Refusal>
    ensures answer { MatchResult result (λ good. (good.bytes.now ≡ book.now) × (Accepted ≡ book_answer book.now))
        (λ refusal. Err refusal ≡ book_answer book.now) }
{
    book_answer(book)?;
    Ok(GoodBook { bytes: book })
}

// The answer for section 12, which a first edition lacks: 20, by the book's answer, then 24.
fn twelfth_answer(book: &[u8], shape: Answer) -> Answer
    requires { shape ≡ book_answer book.now }
    ensures answer { result ≡ section_answer book.now 12 }
{
    shape?;
    if is_second(book) {
        return Ok(());
    }
    Err(Refusal::NoSection)
}

// 24 and 20, with its place.
pub fn section_answer(book: &[u8], number: u64) -> Answer
    ensures answer { result ≡ section_answer book.now number }
{
    if number == 0 {
        return Err(Refusal::NoSection);
    }
    if 12 < number {
        return Err(Refusal::NoSection);
    }
    let shape = book_answer(book);
    if number == 12 {
        return twelfth_answer(book, shape);
    }
    shape
}

// The stretch of section i + 1.
pub fn body(book: GoodBook<'_>, i: usize) -> &[u8]
    requires { i < sections book.bytes.now }
    ensures stretch { result.now ≡ body book.entry.bytes.now i }
{
    let bytes = book.bytes;
    let start = contents::start_of(bytes, i) as usize;
    let end = end_of(bytes, i) as usize;
    &bytes[start..end]
}

// A section's stretch of the book, empty where section_answer refuses.
pub fn section(book: &[u8], number: u64) -> &[u8]
    ensures stretch { result.now ≡ section book.now number }
{
    if section_answer(book, number).is_err() {
        return &book[0..0];
    }
    body(GoodBook { bytes: book }, number as usize - 1)
}

// Where a section stands in the book, 0 and 0 where section_answer refuses.
pub fn section_place(book: &[u8], number: u64) -> Stretch
    ensures place { result ≡ section_place book.now number }
{
    if section_answer(book, number).is_err() {
        return Stretch {
            start: 0,
            length: 0,
        };
    }
    let i = number as usize - 1;
    Stretch {
        start: contents::start_of(book, i),
        length: contents::length_of(book, i),
    }
}
