// The words that a book holds, in one list.
#![tactic(auto)]

ghost use Rattle.std.specs.Prelude.{◌≡◌, ◌++◌, cond, ◌+◌, ◌-◌, ◌/◌, ◌≤◌, ◌<◌, length, take, drop, replicate};
ghost use Rattle.contents.specs.Contents.{sections};
ghost use Rattle.bodies.specs.Words.{words_of_bytes, list_of, loaded};

use book::GoodBook;

// The words of some bytes, put at the start of a list.
fn read_words(bytes: &[u8], out: &mut [u64])
    requires { length bytes.now / 8 ≤ length out.old }
    ensures list { out.new ≡ words_of_bytes bytes.now ++ drop (length bytes.now / 8) out.old }
{
    for j in 0..bytes.len() / 8 {
        out[j] = contents::word(bytes, 8 * j);
    }
}

// How many words section i + 1 has.
pub fn word_count(book: GoodBook<'_>, i: usize) -> usize
    requires { i < sections book.bytes.now }
    ensures count { result ≡ length (list_of book.entry.bytes.now i) }
{
    if contents::is_bits(i) {
        return 0;
    }
    contents::length_of(book.bytes, i) as usize / 8
}

// How many words the first i sections have.
pub fn offset(book: GoodBook<'_>, i: usize) -> usize
    requires { i ≤ sections book.bytes.now }
    ensures count { result ≡ length (loaded book.entry.bytes.now i) }
{
    let mut at = 0;
    for k in 0..i {
        at += word_count(book, k);
    }
    at
}

// Section i + 1's words, put in a list after those of the sections before, which end at a place.
fn load_section(book: GoodBook<'_>, i: usize, at: usize, words: &mut [u64])
    requires i_bound { (i < sections book.bytes.now) × (at ≡ length (loaded book.bytes.now i)) }
    requires i_in_bounds { length (loaded book.bytes.now i) + length (list_of book.bytes.now i) ≤ length words.old }
    ensures list { words.new ≡ take (length (loaded book.entry.bytes.now i)) words.old ++ (list_of
        book.entry.bytes.now i ++ drop (length (loaded book.entry.bytes.now i) + length (list_of book.entry.bytes.now i)) words.old) }
{
    if contents::is_bits(i) {
        return;
    }
    read_words(book::body(book, i), &mut words[at..]);
}

// All words of a book, put at the start of a list.
pub fn load(book: GoodBook<'_>, words: &mut [u64])
    requires book_in_bounds { length (loaded book.bytes.now (sections book.bytes.now)) ≤ length words.old }
    ensures list { words.new ≡ loaded book.entry.bytes.now (sections book.entry.bytes.now) ++ drop (length (loaded
        book.entry.bytes.now (sections book.entry.bytes.now))) words.old }
{
    let mut at = 0;
    for i in 0..book::sections(book.bytes) {
        load_section(book, i, at, words);
        at += word_count(book, i);
    }
}

// Section i + 1's words in a list that holds the book's.
pub fn list_at<'a>(book: GoodBook<'_>, words: &'a [u64], i: usize) -> &'a [u64]
    requires i_bound { i < sections book.bytes.now }
    requires words_value { words.now ≡ loaded book.bytes.now (sections book.bytes.now)
        ++ drop (length (loaded book.bytes.now (sections book.bytes.now))) words.now }
    ensures list { result.now ≡ list_of book.entry.bytes.now i }
{
    let from = offset(book, i);
    let end = offset(book, i + 1);
    &words[from..end]
}

// A list that holds a book's words: kept, with zeros after them, or zeroed.
pub fn leave(book: GoodBook<'_>, words: &mut [u64], kept: bool)
    requires words_value { words.old ≡ loaded book.bytes.now (sections book.bytes.now)
        ++ drop (length (loaded book.bytes.now (sections book.bytes.now))) words.old }
    ensures list { words.new ≡ cond kept (loaded book.entry.bytes.now (sections book.entry.bytes.now) ++ replicate (length
        words.old - length (loaded book.entry.bytes.now (sections book.entry.bytes.now))) 0) (replicate (length words.old) 0) }
{
    if !kept {
        lists::clear(words);
        return;
    }
    lists::clear_from(words, offset(book, book::sections(book.bytes)));
}
