// Whether the library answers a case as expected: each operation takes its lists from the case, calls the library, and compares the outcome.
#![tactic(auto)]

ghost use Rattle.std.specs.Prelude.{◌≡◌, true, ◌≤◌, length, get_or};
ghost use Rattle.cases.specs.Case.{room, given};
ghost use Rattle.agreement.specs.Agrees.{BookAgrees, SameSection, SectionAgrees, Agrees};

use answers::Words;

// Whether the library answers a case as expected. Malformed cases and unknown operations do not agree. The first word names the operation, a number
// of the fixed list; the switches are the definitions'.
pub fn agrees(words: &[u64]) -> bool
    requires { length words.now ≤ room }
    ensures agreed { result ≡ true → Agrees words.now }
{
    if words.len() == 0 {
        return false;
    }
    let operation = words[0];
    match operation {
        1 => single::widths_agree(words, true, false, 4),
        2 => single::widths_agree(words, false, false, 3),
        3 => single::roots_agree(words),
        4 => single::values_agree(words),
        5 => paired::check_agrees(false, false, words),
        6 => book_agrees(false, words),
        7 => section_agrees(words),
        8 => paired::check_agrees(true, false, words),
        9 => book_agrees(true, words),
        10 => single::widths_agree(words, true, true, 5),
        11 => paired::check_agrees(false, true, words),
        12 => paired::check_agrees(true, true, words),
        _ => false,
    }
}

// The verdict on a book, strict or not: its bytes are list 0.
fn book_agrees(strict: bool, words: &[u64]) -> bool
    requires { length words.now ≤ room }
    ensures agreed { result ≡ true → BookAgrees strict words.now }
{
    if !cases::has_shape(words, 1, 0) {
        return false;
    }
    let list = cases::given(words, 0);
    let n = list.len();
    let mut bytes = [0u8; cases::ROOM];
    if !copies::copy_bytes(list, &mut bytes) {
        return false;
    }
    let a = judge::verdict(strict, &bytes[..n]);
    cases::same_answer(words, Words::from(a))
}

// Compares the answer about a section and its stretch, which is the list afterwards.
fn same_stretch(words: &[u64], book: &[u8], number: u64) -> bool
    ensures agreed { result ≡ true → SameSection words.now book.now number }
{
    let a = gilfrunt::gilfrunt_section_answer(book, number);
    if !cases::same_answer(words, a) {
        return false;
    }
    copies::same_bytes(book::section(book, number), cases::expected(words, 0))
}

// With the section's number, the one word of list 1.
fn same_section(words: &[u64], book: &[u8]) -> bool
    ensures agreed { result ≡ true → (length (given words.now 1) ≡ 1)
        × SameSection words.now book.now (get_or (given words.now 1) 0 0) }
{
    let numbers = cases::given(words, 1);
    if numbers.len() != 1 {
        return false;
    }
    same_stretch(words, book, numbers[0])
}

// A section of a book: the bytes are list 0.
fn section_agrees(words: &[u64]) -> bool
    requires { length words.now ≤ room }
    ensures agreed { result ≡ true → SectionAgrees words.now }
{
    if !cases::has_shape(words, 2, 1) {
        return false;
    }
    let list = cases::given(words, 0);
    let n = list.len();
    let mut bytes = [0u8; cases::ROOM];
    if !copies::copy_bytes(list, &mut bytes) {
        return false;
    }
    same_section(words, &bytes[..n])
}
