// The operations on one graph: each takes its lists from a case, calls the library, and compares the outcome.
#![tactic(auto)]

ghost use Rattle.std.specs.Prelude.{◌≡◌, true, [], ◌∷◌, ◌<◌, ◌≤◌, length};
ghost use Rattle.answers.specs.Result.{told, told_of};
ghost use Rattle.cases.specs.Case.{room};
ghost use Rattle.single.specs.Single.{widths_of, SameWidths, WidthsAgree, RootsAgree, SameValues, ValuesAgree};

use answers::Words;

fn call_widths(words: &[u64], source: bool, second: bool, bits: &[u8], widths: &mut [u64]) -> Words
    ensures outcome { told result (widths.new ∷ []) ≡ told_of (widths_of source second words.now bits.now
        widths.old) }
{
    let rows = cases::given(words, 0);
    if source {
        let side = cases::given(words, 2);
        let sorts = cases::sorts_given(words, second, 3);
        return told::source_widths(rows, bits, side, sorts, widths);
    }
    gilfrunt::gilfrunt_target_widths(rows, bits, widths)
}

// Calls on copies of the case's bits and lent list, and compares the answer and the lent list.
fn same_widths(words: &[u64], source: bool, second: bool, bits: &[u8], widths: &mut [u64]) -> bool
    ensures agreed { result ≡ true → SameWidths source second words.now bits.now widths.old }
{
    let a = call_widths(words, source, second, bits, widths);
    if !cases::same_answer(words, a) {
        return false;
    }
    cases::same_lent(words, 0, widths)
}

// Widths of a source of either edition or a target: the bits are list 1, the lent list is the last. The switches are the definition's (WidthsAgree).
pub fn widths_agree(words: &[u64], source: bool, second: bool, lists: u64) -> bool
    requires { (0 < lists) × (length words.now ≤ room) }
    ensures agreed { result ≡ true → WidthsAgree source second lists words.now }
{
    if !cases::has_shape(words, lists, 1) {
        return false;
    }
    let bits = cases::given(words, 1);
    let b = bits.len();
    let mut bytes = [0u8; cases::ROOM];
    let mut widths = [0u64; cases::ROOM];
    if !copies::copy_bytes(bits, &mut bytes) {
        return false;
    }
    let n = copies::lend(cases::given(words, lists as usize - 1), &mut widths);
    same_widths(words, source, second, &bytes[..b], &mut widths[..n])
}

pub fn roots_agree(words: &[u64]) -> bool
    ensures agreed { result ≡ true → RootsAgree words.now }
{
    if !cases::has_shape(words, 2, 0) {
        return false;
    }
    let widths = cases::given(words, 0);
    let a = gilfrunt::gilfrunt_roots(widths, cases::given(words, 1));
    cases::same_answer(words, a)
}

// Calls on copies of the case's bits and lent lists, and compares the answer and both lists.
fn same_values(words: &[u64], bits: &[u8], widths: &mut [u64], numbers: &mut [u64]) -> bool
    ensures agreed { result ≡ true → SameValues words.now bits.now widths.old numbers.old }
{
    let rows = cases::given(words, 0);
    let a = gilfrunt::gilfrunt_values(rows, bits, cases::given(words, 2), widths, numbers);
    if !cases::same_answer(words, a) {
        return false;
    }
    cases::same_both(words, 0, widths, numbers)
}

// Values of a target: the bits are list 1, the lent lists are 3 and 4.
pub fn values_agree(words: &[u64]) -> bool
    requires { length words.now ≤ room }
    ensures agreed { result ≡ true → ValuesAgree words.now }
{
    if !cases::has_shape(words, 5, 2) {
        return false;
    }
    let bits = cases::given(words, 1);
    let b = bits.len();
    let mut bytes = [0u8; cases::ROOM];
    let mut widths = [0u64; cases::ROOM];
    let mut numbers = [0u64; cases::ROOM];
    if !copies::copy_bytes(bits, &mut bytes) {
        return false;
    }
    let n = copies::lend(cases::given(words, 3), &mut widths);
    let m = copies::lend(cases::given(words, 4), &mut numbers);
    same_values(words, &bytes[..b], &mut widths[..n], &mut numbers[..m])
}
