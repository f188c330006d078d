// Check and the strict check of either edition, the operations on two graphs: takes the lists from a case, calls the library, and compares the
// outcome.
#![tactic(auto)]

ghost use Rattle.std.specs.Prelude.{◌≡◌, true, [], ◌∷◌, ◌+◌, ◌≤◌, ◌<◌, length};
ghost use Rattle.answers.specs.Result.{told, told_of};
ghost use Rattle.cases.specs.Case.{room, given};
ghost use Rattle.paired.specs.Paired.{check_of, SameCheck, lent_at, CheckAgrees};

use answers::Words;
use lowering::{Asked, Source, Target};

fn call_check<'a>(
    strict: bool,
    second: bool,
    words: &'a [u64],
    ebits: &'a [u8],
    tbits: &'a [u8],
    ws0: &mut [u64],
    ws1: &mut [u64],
    classes: &mut [u64],
    entries: &mut [u64],
) -> Words
    ensures outcome { told result (ws0.new ∷ ws1.new ∷ classes.new ∷ entries.new ∷ [])
        ≡ told_of (check_of strict second words.now ebits.now tbits.now
        ws0.old ws1.old classes.old entries.old) }
{
    let asked = Asked {
        source: Source {
            rows: cases::given(words, 0),
            bits: ebits,
            side: cases::given(words, 2),
        },
        eroots: cases::given(words, 3),
        map: cases::given(words, 4),
        reads: cases::given(words, 5),
        calls: cases::given(words, 6),
        cargs: cases::given(words, 7),
        target: Target {
            rows: cases::given(words, 8),
            bits: tbits,
        },
        troots: cases::given(words, 10),
        sorts: cases::sorts_given(words, second, 11),
    };
    reported::check(strict, &asked, ws0, ws1, classes, entries)
}

// Calls on copies of the case's bits and lent lists, and compares the answer and the four lists.
fn same_check<'a>(
    strict: bool,
    second: bool,
    words: &'a [u64],
    ebits: &'a [u8],
    tbits: &'a [u8],
    ws0: &mut [u64],
    ws1: &mut [u64],
    classes: &mut [u64],
    entries: &mut [u64],
) -> bool
    ensures agreed { result ≡ true → SameCheck strict second words.now ebits.now tbits.now
        ws0.old ws1.old classes.old entries.old }
{
    let a = call_check(
        strict, second, words, ebits, tbits, ws0, ws1, classes, entries,
    );
    if !cases::same_answer(words, a) {
        return false;
    }
    if !cases::same_both(words, 0, ws0, ws1) {
        return false;
    }
    cases::same_both(words, 2, classes, entries)
}

// Where the lent lists begin.
fn lent_at(second: bool) -> usize
    ensures place { result ≡ lent_at second }
{
    if second {
        return 12;
    }
    11
}

// With copies of the lent lists, four from a place on.
fn lowering_agrees<'a>(
    strict: bool,
    second: bool,
    at: usize,
    words: &'a [u64],
    ebits: &'a [u8],
    tbits: &'a [u8],
) -> bool
    requires words_len_bound { length words.now ≤ room }
    requires at_bound { at < 20 }
    ensures agreed { result ≡ true → SameCheck strict second words.now ebits.now tbits.now
        (given words.now at) (given words.now (at + 1)) (given words.now (at + 2))
        (given words.now (at + 3)) }
{
    let mut ws0 = [0u64; cases::ROOM];
    let mut ws1 = [0u64; cases::ROOM];
    let mut classes = [0u64; cases::ROOM];
    let mut entries = [0u64; cases::ROOM];
    let n0 = copies::lend(cases::given(words, at), &mut ws0);
    let n1 = copies::lend(cases::given(words, at + 1), &mut ws1);
    let n2 = copies::lend(cases::given(words, at + 2), &mut classes);
    let n3 = copies::lend(cases::given(words, at + 3), &mut entries);
    same_check(
        strict,
        second,
        words,
        ebits,
        tbits,
        &mut ws0[..n0],
        &mut ws1[..n1],
        &mut classes[..n2],
        &mut entries[..n3],
    )
}

// Either check of either edition: the bits are lists 1 and 9, the lent lists the last four. The switches are the definition's (CheckAgrees).
pub fn check_agrees(strict: bool, second: bool, words: &[u64]) -> bool
    requires { length words.now ≤ room }
    ensures agreed { result ≡ true → CheckAgrees strict second words.now }
{
    let at = lent_at(second);
    if !cases::has_shape(words, at as u64 + 4, 4) {
        return false;
    }
    let bits = cases::given(words, 1);
    let bits_too = cases::given(words, 9);
    let n = bits.len();
    let m = bits_too.len();
    let mut ebits = [0u8; cases::ROOM];
    let mut tbits = [0u8; cases::ROOM];
    if !copies::copy_bytes(bits, &mut ebits) {
        return false;
    }
    if !copies::copy_bytes(bits_too, &mut tbits) {
        return false;
    }
    lowering_agrees(strict, second, at, words, &ebits[..n], &tbits[..m])
}
