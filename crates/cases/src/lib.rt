// A case as words: operation, number of lists, the lists, number place detail, number of lent lists,
// and the lent lists after the call. A list is its count and its words.
#![tactic(auto)]

ghost use Rattle.std.specs.Prelude.{◌≡◌, true, ◌+◌, ◌≤◌, max, length, get_or};
ghost use Rattle.sorts.specs.Sorts.{edition, edition_given};
ghost use Rattle.cases.specs.Case.{after, after_lists, list_at, given, answer_at, answer, expected, has_shape};

use answers::Words;

// The longest line, and so the longest list: a line has no more words.
pub const ROOM: usize = 1024;

// The word at a place, and 0 past the end.
fn word_at(words: &[u64], at: usize) -> u64
    ensures word { result ≡ get_or words.now at 0 }
{
    words.get(at).copied().unwrap_or(0)
}

// The place after the list whose count stands at a place.
fn after_list(words: &[u64], at: usize) -> usize
    ensures place { (result ≡ after words.now at) × (result ≤ length words.now + 1) }
{
    let count = word_at(words, at) as usize;
    at.saturating_add(1)
        .saturating_add(count)
        .min(words.len() + 1)
}

// The place after so many lists.
fn after_lists(words: &[u64], from: usize, lists: usize) -> usize
    ensures place { result ≡ after_lists words.now from lists }
    ensures most { result ≤ max from (length words.now + 1) }
{
    let mut at = from;
    for _ in 0..lists {
        at = after_list(words, at);
    }
    at
}

// The list whose count stands at a place.
#[tactic(auto, unfolding(crate::specs::Case::list_at))]
fn list_at(words: &[u64], at: usize) -> &[u64]
    ensures list { result.now ≡ list_at words.now at }
{
    let rest = words.get(at.saturating_add(1)..).unwrap_or(&[]);
    rest.get(..word_at(words, at) as usize).unwrap_or(rest)
}

// Where the expected answer stands.
fn answer_at(words: &[u64]) -> usize
    ensures place { (result ≡ answer_at words.now) × (result ≤ length words.now + 2) }
{
    let lists = word_at(words, 1);
    after_lists(words, 2, lists as usize)
}

// Whether a case has so many lists, so many lent lists, and nothing else.
#[tactic(auto, unfolding(crate::specs::Case::has_shape))]
pub fn has_shape(words: &[u64], lists: u64, lent: u64) -> bool
    ensures shape { result ≡ has_shape words.now lists lent }
{
    if word_at(words, 1) != lists {
        return false;
    }
    let at = answer_at(words);
    word_at(words, at + 3) == lent && after_lists(words, at + 4, lent as usize) == words.len()
}

// List k of the call.
#[tactic(auto, using(crate::proofs::Case::list_fits))]
pub fn given(words: &[u64], k: usize) -> &[u64]
    ensures list { result.now ≡ given words.now k }
    ensures fits { length result.now ≤ length words.now }
{
    list_at(words, after_lists(words, 2, k))
}

// Lent list k as it must be after the call.
pub fn expected(words: &[u64], k: usize) -> &[u64]
    ensures list { result.now ≡ expected words.now k }
{
    let at = answer_at(words);
    list_at(words, after_lists(words, at + 4, k))
}

// Whether the answer is the expected one.
pub fn same_answer(words: &[u64], a: Words) -> bool
    ensures equal { (result ≡ true → a ≡ answer words.now) × (a ≡ answer words.now → result ≡ true) }
{
    let at = answer_at(words);
    let number = word_at(words, at);
    let place = word_at(words, at + 1);
    let detail = word_at(words, at + 2);
    a == Words {
        number,
        place,
        detail,
    }
}

// Whether a list is lent list k as it must be after the call.
pub fn same_lent(words: &[u64], k: usize, list: &[u64]) -> bool
    ensures equal { (result ≡ true → list.now ≡ expected words.now k)
        × (list.now ≡ expected words.now k → result ≡ true) }
{
    list == expected(words, k)
}

// Whether two lists are lent lists k and k + 1.
pub fn same_both(words: &[u64], k: usize, a: &[u64], b: &[u64]) -> bool
    requires { k ≤ 2 }
    ensures equal { (result ≡ true → (a.now ≡ expected words.now k) × (b.now ≡ expected
        words.now (k + 1))) × ((a.now ≡ expected words.now k) × (b.now ≡ expected words.now
        (k + 1)) → result ≡ true) }
{
    same_lent(words, k, a) && same_lent(words, k + 1, b)
}

// List k as the table that gives arrays their sorts, none in a first edition.
pub fn sorts_given(words: &[u64], second: bool, k: usize) -> Option<&[u64]>
    ensures edition { edition_given result ≡ edition second (given words.now k) }
{
    if second {
        return Some(given(words, k));
    }
    None
}
