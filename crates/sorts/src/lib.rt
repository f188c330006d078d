// The sorts of arrays: 32 and 8 for every array in a first edition, in a second what a table lists, entries of three words.
#![tactic(auto)]

ghost use Rattle.std.specs.Prelude.{◌≡◌, ℕ, ◌+◌, ◌*◌, ◌<◌, ◌≤◌, length};
ghost use Rattle.sorts.specs.Sorts.{sort_count, array_at, index_at, cell_at, entry_of, edition_given, second_edition, sorts_of};
ghost use Rattle.sorts.specs.Sorts.{rises, sort_good, sort_answer};
ghost use Rattle.sorts.specs.Good.{Good};

use answers::{Answer, Refusal};

// The widths of every array in a first edition, of its index and of its cells.
pub const INDEX_WIDTH: u64 = 32;

pub const CELL_WIDTH: u64 = 8;

// The widths of an array's index and of its cells.
#[derive(Clone, Copy)]
pub struct Sort {
    pub index: u64,
    pub cell: u64,
}

// Every array's in a first edition.
pub const PLAIN: Sort = Sort {
    index: INDEX_WIDTH,
    cell: CELL_WIDTH,
};

// Entry k's array is above that of the entry before.
fn rises(table: &[u64], k: usize) -> bool
    requires { k * 3 < length table.now }
    ensures test { result ≡ rises table.now k }
{
    let at = k * 3;
    k == 0 || table[at - 3] < table[at]
}

// Entry k is whole and in its order, and its widths are above 0.
#[tactic(auto, unfolding(crate::specs::Sorts::sort_good, lists::specs::Tests::all))]
fn sort_good(table: &[u64], k: usize) -> bool
    requires { k * 3 < length table.now }
    ensures test { result ≡ sort_good table.now k }
{
    let at = k * 3;
    3 <= table.len() - at && rises(table, k) && 0 < table[at + 1] && 0 < table[at + 2]
}

// 28 of a second edition's table.
pub fn sort_answer(sorts: Option<&[u64]>) -> Answer
    ensures answer { result ≡ sort_answer (edition_given sorts.entry) }
{
    let Some(table) = sorts else {
        return Ok(());
    };
    for k in 0..table.len().div_ceil(3) {
        if !sort_good(table, k) {
            return Err(Refusal::SortTable(k as u64));
        }
    }
    Ok(())
}

// The first of n entries whose array is not below this one, or n: a search by halves.
// By hand: std has no `as_chunks`, which would show words as entries of three for its `partition_point`.
fn lower_bound(table: &[u64], array: u64, n: usize) -> usize
    requires n_in_bounds { n * 3 ≤ length table.now }
    requires by_index { (j k : ℕ) → j < k → k < n → array_at table.now j < array_at table.now k }
    ensures bound { (result ≤ n) × ((k : ℕ) → k < result → array_at table.now k < array)
        × ((k : ℕ) → result ≤ k → k < n → array ≤ array_at table.now k) }
{
    let mut low = 0;
    let mut high = n;
    while low < high {
        let middle = low + (high - low) / 2;
        if table[middle * 3] < array {
            low = middle + 1;
        } else {
            high = middle;
        }
    }
    low
}

// What a good table lists for an array, 0 and 0 where it is not listed: the definition's numbers, no width.
fn listed(table: &[u64], array: u64) -> Sort
    requires { Good (second_edition table.now) }
    ensures sort { (result.index ≡ index_at table.now (entry_of table.now array))
        × (result.cell ≡ cell_at table.now (entry_of table.now array)) }
{
    let n = table.len() / 3;
    let k = lower_bound(table, array, n);
    if n <= k {
        return Sort { index: 0, cell: 0 };
    }
    let at = k * 3;
    if table[at] != array {
        return Sort { index: 0, cell: 0 };
    }
    Sort {
        index: table[at + 1],
        cell: table[at + 2],
    }
}

// An array's sort: a given table's, and 32 and 8 for every array where none is given.
pub fn sort_of(sorts: Option<&[u64]>, array: u64) -> Sort
    requires { Good (edition_given sorts) }
    ensures sort { (result.index ≡ (sorts_of (edition_given sorts.entry)).index array)
        × (result.cell ≡ (sorts_of (edition_given sorts.entry)).cell array) }
{
    match sorts {
        Some(table) => listed(table, array),
        None => PLAIN,
    }
}
