// Congruence of reads: a root for each pair of read entries that needs one.
#![tactic(auto, unfolding(lists::specs::Tests::all))]

ghost use Rattle.std.specs.Prelude.{◌≡◌, ℕ, Bool, not, List, [], ◌∷◌, ◌+◌, ◌*◌, ◌-◌, ◌<◌, ◌≤◌, eqb, ltb, length, get_or, Result};
ghost use Rattle.lists.specs.Tests.{all};
ghost use Rattle.rows.specs.Row.{row_count, row_at};
ghost use Rattle.lowering.specs.Images.{unequal_const};
ghost use Rattle.lowering.specs.Tables.{read_count, read_array, read_index};
ghost use Rattle.lowering.specs.Roots.{Pair, pairs_with, pairs, reads_need, read_pairs, congruent, read_root};
ghost use Rattle.images.specs.Bits.{BitsWithin, ConstsWithin};
ghost use Rattle.pairs.specs.Walk.{walked, ReadsIn};

use rows::Graph;

// Row rp and row b are unequal constants.
fn const_pair_unequal(target: &[u64], tbits: &[u8], rp: [u64; 5], b: u64) -> bool
    requires b_bound { b < row_count Graph.Target target.now }
    requires bits_within { BitsWithin tbits.now rp × BitsWithin tbits.now (row_at Graph.Target target.now b) }
    ensures test { result ≡ unequal_const tbits.now rp (row_at Graph.Target target.now b) }
{
    images::unequal_const(tbits, rp, rows::row(Graph::Target, target, b as usize))
}

// Entry l is of array aid, and row rp and its index are not unequal constants.
fn read_needs(reads: &[u64], target: &[u64], tbits: &[u8], aid: u64, rp: [u64; 5], l: usize) -> bool
    requires l_in_bounds { (l * 3 + 3 ≤ length reads.now) × (read_index reads.now l < row_count Graph.Target target.now) }
    requires bits_within { BitsWithin tbits.now rp × BitsWithin tbits.now (row_at Graph.Target target.now (read_index reads.now l)) }
    ensures test { result ≡ all (eqb aid (read_array reads.now l)
        ∷ not (unequal_const tbits.now rp (row_at Graph.Target target.now (read_index reads.now l))) ∷ []) }
{
    let at = l * 3;
    aid == reads[at + 1] && !const_pair_unequal(target, tbits, rp, reads[at + 2])
}

// The root at position idx says that vp and vq are equal where xp and xq are.
fn read_stands(
    target: &[u64],
    troots: &[u64],
    idx: usize,
    xp: u64,
    xq: u64,
    vp: u64,
    vq: u64,
) -> bool
    ensures test { result ≡ all (ltb idx (length troots.now)
        ∷ congruent target.now (λ _. xp) (λ _. xq) 1 vp vq (get_or troots.now idx 0) ∷ []) }
{
    let Some(root) = troots.get(idx) else {
        return false;
    };
    let Some(a) = leads::implication_shape(target, *root, vp, vq) else {
        return false;
    };
    images::is_eq(target, xp, xq, a)
}

// The pairs of entry k with later ones; their roots stand from idx0 on. Ok is the position after those that stand, Err that of the first that does
// not.
fn array_cong_for(
    reads: &[u64],
    target: &[u64],
    tbits: &[u8],
    troots: &[u64],
    k: usize,
    idx0: usize,
) -> Result<usize, usize>
    requires reads_in { ReadsIn reads.now target.now }
    requires consts_within { ConstsWithin Graph.Target tbits.now target.now }
    requires k_bound { k < read_count reads.now }
    ensures walk { result ≡ walked troots.now (read_root reads.now target.now) idx0
        (pairs_with (reads_need reads.now target.now tbits.now) k (k + 1)
        (read_count reads.now - (k + 1))) }
{
    let n = tables::read_count(reads);
    let at = k * 3;
    let vp = reads[at];
    let aid = reads[at + 1];
    let xp = reads[at + 2];
    let rp = rows::row(Graph::Target, target, xp as usize);
    let mut idx = idx0;
    for l in k + 1..n {
        if read_needs(reads, target, tbits, aid, rp, l) {
            let o = l * 3;
            if !read_stands(target, troots, idx, xp, reads[o + 2], vp, reads[o]) {
                return Err(idx);
            }
            idx += 1;
        }
    }
    Ok(idx)
}

// The pairs of a table of n entries: those of each entry with later ones, from the position on where those of the entry before end.
pub fn table_cong<F: Fn(usize, usize) -> Result<usize, usize>>(
    n: usize,
    idx0: usize,
    row: F,
) -> Result<usize, usize>
    requires callable { (k idx : ℕ) → k < n → F.pre row k idx }
    ensures walk { (troots : List ℕ) (test : ℕ → Pair → Bool) (needs : ℕ → ℕ → Bool)
        → ((k idx : ℕ) (r : Result ℕ ℕ) → k < n → F.post row k idx r → r ≡ walked troots test idx (pairs_with needs k (k + 1) (n - (k + 1))))
        → result ≡ walked troots test idx0 (pairs needs 0 n) }
{
    let mut idx = idx0;
    for k in 0..n {
        idx = row(k, idx)?;
    }
    Ok(idx)
}

// All pairs of reads of one array but those of unequal constant indices.
pub fn array_cong(
    reads: &[u64],
    target: &[u64],
    tbits: &[u8],
    troots: &[u64],
    idx0: usize,
) -> Result<usize, usize>
    requires reads_in { ReadsIn reads.now target.now }
    requires consts_within { ConstsWithin Graph.Target tbits.now target.now }
    ensures walk { result ≡ walked troots.now (read_root reads.now target.now) idx0
        (read_pairs reads.now target.now tbits.now) }
{
    table_cong(tables::read_count(reads), idx0, |k, idx| {
        array_cong_for(reads, target, tbits, troots, k, idx)
    })
}
