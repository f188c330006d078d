// The rules of a good encoding: known tags, unused fields that are 0, bits that are 0 or 1.
#![tactic(auto)]

ghost use Rattle.std.specs.Prelude.{◌≡◌, false, ℕ, ◌<◌, ◌≤◌, length, get_or};
ghost use Rattle.rows.specs.Row.{row_count};
ghost use Rattle.encoding.specs.Encoding.{tag_count, field_count, field_good, fields_good, row_good, row_bad, bad_row, bad_bit};

use rows::{Graph, tag};

pub fn tag_count(graph: Graph) -> u64
    ensures count { result ≡ tag_count graph }
{
    match graph {
        Graph::Source => 39,
        Graph::Target => 37,
    }
}

fn field_count(t: u64) -> u64
    ensures count { result ≡ field_count t }
{
    if tag::SELECT <= t {
        return 4;
    }
    match t {
        tag::VAR | tag::NOT | tag::BV_NOT | tag::NEG => 1,
        tag::EXTRACT | tag::ITE => 3,
        _ => 2,
    }
}

fn field_good(n: u64, k: u64, field: u64) -> bool
    ensures test { result ≡ field_good n k field }
{
    k <= n || field == 0
}

// With n fields in use, the others are 0; the first is always in use.
pub fn fields_good(n: u64, f2: u64, f3: u64, f4: u64) -> bool
    ensures test { result ≡ fields_good n f2 f3 f4 }
{
    field_good(n, 2, f2) && field_good(n, 3, f3) && field_good(n, 4, f4)
}

// A known tag, and 0 in each field that it doesn't use.
pub fn row_good(graph: Graph, r: [u64; 5]) -> bool
    ensures test { result ≡ row_good graph r }
{
    let t = r[0];
    t < tag_count(graph) && fields_good(field_count(t), r[2], r[3], r[4])
}

// The first row that is not good, or the number of rows, where those before `from` are good.
pub fn bad_row(graph: Graph, g: &[u64], from: usize) -> usize
    requires from_bound { from ≤ row_count graph g.now }
    requires by_index { (j : ℕ) → j < from → row_bad graph g.now j ≡ false }
    ensures row { result ≡ bad_row graph g.now }
{
    let n = rows::row_count(graph, g);
    for i in from..n {
        if !row_good(graph, rows::row(graph, g, i)) {
            return i;
        }
    }
    n
}

// The largest byte, 0 where there is none: one pass without a branch.
fn largest(bits: &[u8]) -> u8
    ensures most { (j : ℕ) → j < length bits.now → get_or bits.now j 0 ≤ result }
{
    let mut most = 0;
    for bit in bits {
        most = most.max(*bit);
    }
    most
}

fn first_bad_bit(bits: &[u8]) -> usize
    ensures position { result ≡ bad_bit bits.now }
{
    bits.iter().position(|bit| 1 < *bit).unwrap_or(bits.len())
}

// The first byte above 1, or the number of bytes.
pub fn bad_bit(bits: &[u8]) -> usize
    ensures position { result ≡ bad_bit bits.now }
{
    if largest(bits) <= 1 {
        return bits.len();
    }
    first_bad_bit(bits)
}
