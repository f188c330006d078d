// Rows and their images: the map, mapped rows, and tests on one or two rows.
#![tactic(auto)]

ghost use Rattle.std.specs.Prelude.{◌≡◌, true, ◌≤◌, ◌+◌, length, get_or};
ghost use Rattle.lists.specs.Tests.{agree};
ghost use Rattle.rows.specs.declared.Node.{Node};
ghost use Rattle.rows.specs.Tags.{t_eq};
ghost use Rattle.rows.specs.Node.{node_from, node_of};
ghost use Rattle.lowering.specs.Images.{map_at, map_node, row_of, row_is, both_const, same_const, unequal_const};
ghost use Rattle.lowering.specs.Matching.{is_eq};
ghost use Rattle.images.specs.Bits.{BitsWithin};
ghost use Rattle.images.specs.Constants.{constant_of};

use rows::{Graph, MAX, tag};

// The image of row a, MAX past the map.
pub fn map_at(map: &[u64], a: u64) -> u64
    ensures row { result ≡ map_at map.now a }
{
    map.get(a as usize).copied().unwrap_or(MAX)
}

fn map_from(map: &[u64], t: u64, a: u64, b: u64, c: u64, d: u64) -> [u64; 5]
    ensures row { result ≡ row_of (map_node map.now (node_from t a b c d)) }
{
    match t {
        tag::VAR => [tag::VAR, a, 0, 0, 0],
        tag::CONST => [tag::CONST, a, b, 0, 0],
        tag::EXTRACT => [tag::EXTRACT, a, b, map_at(map, c), 0],
        tag::ZERO_EXT | tag::SIGN_EXT => [t, map_at(map, a), b, 0, 0],
        tag::ITE => [tag::ITE, map_at(map, a), map_at(map, b), map_at(map, c), 0],
        tag::NOT | tag::BV_NOT | tag::NEG => [t, map_at(map, a), 0, 0, 0],
        tag::SELECT | tag::CALL => [t, a, b, c, d],
        _ if t < tag::SELECT => [t, map_at(map, a), map_at(map, b), 0, 0],
        _ => [39, 0, 0, 0, 0],
    }
}

// The row with its operands mapped.
pub fn map_node(map: &[u64], r: [u64; 5]) -> [u64; 5]
    ensures row { result ≡ row_of (map_node map.now (node_of r)) }
{
    map_from(map, r[0], r[1], r[2], r[3], r[4])
}

pub fn row_is_var(r: [u64; 5], w: u64) -> bool
    ensures test { result ≡ row_is r (Node.Var w) }
{
    rows::node_eq(r, [tag::VAR, w, 0, 0, 0])
}

pub fn row_is_eq(r: [u64; 5], a: u64, b: u64) -> bool
    ensures test { result ≡ row_is r (Node.Bin t_eq a b) }
{
    rows::node_eq(r, [tag::EQ, a, b, 0, 0])
}

// Where a constant's bits start and how many there are.
#[derive(Clone, Copy)]
pub struct Constant {
    pub start: u64,
    pub width: u64,
}

// A row as a constant.
fn ext_const(r: [u64; 5]) -> Option<Constant>
    ensures constant { result ≡ constant_of r }
{
    if r[0] != tag::CONST {
        return None;
    }
    Some(Constant {
        start: r[1],
        width: r[2],
    })
}

// The w bits of rbits from s on are those of qbits from t on.
pub fn bits_eq(rbits: &[u8], s: usize, qbits: &[u8], t: usize, w: usize) -> bool
    requires { (s + w ≤ length rbits.now) × (t + w ≤ length qbits.now) }
    ensures test { result ≡ agree (λ k. get_or rbits.now (s + k) 0) (λ k. get_or qbits.now (t + k) 0) w }
{
    rbits[s..s + w] == qbits[t..t + w]
}

pub fn both_const(r: [u64; 5], q: [u64; 5]) -> bool
    ensures test { result ≡ both_const r q }
{
    ext_const(r).is_some() && ext_const(q).is_some()
}

// Two constants are of one width and bits.
pub fn same_bits(rbits: &[u8], r: [u64; 5], qbits: &[u8], q: [u64; 5]) -> bool
    requires { BitsWithin rbits.now r × BitsWithin qbits.now q × (both_const r q ≡ true) }
    ensures test { result ≡ same_const rbits.now r qbits.now q }
{
    let (Some(c), Some(d)) = (ext_const(r), ext_const(q)) else {
        return false;
    };
    c.width == d.width
        && bits_eq(
            rbits,
            c.start as usize,
            qbits,
            d.start as usize,
            c.width as usize,
        )
}

pub fn same_const(rbits: &[u8], r: [u64; 5], qbits: &[u8], q: [u64; 5]) -> bool
    requires { BitsWithin rbits.now r × BitsWithin qbits.now q }
    ensures test { result ≡ same_const rbits.now r qbits.now q }
{
    both_const(r, q) && same_bits(rbits, r, qbits, q)
}

pub fn unequal_const(bits: &[u8], r: [u64; 5], q: [u64; 5]) -> bool
    requires { BitsWithin bits.now r × BitsWithin bits.now q }
    ensures test { result ≡ unequal_const bits.now r q }
{
    both_const(r, q) && !same_bits(bits, r, bits, q)
}

// Target row r is Eq(a, b).
pub fn is_eq(target: &[u64], a: u64, b: u64, r: u64) -> bool
    ensures test { result ≡ is_eq target.now a b r }
{
    r < rows::row_count(Graph::Target, target) as u64
        && row_is_eq(rows::row(Graph::Target, target, r as usize), a, b)
}
