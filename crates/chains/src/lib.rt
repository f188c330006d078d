// The walk of a Select along its stores.
#![tactic(auto)]

ghost use Rattle.std.specs.Prelude.{◌≡◌, cond, ◌+◌, ◌<◌, length, get_or};
ghost use Rattle.images.specs.Bits.{BitsWithin, ConstsWithin};
ghost use Rattle.lowering.specs.Asked.{lowering_of};
ghost use Rattle.lowering.specs.Matching.{walk, noted, end_good, end_classes};
ghost use Rattle.rows.specs.declared.Graph.{Graph};
ghost use Rattle.rows.specs.Row.{row_count};
ghost use Rattle.chains.specs.Ready.{PairsWithin};
ghost use Rattle.chains.specs.Step.{level_step, pair_walk};

use lowering::{Asked, Source, Walk};
use rows::{Graph, tag};

// Target row r is Ite(Eq(a, b), v, rest): the walk goes on at the rest.
fn level(target: &[u64], a: u64, b: u64, v: u64, r: u64) -> Walk
    ensures step { result ≡ level_step target.now a b v r }
{
    if rows::row_count(Graph::Target, target) as u64 <= r {
        return Walk::Lost;
    }
    let d = rows::row(Graph::Target, target, r as usize);
    if d[0] != tag::ITE {
        return Walk::Lost;
    }
    if d[2] != v {
        return Walk::Lost;
    }
    if !images::is_eq(target, a, b, d[1]) {
        return Walk::Lost;
    }
    Walk::RanOut(d[3])
}

// A pair of index row p and value row v, where the select index is row q with image b.
fn pair_step(asked: &Asked, q: [u64; 5], b: u64, p: u64, v: u64, r: u64) -> Walk
    requires p_bound { p < row_count Graph.Source asked.now.source.rows.now }
    requires consts_within { ConstsWithin Graph.Source asked.now.source.bits.now asked.now.source.rows.now × BitsWithin asked.now.source.bits.now q }
    ensures step { result ≡ pair_walk (lowering_of asked.now).source
        asked.now.map.now asked.now.target.rows.now q b p v r }
{
    let Source { rows, bits, .. } = asked.source;
    let e = rows::row(Graph::Source, rows, p as usize);
    if !images::both_const(e, q) {
        return level(
            asked.target.rows,
            images::map_at(asked.map, p),
            b,
            images::map_at(asked.map, v),
            r,
        );
    }
    if images::same_bits(bits, e, bits, q) {
        return Walk::Met(r, v);
    }
    Walk::RanOut(r)
}

// The walk from row r along the k pairs from s on, for the index row j: it leaves with the row where it stopped.
fn chain_walk(asked: &Asked, j: u64, k: u64, s: u64, r: u64) -> Walk
    requires j_bound { j < row_count Graph.Source asked.now.source.rows.now }
    requires pairs_within { PairsWithin asked.now.source.rows.now asked.now.source.side.now s k }
    requires consts_within { ConstsWithin Graph.Source asked.now.source.bits.now asked.now.source.rows.now }
    ensures stop { result ≡ walk (lowering_of asked.now).source asked.now.map.now
        asked.now.target.rows.now j k s r }
{
    if k == 0 {
        return Walk::RanOut(r);
    }
    let Source { rows, side, .. } = asked.source;
    let q = rows::row(Graph::Source, rows, j as usize);
    let b = images::map_at(asked.map, j);
    let mut row = r;
    for l in 0..k {
        let at = (s + 2 * l) as usize;
        let step = pair_step(asked, q, b, side[at], side[at + 1], row);
        let Walk::RanOut(next) = step else {
            return step;
        };
        row = next;
    }
    Walk::RanOut(row)
}

// A Select row against its image, target row r.
pub fn select_corr(asked: &Asked, ent: &[u64], cls: &mut [u64], e: [u64; 5], r: usize) -> bool
    requires e_bound { (get_or e 2 0 < row_count Graph.Source asked.now.source.rows.now)
        × PairsWithin asked.now.source.rows.now asked.now.source.side.now (get_or e 3 0) (get_or e 4 0)
        × ConstsWithin Graph.Source asked.now.source.bits.now asked.now.source.rows.now }
    requires ent_len { (length ent.now ≡ row_count Graph.Target asked.now.target.rows.now) × (length cls.old
        ≡ row_count Graph.Target asked.now.target.rows.now) }
    ensures test { result ≡ end_good asked.now.map.now asked.now.reads.now asked.now.target.rows.now (noted cls.old ent.now)
        (get_or e 1 0) (get_or e 2 0) (walk (lowering_of asked.now).source
        asked.now.map.now asked.now.target.rows.now (get_or e 2 0) (get_or e 4 0) (get_or e 3 0) r) }
    ensures list { cls.new ≡ cond result (end_classes cls.old
        (walk (lowering_of asked.now).source asked.now.map.now asked.now.target.rows.now (get_or e 2 0)
        (get_or e 4 0) (get_or e 3 0) r)) cls.old }
{
    let w = chain_walk(asked, e[2], e[4], e[3], r as u64);
    ends::walk_end(asked, ent, cls, e[1], e[2], w)
}
