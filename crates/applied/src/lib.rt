// A Call row against its image: the entry of the result variable and its arguments.
#![tactic(auto)]

ghost use Rattle.std.specs.Prelude.{◌≡◌, cond, ◌+◌, ◌<◌, ◌≤◌, length, get_or, set};
ghost use Rattle.lists.specs.Tests.{agree};
ghost use Rattle.lowering.specs.Matching.{noted, mapped_arg, call_matches};
ghost use Rattle.rows.specs.declared.Graph.{Graph};
ghost use Rattle.rows.specs.Row.{row_count};
ghost use Rattle.rows.specs.Tags.{either};
ghost use Rattle.applied.specs.Ready.{ArgsWithin};

use lowering::Asked;
use rows::Graph;

// The classes of a call variable. Classes stay numbers: the list of them is words that a C program reads.
fn call_class(c: u64) -> bool
    ensures test { result ≡ either c 3 5 }
{
    matches!(c, 3 | 5)
}

// The images of the k arguments from s on are the rows from cs on.
fn args_match(eside: &[u64], map: &[u64], cargs: &[u64], s: usize, cs: usize, k: usize) -> bool
    requires args_within { ArgsWithin eside.now s k }
    requires k_in_bounds { cs + k ≤ length cargs.now }
    ensures test { result ≡ agree (mapped_arg map.now eside.now s)
        (λ l. get_or cargs.now (cs + l) 0) k }
{
    // By place: where k is 0, s may lie past the list, so no slice of it starts there.
    for l in 0..k {
        if images::map_at(map, eside[s + l]) != cargs[cs + l] {
            return false;
        }
    }
    true
}

// Target row r is the result variable of a Call's function, of its width, at the images of its arguments.
fn call_ok(asked: &Asked, ent: &[u64], cls: &[u64], e: [u64; 5], r: usize) -> bool
    requires r_bound { (r < row_count Graph.Target asked.now.target.rows.now) × (length ent.now ≡ row_count Graph.Target asked.now.target.rows.now)
        × (length cls.now ≡ row_count Graph.Target asked.now.target.rows.now) }
    requires args_within { ArgsWithin asked.now.source.side.now (get_or e 3 0) (get_or e 4 0) }
    ensures test { result ≡ call_matches asked.now.calls.now asked.now.cargs.now asked.now.target.rows.now
        (noted cls.now ent.now) (get_or e 1 0) (get_or e 2 0) (get_or e 4 0)
        (mapped_arg asked.now.map.now asked.now.source.side.now (get_or e 3 0)) r }
{
    let Asked { calls, cargs, .. } = *asked;
    if !images::row_is_var(rows::row(Graph::Target, asked.target.rows, r), e[2]) {
        return false;
    }
    if !call_class(cls[r]) {
        return false;
    }
    let o = ent[r];
    if !lists::within(calls.len() as u64, o, 4) {
        return false;
    }
    let at = o as usize;
    let k = e[4];
    if calls[at + 1] != e[1] {
        return false;
    }
    if calls[at + 3] != k {
        return false;
    }
    let cs = calls[at + 2];
    if !lists::within(cargs.len() as u64, cs, k) {
        return false;
    }
    args_match(
        asked.source.side,
        asked.map,
        cargs,
        e[3] as usize,
        cs as usize,
        k as usize,
    )
}

// A Call row against its image: the variable becomes 5.
pub fn call_corr(asked: &Asked, ent: &[u64], cls: &mut [u64], e: [u64; 5], r: usize) -> bool
    requires r_bound { (r < row_count Graph.Target asked.now.target.rows.now) × (length ent.now ≡ row_count Graph.Target asked.now.target.rows.now)
        × (length cls.old ≡ row_count Graph.Target asked.now.target.rows.now) }
    requires args_within { ArgsWithin asked.now.source.side.now (get_or e 3 0) (get_or e 4 0) }
    ensures test { result ≡ call_matches asked.now.calls.now asked.now.cargs.now asked.now.target.rows.now
        (noted cls.old ent.now) (get_or e 1 0) (get_or e 2 0) (get_or e 4 0)
        (mapped_arg asked.now.map.now asked.now.source.side.now (get_or e 3 0)) r }
    ensures list { cls.new ≡ cond result (set cls.old r 5) cls.old }
{
    if !call_ok(asked, ent, cls, e, r) {
        return false;
    }
    cls[r] = 5;
    true
}
