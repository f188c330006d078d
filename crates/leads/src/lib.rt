// Roots one by one: the images of the source's roots, and the shape of a congruence root.
#![tactic(auto, unfolding(lists::specs::Tests::all, lowering::specs::Roots::leads, crate::specs::Shape::implies))]

ghost use Rattle.std.specs.Prelude.{◌≡◌, ◌<◌, length};
ghost use Rattle.lowering.specs.Roots.{bad_lead, leads};
ghost use Rattle.leads.specs.Shape.{antecedent};

use rows::{Graph, MAX, tag};

// The image of source root k has its place.
fn root_leads(map: &[u64], eroots: &[u64], troots: &[u64], k: usize) -> bool
    requires { k < length eroots.now }
    ensures test { result ≡ leads map.now eroots.now troots.now k }
{
    let image = images::map_at(map, eroots[k]);
    image != MAX && k < troots.len() && troots[k] == image
}

// The position of the first source root without its image in its place, or the number of source roots.
pub fn ext_roots_corr(eroots: &[u64], map: &[u64], troots: &[u64]) -> usize
    ensures position { result ≡ bad_lead map.now eroots.now troots.now }
{
    for k in 0..eroots.len() {
        if !root_leads(map, eroots, troots, k) {
            return k;
        }
    }
    eroots.len()
}

// The row under the Not of root, BoolOr(Not(..), Eq(vp, vq)).
pub fn implication_shape(target: &[u64], root: u64, vp: u64, vq: u64) -> Option<u64>
    ensures row { result ≡ antecedent target.now vp vq root }
{
    let n = rows::row_count(Graph::Target, target) as u64;
    if n <= root {
        return None;
    }
    let d = rows::row(Graph::Target, target, root as usize);
    if d[0] != tag::BOOL_OR || !images::is_eq(target, vp, vq, d[2]) || n <= d[1] {
        return None;
    }
    let dn = rows::row(Graph::Target, target, d[1] as usize);
    if dn[0] != tag::NOT {
        return None;
    }
    Some(dn[1])
}
