// Where the walk of a Select ends: at the value that a pair stores, or at a read variable.
#![tactic(auto)]

ghost use Rattle.std.specs.Prelude.{◌≡◌, cond, length, set};
ghost use Rattle.lowering.specs.declared.Walk.{Walk};
ghost use Rattle.lowering.specs.Matching.{noted, end_good, end_classes};
ghost use Rattle.rows.specs.declared.Graph.{Graph};
ghost use Rattle.rows.specs.Row.{row_count};
ghost use Rattle.rows.specs.Tags.{either};

use lowering::{Asked, Walk};
use rows::Graph;

// The classes of a read variable. Classes stay numbers: the list of them is words that a C program reads.
fn read_class(c: u64) -> bool
    ensures test { result ≡ either c 2 4 }
{
    matches!(c, 2 | 4)
}

// Target row r is the read variable of array a at the image of row j.
fn base_read_ok(asked: &Asked, ent: &[u64], cls: &[u64], a: u64, j: u64, r: u64) -> bool
    requires { (length ent.now ≡ row_count Graph.Target asked.now.target.rows.now) × (length cls.now
        ≡ row_count Graph.Target asked.now.target.rows.now) }
    ensures test { result ≡ end_good asked.now.map.now asked.now.reads.now asked.now.target.rows.now
        (noted cls.now ent.now) a j (Walk.RanOut r) }
{
    let reads = asked.reads;
    if rows::row_count(Graph::Target, asked.target.rows) as u64 <= r {
        return false;
    }
    let i = r as usize;
    if !read_class(cls[i]) {
        return false;
    }
    let o = ent[i];
    if !lists::within(reads.len() as u64, o, 3) {
        return false;
    }
    let at = o as usize;
    if reads[at + 1] != a {
        return false;
    }
    reads[at + 2] == images::map_at(asked.map, j)
}

// The read variable that a walk reaches becomes 4.
fn base_read(asked: &Asked, ent: &[u64], cls: &mut [u64], a: u64, j: u64, r: u64) -> bool
    requires { (length ent.now ≡ row_count Graph.Target asked.now.target.rows.now) × (length cls.old
        ≡ row_count Graph.Target asked.now.target.rows.now) }
    ensures test { result ≡ end_good asked.now.map.now asked.now.reads.now asked.now.target.rows.now
        (noted cls.old ent.now) a j (Walk.RanOut r) }
    ensures list { cls.new ≡ cond result (set cls.old r 4) cls.old }
{
    if !base_read_ok(asked, ent, cls, a, j, r) {
        return false;
    }
    let i = r as usize;
    cls[i] = 4;
    true
}

// Where the walk for array a and index row j ends.
pub fn walk_end(asked: &Asked, ent: &[u64], cls: &mut [u64], a: u64, j: u64, w: Walk) -> bool
    requires { (length ent.now ≡ row_count Graph.Target asked.now.target.rows.now) × (length cls.old
        ≡ row_count Graph.Target asked.now.target.rows.now) }
    ensures test { result ≡ end_good asked.now.map.now asked.now.reads.now asked.now.target.rows.now
        (noted cls.old ent.now) a j w }
    ensures list { cls.new ≡ cond result (end_classes cls.old w) cls.old }
{
    match w {
        Walk::RanOut(r) => base_read(asked, ent, cls, a, j, r),
        Walk::Met(r, v) => r == images::map_at(asked.map, v),
        Walk::Lost => false,
    }
}
