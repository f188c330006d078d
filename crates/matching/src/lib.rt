// How a source row is matched with its image, and the classes that follow.
#![tactic(auto)]

ghost use Rattle.std.specs.Prelude.{◌≡◌, cond, ◌<◌, length, set};
ghost use Rattle.answers.specs.Answer.{is_accepted};
ghost use Rattle.images.specs.Bits.{BitsWithin, ConstsWithin};
ghost use Rattle.lowering.specs.Asked.{lowering_of};
ghost use Rattle.lowering.specs.Lowering.{binding_of};
ghost use Rattle.lowering.specs.Images.{same_const};
ghost use Rattle.lowering.specs.Matching.{noted, var_matches, node_matches, matched, node_answer, node_classes, row_answer, row_classes};
ghost use Rattle.lowering.specs.Matching.{classes_to, refused_row, all_rows_answer, dead_entry};
ghost use Rattle.rows.specs.declared.Graph.{Graph};
ghost use Rattle.rows.specs.Row.{row_count, row_at};
ghost use Rattle.rows.specs.Node.{node_of};
ghost use Rattle.matching.specs.Ready.{Formed};

use answers::{Answer, Refusal};
use lowering::Asked;
use rows::{Graph, MAX, tag};

// The first variable whose entry nothing has reached, which is in class 2 or 3 (words that a C program reads), or the number of rows.
pub fn dead_entry(cls: &[u64]) -> u64
    ensures variable { result ≡ dead_entry cls.now (length cls.now) }
{
    let dead = cls.iter().position(|c| matches!(*c, 2 | 3));
    dead.unwrap_or(cls.len()) as u64
}

// The core rows: a variable, which claims its image, a constant, any other.
fn var_corr(target: &[u64], cls: &mut [u64], w: u64, r: usize) -> bool
    requires { (r < row_count Graph.Target target.now) × (length cls.old ≡ row_count Graph.Target target.now) }
    ensures test { result ≡ var_matches target.now cls.old w r }
    ensures list { cls.new ≡ cond result (set cls.old r 1) cls.old }
{
    if !images::row_is_var(rows::row(Graph::Target, target, r), w) {
        return false;
    }
    if cls[r] != 0 {
        return false;
    }
    cls[r] = 1;
    true
}

fn const_corr(ebits: &[u8], target: &[u64], tbits: &[u8], e: [u64; 5], r: usize) -> bool
    requires { (r < row_count Graph.Target target.now) × BitsWithin ebits.now e × ConstsWithin Graph.Target tbits.now target.now }
    ensures test { result ≡ same_const ebits.now e tbits.now (row_at Graph.Target target.now r) }
{
    images::same_const(ebits, e, tbits, rows::row(Graph::Target, target, r))
}

fn node_corr(map: &[u64], target: &[u64], e: [u64; 5], r: usize) -> bool
    requires { r < row_count Graph.Target target.now }
    ensures test { result ≡ node_matches map.now target.now (node_of e) r }
{
    rows::node_eq(
        rows::row(Graph::Target, target, r),
        images::map_node(map, e),
    )
}

// Acceptance where a row matches.
fn matched(b: bool, refusal: Refusal) -> Answer
    ensures answer { result ≡ matched b (Err refusal) }
{
    if b { Ok(()) } else { Err(refusal) }
}

// Source row i against its image, target row r.
fn row_corr(asked: &Asked, ent: &[u64], cls: &mut [u64], i: usize, r: usize) -> Answer
    requires formed { Formed (lowering_of asked.now).source (lowering_of asked.now).target }
    requires ent_len { (length ent.now ≡ row_count Graph.Target asked.now.target.rows.now) × (length cls.old
        ≡ row_count Graph.Target asked.now.target.rows.now) }
    requires i_bound { (i < row_count Graph.Source asked.now.source.rows.now) × (r < row_count Graph.Target asked.now.target.rows.now) }
    ensures answer { result ≡ node_answer (binding_of (lowering_of asked.now))
        (noted cls.old ent.now) i r (node_of (row_at Graph.Source asked.now.source.rows.now i)) }
    ensures list { cls.new ≡ cond (is_accepted result) (node_classes
        (binding_of (lowering_of asked.now))
        cls.old r (node_of (row_at Graph.Source asked.now.source.rows.now i))) cls.old }
{
    let Asked { source, target, .. } = *asked;
    let row = i as u64;
    let e = rows::row(Graph::Source, source.rows, i);
    let t = e[0];
    match t {
        tag::VAR => matched(var_corr(target.rows, cls, e[1], r), Refusal::VarClass(row)),
        tag::CONST => matched(
            const_corr(source.bits, target.rows, target.bits, e, r),
            Refusal::ConstMismatch(row),
        ),
        tag::SELECT => matched(
            chains::select_corr(asked, ent, cls, e, r),
            Refusal::ChainMismatch(row),
        ),
        tag::CALL => matched(
            applied::call_corr(asked, ent, cls, e, r),
            Refusal::CallMismatch(row),
        ),
        _ => matched(
            node_corr(asked.map, target.rows, e, r),
            Refusal::NodeMismatch(row),
        ),
    }
}

// Source row i: nothing is asked where it has no image.
fn ext_step(asked: &Asked, ent: &[u64], cls: &mut [u64], i: usize) -> Answer
    requires formed { Formed (lowering_of asked.now).source (lowering_of asked.now).target }
    requires ent_len { (length ent.now ≡ row_count Graph.Target asked.now.target.rows.now) × (length cls.old
        ≡ row_count Graph.Target asked.now.target.rows.now) }
    requires i_bound { i < row_count Graph.Source asked.now.source.rows.now }
    ensures answer { result ≡ row_answer (binding_of (lowering_of asked.now))
        (noted cls.old ent.now) i }
    ensures list { cls.new ≡ cond (is_accepted result) (row_classes
        (binding_of (lowering_of asked.now))
        i cls.old) cls.old }
{
    let r = images::map_at(asked.map, i as u64);
    if r == MAX {
        return Ok(());
    }
    if rows::row_count(Graph::Target, asked.target.rows) as u64 <= r {
        return Err(Refusal::MapOutOfRange(i as u64));
    }
    row_corr(asked, ent, cls, i, r as usize)
}

// All rows in order, up to the first that is refused.
pub fn ext_rows(asked: &Asked, ent: &[u64], cls: &mut [u64]) -> Answer
    requires formed { Formed (lowering_of asked.now).source (lowering_of asked.now).target }
    requires ent_len { (length ent.now ≡ row_count Graph.Target asked.now.target.rows.now) × (length cls.old
        ≡ row_count Graph.Target asked.now.target.rows.now) }
    ensures answer { result ≡ all_rows_answer (binding_of (lowering_of asked.now))
        (noted cls.old ent.now) }
    ensures list { cls.new ≡ classes_to (binding_of (lowering_of asked.now))
        cls.old (refused_row (binding_of (lowering_of asked.now))
        (noted cls.old ent.now)) }
{
    for i in 0..rows::row_count(Graph::Source, asked.source.rows) {
        let step = ext_step(asked, ent, cls, i);
        step?;
    }
    Ok(())
}
