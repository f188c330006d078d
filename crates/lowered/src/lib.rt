// Whether a target is the lowering of a source, where both are well formed: the tables, the rows and the roots in 01's order.
#![tactic(auto)]

ghost use Rattle.std.specs.Prelude.{◌≡◌, true, [], ◌++◌, ◌-◌, ◌≤◌, length, replicate};
ghost use Rattle.answers.specs.Answer.{is_accepted};
ghost use Rattle.rows.specs.declared.Graph.{Graph};
ghost use Rattle.rows.specs.Row.{row_count};
ghost use Rattle.sorts.specs.Sorts.{plain};
ghost use Rattle.sorts.specs.Good.{Good};
ghost use Rattle.wf.specs.Widths.{widths};
ghost use Rattle.lowering.specs.Asked.{lowering_of};
ghost use Rattle.lowering.specs.Check.{classes, offsets, first_refusal, match_answers};
ghost use Rattle.matching.specs.Ready.{Formed};

use answers::{Answer, Refusal};
use lowering::Asked;
use rows::Graph;

// 3 to 14: whether the target, well formed and with its widths, is the lowering of the source by the sorts of an edition. The two lists hold zeros
// before.
fn matches(asked: &Asked, ws: &[u64], cls: &mut [u64], ent: &mut [u64]) -> Answer
    requires formed { Formed (lowering_of asked.now).source (lowering_of asked.now).target }
    requires ws_value { ws.now ≡ widths plain Graph.Target (length asked.now.target.bits.now) [] asked.now.target.rows.now }
    requires cls_value { cls.old ≡ replicate (row_count Graph.Target asked.now.target.rows.now) 0 }
    requires ent_value { ent.old ≡ replicate (row_count Graph.Target asked.now.target.rows.now) 0 }
    requires good { Good (lowering_of asked.now).edition }
    ensures answer { result ≡ first_refusal (match_answers
        (lowering_of asked.now)) }
    ensures class_list { is_accepted result ≡ true → cls.new
        ≡ classes (lowering_of asked.now)
        (row_count Graph.Source asked.now.source.rows.now) }
    ensures entry_list { is_accepted result ≡ true → ent.new
        ≡ offsets (lowering_of asked.now) }
{
    let Asked { source, map, .. } = *asked;
    let n = rows::row_count(Graph::Source, source.rows);
    if map.len() != n {
        return Err(Refusal::MapLength(n as u64, map.len() as u64));
    }
    stages::entries(asked, ws, cls, ent)?;
    matching::ext_rows(asked, ent, cls)?;
    let dead = matching::dead_entry(cls);
    if dead < cls.len() as u64 {
        return Err(Refusal::DeadEntry(dead));
    }
    stages::roots(asked, ws)
}

// The same in lists with room to spare, whatever they hold before; zeros after the last row.
pub fn lowered(asked: &Asked, ws: &[u64], cls: &mut [u64], ent: &mut [u64]) -> Answer
    requires formed { Formed (lowering_of asked.now).source (lowering_of asked.now).target }
    requires ws_value { ws.now ≡ widths plain Graph.Target (length asked.now.target.bits.now) [] asked.now.target.rows.now }
    requires target_in_bounds { row_count Graph.Target asked.now.target.rows.now ≤ length cls.old }
    requires target_in_bounds_2 { row_count Graph.Target asked.now.target.rows.now ≤ length ent.old }
    requires good { Good (lowering_of asked.now).edition }
    ensures answer { result ≡ first_refusal (match_answers
        (lowering_of asked.now)) }
    ensures class_list { is_accepted result ≡ true → cls.new
        ≡ classes (lowering_of asked.now)
        (row_count Graph.Source asked.now.source.rows.now) ++ replicate (length cls.old - row_count Graph.Target asked.now.target.rows.now) 0 }
    ensures entry_list { is_accepted result ≡ true → ent.new
        ≡ offsets (lowering_of asked.now)
        ++ replicate (length ent.old - row_count Graph.Target asked.now.target.rows.now) 0 }
{
    lists::clear(cls);
    lists::clear(ent);
    let n = rows::row_count(Graph::Target, asked.target.rows);
    matches(asked, ws, &mut cls[..n], &mut ent[..n])
}
