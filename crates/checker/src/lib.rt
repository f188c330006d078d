// The operation Check, and the strict check, on either edition: one function with a switch.
#![tactic(auto)]

ghost use Rattle.std.specs.Prelude.{◌≡◌, ◌≤◌, [], ◌∷◌, length};
ghost use Rattle.rows.specs.Row.{MAX};
ghost use Rattle.answers.specs.Result.{result_of};
ghost use Rattle.lowering.specs.Asked.{lowering_of};
ghost use Rattle.lowering.specs.Check.{check_by};

use answers::Answer;
use lowering::Asked;
use rows::Graph;

// Whether the target is the lowering of the source, or the first refusal by 01's order, with 19 where the check is strict and 28 where the edition is
// the second, whose table gives the arrays their sorts; in the four lists the widths of both graphs, the classes and the entry offsets.
pub fn check(
    strict: bool,
    asked: &Asked,
    ws0: &mut [u64],
    ws1: &mut [u64],
    cls: &mut [u64],
    ent: &mut [u64],
) -> Answer
    ensures slice { length asked.now.target.rows.now ≤ MAX }
    ensures outcome { result_of result (ws0.new ∷ ws1.new ∷ cls.new ∷ ent.new ∷ [])
        ≡ check_by strict (lowering_of asked.now)
        ws0.old ws1.old cls.old ent.old }
{
    let a = forms::count_answer(
        asked.source.rows.len(),
        asked.target.rows.len(),
        ws0.len(),
        ws1.len(),
        cls.len(),
        ent.len(),
    );
    a?;
    let g = forms::rooted_graphs(strict, asked, ws0, ws1);
    if g.is_err() {
        stages::clear_all(ws0, ws1, cls, ent);
        return g;
    }
    let n = rows::row_count(Graph::Target, asked.target.rows);
    let m = lowered::lowered(asked, &ws1[..n], cls, ent);
    if m.is_err() {
        stages::clear_all(ws0, ws1, cls, ent);
        return m;
    }
    lists::clear_from(ws0, rows::row_count(Graph::Source, asked.source.rows));
    lists::clear_from(ws1, n);
    m
}
