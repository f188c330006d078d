// The operation Values of a target graph.
#![tactic(auto)]

ghost use Rattle.std.specs.Prelude.{◌≡◌, [], ◌∷◌};
ghost use Rattle.answers.specs.Result.{result_of};
ghost use Rattle.values.specs.Values.{values};

use answers::{Answer, Refusal};
use rows::Graph;

// The numbers of a target's rows under the words given for its variables, with its widths, or the first refusal by 01's order.
pub fn values(target: &[u64], bits: &[u8], given: &[u64], ws: &mut [u64], vs: &mut [u64]) -> Answer
    ensures outcome { result_of result (ws.new ∷ vs.new ∷ [])
        ≡ values target.now bits.now given.now
        ws.old vs.old }
{
    if rows::is_ragged(Graph::Target, target) {
        return Err(Refusal::RowCount(2));
    }
    let n = rows::row_count(Graph::Target, target);
    if ws.len() < n {
        return Err(Refusal::WorkShort(1));
    }
    if vs.len() < n {
        return Err(Refusal::WorkShort(2));
    }
    let a = widths::target_widths(target, bits, ws);
    if a.is_err() {
        lists::clear(vs);
        return a;
    }
    let b = inputs::given_answer(target, given, &ws[..n]);
    if b.is_err() {
        lists::clear(ws);
        lists::clear(vs);
        return b;
    }
    evaluate::evaluate(target, bits, given, &ws[..n], vs);
    lists::clear_from(vs, n);
    Ok(())
}
