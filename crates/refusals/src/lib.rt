// Which of 16, 17, 28, 1 and 2 a graph is refused with.
#![tactic(auto)]

ghost use Rattle.std.specs.Prelude.{◌≡◌, true, false, ℕ, ◌<◌, ◌≤◌};
ghost use Rattle.rows.specs.Row.{row_count};
ghost use Rattle.encoding.specs.Encoding.{row_bad};
ghost use Rattle.answers.specs.Answer.{is_accepted};
ghost use Rattle.refusals.specs.Rows.{ill_formed, rows_answer_by};

use answers::{Answer, Refusal};
use rows::Graph;

fn ill_formed(graph: Graph, row: u64) -> Answer
    ensures answer { result ≡ ill_formed graph row }
{
    match graph {
        Graph::Source => Err(Refusal::Ext(row)),
        Graph::Target => Err(Refusal::Core(row)),
    }
}

// The refusal of a graph whose row `stop` is badly encoded or ill-formed, where the rows before it are good, and of one beside a sort table that is
// refused, of which no row's width was asked.
pub fn refusal(sort: Answer, graph: Graph, g: &[u64], bits: &[u8], stop: usize) -> Answer
    requires stop_bound { stop ≤ row_count graph g.now }
    requires by_index { (j : ℕ) → j < stop → row_bad graph g.now j ≡ false }
    requires stop_bound_2 { is_accepted sort ≡ true → stop < row_count graph g.now }
    ensures answer { result ≡ rows_answer_by sort graph g.now bits.now stop }
{
    let number = rows::graph_number(graph);
    let row = encoding::bad_row(graph, g, stop);
    if row < rows::row_count(graph, g) {
        return Err(Refusal::BadRow(row as u64, number));
    }
    let bit = encoding::bad_bit(bits);
    if bit < bits.len() {
        return Err(Refusal::BadBit(bit as u64, number));
    }
    sort?;
    ill_formed(graph, stop as u64)
}
