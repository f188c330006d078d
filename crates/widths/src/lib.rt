// The operations Source widths, Target widths and Roots.
#![tactic(auto)]

ghost use Rattle.std.specs.Prelude.{◌≡◌, [], ◌∷◌, ◌≤◌, length};
ghost use Rattle.answers.specs.Result.{result_of, leaves};
ghost use Rattle.sorts.specs.Sorts.{edition_given, sorts_of};
ghost use Rattle.sorts.specs.Good.{Good};
ghost use Rattle.rows.specs.declared.Graph.{Graph};
ghost use Rattle.rows.specs.Row.{row_count};
ghost use Rattle.wf.specs.Widths.{ill_row, widths};
ghost use Rattle.refusals.specs.Rows.{rows_answer};
ghost use Rattle.widths.specs.Widths.{graph_widths, target_widths, roots_answer};

use answers::{Answer, Refusal};
use rows::Graph;

// The widths of a graph's rows in a list with room for them, where an edition's table is good: 16, 17, then 1 or 2.
fn row_widths(
    graph: Graph,
    g: &[u64],
    bits: &[u8],
    side: &[u64],
    sorts: Option<&[u64]>,
    ws: &mut [u64],
) -> Answer
    requires good { Good (edition_given sorts) }
    requires g_in_bounds { row_count graph g.now ≤ length ws.old }
    ensures outcome { result_of result (ws.new ∷ []) ≡ leaves (rows_answer graph g.now bits.now
        (ill_row (sorts_of (edition_given sorts.entry)) graph (length bits.now) side.now g.now))
        ((
          ws.old,
          widths (sorts_of (edition_given sorts.entry)) graph (length bits.now) side.now
              g.now,
        ) ∷ []) }
{
    let n = rows::row_count(graph, g);
    let stop = wf::graph_wf(graph, g, bits.len() as u64, side, sorts, ws);
    if stop < n {
        lists::clear(ws);
        return refusals::refusal(Ok(()), graph, g, bits, stop);
    }
    let bit = encoding::bad_bit(bits);
    if bit < bits.len() {
        lists::clear(ws);
        return Err(Refusal::BadBit(bit as u64, rows::graph_number(graph)));
    }
    lists::clear_from(ws, n);
    Ok(())
}

// The widths of a graph's rows, or the first refusal by 01's order, with 28 where the edition is the second.
fn graph_widths(
    graph: Graph,
    g: &[u64],
    bits: &[u8],
    side: &[u64],
    sorts: Option<&[u64]>,
    ws: &mut [u64],
) -> Answer
    ensures outcome { result_of result (ws.new ∷ []) ≡ graph_widths (edition_given sorts.entry) graph g.now
        bits.now side.now ws.old }
{
    if rows::is_ragged(graph, g) {
        return Err(Refusal::RowCount(rows::graph_number(graph)));
    }
    if ws.len() < rows::row_count(graph, g) {
        return Err(Refusal::WorkShort(rows::graph_number(graph)));
    }
    let sort = sorts::sort_answer(sorts);
    if sort.is_err() {
        lists::clear(ws);
        return refusals::refusal(sort, graph, g, bits, 0);
    }
    row_widths(graph, g, bits, side, sorts, ws)
}

// Of a source whose arrays have the sorts of an edition, a second one's from its table.
pub fn source_widths(
    source: &[u64],
    bits: &[u8],
    side: &[u64],
    sorts: Option<&[u64]>,
    ws: &mut [u64],
) -> Answer
    ensures outcome { result_of result (ws.new ∷ []) ≡ graph_widths (edition_given sorts.entry) Graph.Source
        source.now bits.now side.now ws.old }
{
    graph_widths(Graph::Source, source, bits, side, sorts, ws)
}

pub fn target_widths(target: &[u64], bits: &[u8], ws: &mut [u64]) -> Answer
    ensures outcome { result_of result (ws.new ∷ []) ≡ target_widths target.now bits.now ws.old }
{
    let none = &target[0..0];
    graph_widths(Graph::Target, target, bits, none, None, ws)
}

pub fn roots(ws: &[u64], roots: &[u64]) -> Answer
    ensures answer { result ≡ roots_answer ws.now roots.now }
{
    let position = wf::roots_wf(ws, roots);
    if position < roots.len() {
        Err(Refusal::BadRoot(position as u64, 0))
    } else {
        Ok(())
    }
}
