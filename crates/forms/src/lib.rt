// Whether both graphs are lists of well-formed rows: counts of words, encoding, form; for the strict check also whether their roots are of one bit.
#![tactic(auto)]

ghost use Rattle.std.specs.Prelude.{◌≡◌, true, false, [], ◌++◌, ℕ, ◌<◌, ◌≤◌, length, drop};
ghost use Rattle.answers.specs.Answer.{is_accepted};
ghost use Rattle.rows.specs.declared.Graph.{Graph};
ghost use Rattle.rows.specs.Row.{row_count};
ghost use Rattle.encoding.specs.Encoding.{row_bad};
ghost use Rattle.sorts.specs.Sorts.{plain, sorts_of};
ghost use Rattle.wf.specs.Widths.{widths};
ghost use Rattle.lowering.specs.Asked.{lowering_of};
ghost use Rattle.lowering.specs.Lowering.{SourceGraph, TargetGraph, source_graph};
ghost use Rattle.lowering.specs.Check.{first_refusal, count_answers, graph_answers, graphs_answer, form_answers};

use answers::{Answer, Refusal};
use lowering::Asked;
use rows::Graph;

// 15 and 18 of graphs of so many words, with room for some words in each of the four lists.
pub fn count_answer(
    source: usize,
    target: usize,
    w0: usize,
    w1: usize,
    c: usize,
    e: usize,
) -> Answer
    ensures answer { (S : SourceGraph) (T : TargetGraph) → length S.rows ≡ source → length T.rows ≡ target
        → result ≡ first_refusal (count_answers S T w0 w1 c e) }
{
    if source % 5 != 0 {
        return Err(Refusal::RowCount(1));
    }
    if target % 4 != 0 {
        return Err(Refusal::RowCount(2));
    }
    if w0 < source / 5 {
        return Err(Refusal::WorkShort(1));
    }
    let n = target / 4;
    if w1 < n {
        return Err(Refusal::WorkShort(2));
    }
    if c < n {
        return Err(Refusal::WorkShort(3));
    }
    if e < n {
        return Err(Refusal::WorkShort(4));
    }
    Ok(())
}

// 16, 17, the sort table's answer, 1 and 2, where each graph's rows before its row `stop` are good and well formed, and that row, if any, is badly
// encoded or ill-formed.
fn graph_answer(sort: Answer, asked: &Asked, stop0: usize, stop1: usize) -> Answer
    requires stop0_bound { stop0 ≤ row_count Graph.Source asked.now.source.rows.now }
    requires by_index { (j : ℕ) → j < stop0 → row_bad Graph.Source asked.now.source.rows.now j ≡ false }
    requires stop1_bound { stop1 ≤ row_count Graph.Target asked.now.target.rows.now }
    requires by_index_2 { (j : ℕ) → j < stop1 → row_bad Graph.Target asked.now.target.rows.now j ≡ false }
    ensures answer { result ≡ first_refusal (graph_answers sort (source_graph asked.now.source.rows.now asked.now.source.bits.now [])
        (lowering_of asked.now).target stop0 stop1) }
{
    let Asked { source, target, .. } = *asked;
    let row0 = encoding::bad_row(Graph::Source, source.rows, stop0);
    if row0 < rows::row_count(Graph::Source, source.rows) {
        return Err(Refusal::BadRow(row0 as u64, 1));
    }
    let row1 = encoding::bad_row(Graph::Target, target.rows, stop1);
    if row1 < rows::row_count(Graph::Target, target.rows) {
        return Err(Refusal::BadRow(row1 as u64, 2));
    }
    let bit0 = encoding::bad_bit(source.bits);
    if bit0 < source.bits.len() {
        return Err(Refusal::BadBit(bit0 as u64, 1));
    }
    let bit1 = encoding::bad_bit(target.bits);
    if bit1 < target.bits.len() {
        return Err(Refusal::BadBit(bit1 as u64, 2));
    }
    sort?;
    if stop0 < row0 {
        return Err(Refusal::Ext(stop0 as u64));
    }
    if stop1 < row1 {
        return Err(Refusal::Core(stop1 as u64));
    }
    Ok(())
}

// The widths of both graphs, the source's by the sorts of an edition, or the first refusal by 01's order; a source that is refused leaves the
// target's widths unasked, a table that is refused both graphs'.
fn graphs(asked: &Asked, ws0: &mut [u64], ws1: &mut [u64]) -> Answer
    requires source_in_bounds { row_count Graph.Source asked.now.source.rows.now ≤ length ws0.old }
    requires target_in_bounds { row_count Graph.Target asked.now.target.rows.now ≤ length ws1.old }
    ensures answer { result ≡ graphs_answer (lowering_of asked.now).edition
        (lowering_of asked.now).source (lowering_of asked.now).target }
    ensures source_list { is_accepted result ≡ true → ws0.new
        ≡ widths (sorts_of (lowering_of asked.now).edition) Graph.Source (length asked.now.source.bits.now) asked.now.source.side.now
        asked.now.source.rows.now
        ++ drop (row_count Graph.Source asked.now.source.rows.now) ws0.old }
    ensures target_list { is_accepted result ≡ true → ws1.new
        ≡ widths plain Graph.Target (length asked.now.target.bits.now) [] asked.now.target.rows.now
        ++ drop (row_count Graph.Target asked.now.target.rows.now) ws1.old }
{
    let Asked { source, target, .. } = *asked;
    let sort = sorts::sort_answer(asked.sorts);
    if sort.is_err() {
        return graph_answer(sort, asked, 0, 0);
    }
    let nbits = source.bits.len() as u64;
    let stop0 = wf::graph_wf(
        Graph::Source,
        source.rows,
        nbits,
        source.side,
        asked.sorts,
        ws0,
    );
    if stop0 < rows::row_count(Graph::Source, source.rows) {
        return graph_answer(sort, asked, stop0, 0);
    }
    let nbits = target.bits.len() as u64;
    let stop1 = wf::graph_wf(Graph::Target, target.rows, nbits, &[], None, ws1);
    graph_answer(sort, asked, stop0, stop1)
}

// The same of two graphs with their roots, which the strict check asks to be rows of one bit.
pub fn rooted_graphs(strict: bool, asked: &Asked, ws0: &mut [u64], ws1: &mut [u64]) -> Answer
    requires source_in_bounds { row_count Graph.Source asked.now.source.rows.now ≤ length ws0.old }
    requires target_in_bounds { row_count Graph.Target asked.now.target.rows.now ≤ length ws1.old }
    ensures answer { result ≡ first_refusal (form_answers strict (lowering_of asked.now).edition
        (lowering_of asked.now).source
        (lowering_of asked.now).target asked.now.eroots.now asked.now.troots.now) }
    ensures source_list { is_accepted result ≡ true → ws0.new
        ≡ widths (sorts_of (lowering_of asked.now).edition) Graph.Source (length asked.now.source.bits.now) asked.now.source.side.now
        asked.now.source.rows.now
        ++ drop (row_count Graph.Source asked.now.source.rows.now) ws0.old }
    ensures target_list { is_accepted result ≡ true → ws1.new
        ≡ widths plain Graph.Target (length asked.now.target.bits.now) [] asked.now.target.rows.now
        ++ drop (row_count Graph.Target asked.now.target.rows.now) ws1.old }
{
    graphs(asked, ws0, ws1)?;
    let n = rows::row_count(Graph::Source, asked.source.rows);
    let m = rows::row_count(Graph::Target, asked.target.rows);
    assertions::root_answer(strict, &ws0[..n], asked.eroots, &ws1[..m], asked.troots)
}
