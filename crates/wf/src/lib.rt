// Well-formedness of a graph: each row against the widths of the rows before it.
#![tactic(auto)]

ghost use Rattle.std.specs.Prelude.{◌≡◌, true, false, List, ◌++◌, ℕ, ◌<◌, ◌≤◌, length, get_or, drop};
ghost use Rattle.rows.specs.Row.{row_count, row_at};
ghost use Rattle.rows.specs.Tags.{t_select};
ghost use Rattle.sorts.specs.Sorts.{Sorts, edition_given, second_edition, sorts_of};
ghost use Rattle.sorts.specs.Good.{Good};
ghost use Rattle.rules.specs.Table.{table};
ghost use Rattle.wf.specs.Widths.{widths_to, bad_root};
ghost use Rattle.wf.specs.Pass.{row_stops, stop_row, OneSort, Reached};

use rows::{Graph, tag};
use rules::lines::Line;
use sorts::{PLAIN, Sort};

// No width passes it.
const CEILING: u64 = 4096;

// The pass over the rows between two places, whose reads have arrays of one sort, with a copy of the table: the first row that is badly encoded or
// ill-formed, or the second place.
fn rows_wf(
    lines: [Line; 39],
    graph: Graph,
    g: &[u64],
    nbits: u64,
    side: &[u64],
    sort: Sort,
    from: usize,
    to: usize,
    ws: &mut [u64],
) -> usize
    requires lines_value { lines ≡ table }
    requires from_le_to { (from ≤ to) × (to ≤ row_count graph g.now) × (row_count graph g.now ≤ length ws.old) }
    ensures place { (from ≤ result) × (result ≤ to) }
    ensures part { (σ : Sorts) (base : List ℕ) → OneSort σ graph g.now from to sort.index sort.cell
        → Reached σ graph nbits side.now g.now base ws.old from
        → Reached σ graph nbits side.now g.now base ws.new result
        × (result < to → row_stops σ graph nbits side.now g.now result ≡ true) }
{
    let tags = encoding::tag_count(graph);
    for i in from..to {
        let r = rows::row(graph, g, i);
        if tags <= r[0] {
            return i;
        }
        let t = r[0] as usize;
        let line = lines[t];
        let w = operands::line_width(line, r, nbits, side, sort, &ws[..i]);
        if w == 0 {
            return i;
        }
        if CEILING < w {
            return i;
        }
        ws[i] = w;
    }
    to
}

// Whether a row reads another array; what is asked is that no other is read where it says no.
fn reads_other(r: [u64; 5], array: u64) -> bool
    ensures test { result ≡ false → get_or r 0 0 ≡ t_select → get_or r 1 0 ≡ array }
{
    if r[0] != tag::SELECT {
        return false;
    }
    r[1] != array
}

// The end of a part of the pass: the next row that reads another array than its first row does, or the number of rows. The first row of a part may
// be no read; its first field is then a number like any other. What is asked of the end is that no other array is read before it; a part that ended
// earlier would only take longer.
fn part_end(graph: Graph, g: &[u64], from: usize, array: u64) -> usize
    requires { (from < row_count graph g.now) × (array ≡ get_or (row_at graph g.now from) 1 0) }
    ensures place { (from < result) × (result ≤ row_count graph g.now) }
    ensures reads { (j : ℕ) → j < result → from ≤ j → get_or (row_at graph g.now j) 0 0 ≡ t_select
        → get_or (row_at graph g.now j) 1 0 ≡ array }
{
    let n = rows::row_count(graph, g);
    for i in from + 1..n {
        if reads_other(rows::row(graph, g, i), array) {
            return i;
        }
    }
    n
}

// The pass over all rows of a second edition, in parts that read one array: a sort is looked up once a part, and the loop over its rows is that of a
// first edition. By hand: the row goes on by parts of unequal length.
fn parts_wf(
    graph: Graph,
    g: &[u64],
    nbits: u64,
    side: &[u64],
    table: &[u64],
    ws: &mut [u64],
) -> usize
    requires good { Good (second_edition table.now) }
    requires g_in_bounds { row_count graph g.now ≤ length ws.old }
    ensures row { result ≡ stop_row (sorts_of (second_edition table.now)) graph nbits side.now g.now }
    ensures list { ws.new
        ≡ widths_to (sorts_of (second_edition table.now)) graph nbits side.now g.now result
        ++ drop result ws.old }
{
    let n = rows::row_count(graph, g);
    let lines = rules::lines::all_lines();
    let mut i = 0;
    while i < n {
        let r = rows::row(graph, g, i);
        let to = part_end(graph, g, i, r[1]);
        let sort = sorts::sort_of(Some(table), r[1]);
        let k = rows_wf(lines, graph, g, nbits, side, sort, i, to, ws);
        if k < to {
            return k;
        }
        i = k;
    }
    i
}

// `ext_wf` of a source and `dag_wf` of a target: the first row that is badly encoded or ill-formed, or the number of rows.
// The widths of the rows before it stand in ws. Arrays have the sorts of an edition, a second one's from its table.
pub fn graph_wf(
    graph: Graph,
    g: &[u64],
    nbits: u64,
    side: &[u64],
    sorts: Option<&[u64]>,
    ws: &mut [u64],
) -> usize
    requires good { Good (edition_given sorts) }
    requires g_in_bounds { row_count graph g.now ≤ length ws.old }
    ensures row { result ≡ stop_row (sorts_of (edition_given sorts.entry)) graph nbits side.now g.now }
    ensures list { ws.new
        ≡ widths_to (sorts_of (edition_given sorts.entry)) graph nbits side.now g.now result
        ++ drop result ws.old }
{
    if let Some(table) = sorts {
        return parts_wf(graph, g, nbits, side, table, ws);
    }
    let lines = rules::lines::all_lines();
    let n = rows::row_count(graph, g);
    rows_wf(lines, graph, g, nbits, side, PLAIN, 0, n, ws)
}

// The position of the first root that names no row of one bit, or the number of roots.
// By hand: std's `position` takes 4 instructions a root more.
pub fn roots_wf(ws: &[u64], roots: &[u64]) -> usize
    ensures position { result ≡ bad_root ws.now roots.now }
{
    for (r, root) in roots.iter().enumerate() {
        if !sides::has_width(ws, *root, 1) {
            return r;
        }
    }
    roots.len()
}
