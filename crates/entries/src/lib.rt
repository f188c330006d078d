// The tests of one table entry: its variable, its index or arguments, its key.
#![tactic(auto)]

ghost use Rattle.std.specs.Prelude.{◌≡◌, ◌<◌, ◌≤◌, ◌+◌, ◌*◌, length};
ghost use Rattle.lists.specs.Tests.{all};
ghost use Rattle.rows.specs.declared.Graph.{Graph};
ghost use Rattle.rows.specs.Row.{row_count};
ghost use Rattle.keys.specs.Keys.{ArgsInside};
ghost use Rattle.entries.specs.Entries.{stride, sort_in, is_var, free, args_in, read_own, call_own, own, good, Sorted, ArgsBefore};

use rows::{Graph, tag};
use sorts::Sort;

// Which table a list of words holds, with what its entries are read by: the sorts of its edition, the calls' arguments.
#[derive(Clone, Copy)]
pub enum Table<'a> {
    Reads(Option<&'a [u64]>),
    Calls(&'a [u64]),
}

// The sort of entry k's array, for reads.
fn sort_in(which: Table, table: &[u64], k: usize) -> Sort
    requires which_in_bounds { k * stride which + stride which ≤ length table.now }
    requires sorted { Sorted which }
    ensures sort { (result.index ≡ (sort_in which.entry table.now k).index)
        × (result.cell ≡ (sort_in which.entry table.now k).cell) }
{
    match which {
        Table::Reads(sorts) => sorts::sort_of(sorts, table[k * 3 + 1]),
        Table::Calls(_) => Sort { index: 0, cell: 0 },
    }
}

// The row of an entry's variable is a Var, for reads of a cell's width.
fn is_var(which: Table, cw: u64, r: [u64; 5]) -> bool
    ensures test { result ≡ is_var which.entry cw r }
{
    match which {
        Table::Reads(_) => images::row_is_var(r, cw),
        Table::Calls(_) => rows::node_tag(r) == tag::VAR,
    }
}

// Row v is such a Var in class 0.
fn free_var(which: Table, cw: u64, target: &[u64], cls: &[u64], v: u64) -> bool
    requires { length cls.now ≡ row_count Graph.Target target.now }
    ensures test { result ≡ free which.entry cw target.now cls.now v }
{
    if cls.len() as u64 <= v {
        return false;
    }
    let i = v as usize;
    if !is_var(which, cw, rows::row(Graph::Target, target, i)) {
        return false;
    }
    cls[i] == 0
}

// The k arguments from s on lie in the list and are below n.
fn args_in_range(cargs: &[u64], s: u64, k: u64, n: u64) -> bool
    ensures test { result ≡ args_in cargs.now s k n }
{
    let m = cargs.len() as u64;
    if m < s {
        return false;
    }
    if m - s < k {
        return false;
    }
    sides::list_wf(n, cargs, s as usize, k as usize)
}

// A read entry's own tests: its index, its key.
fn read_own(iw: u64, reads: &[u64], ws: &[u64], k: usize) -> bool
    requires { k * 3 + 3 ≤ length reads.now }
    ensures test { result ≡ all (read_own iw reads.now ws.now k) }
{
    if !sides::has_width(ws, reads[k * 3 + 2], iw) {
        return false;
    }
    !keys::read_dup(reads, k)
}

// A call entry's own tests: its arguments, its key.
fn call_own(calls: &[u64], cargs: &[u64], ws: &[u64], n: u64, k: usize) -> bool
    requires k_in_bounds { k * 4 + 4 ≤ length calls.now }
    requires args_inside { ArgsInside calls.now cargs.now k }
    ensures test { result ≡ all (call_own calls.now cargs.now ws.now n k) }
{
    let off = k * 4;
    if !args_in_range(cargs, calls[off + 2], calls[off + 3], n) {
        return false;
    }
    !keys::call_dup(calls, cargs, ws, k)
}

fn own_good(which: Table, iw: u64, table: &[u64], ws: &[u64], n: u64, k: usize) -> bool
    requires which_in_bounds { k * stride which + stride which ≤ length table.now }
    requires args_before { ArgsBefore which table.now k }
    ensures test { result ≡ all (own which.entry iw table.now ws.now n k) }
{
    match which {
        Table::Reads(_) => read_own(iw, table, ws, k),
        Table::Calls(args) => call_own(table, args, ws, n, k),
    }
}

// Entry k, of w words at off, is good, with the classes after the entries before.
pub fn entry_good(
    which: Table,
    w: usize,
    table: &[u64],
    target: &[u64],
    ws: &[u64],
    cls: &[u64],
    off: usize,
    k: usize,
) -> bool
    requires w_value { (w ≡ stride which) × (off ≡ k * w) × (off < length table.now) }
    requires sorted { Sorted which }
    requires args_before { ArgsBefore which table.now k }
    requires cls_len { length cls.now ≡ row_count Graph.Target target.now }
    ensures test { result ≡ good which.entry table.now target.now ws.now cls.now k }
{
    if table.len() - off < w {
        return false;
    }
    let sort = sort_in(which, table, k);
    if !free_var(which, sort.cell, target, cls, table[off]) {
        return false;
    }
    own_good(which, sort.index, table, ws, cls.len() as u64, k)
}
