// The two tables: one walk checks the entries of either in order, and each good one marks its variable.
#![tactic(auto)]

ghost use Rattle.std.specs.Prelude.{◌≡◌, length};
ghost use Rattle.rows.specs.declared.Graph.{Graph};
ghost use Rattle.rows.specs.Row.{row_count};
ghost use Rattle.lowering.specs.Tables.{read_count, call_count, table_classes, table_offsets, bad_entry};
ghost use Rattle.lowering.specs.Tables.{read_classes, call_classes, read_offsets, call_offsets, bad_read, bad_call};
ghost use Rattle.sorts.specs.Sorts.{edition_given, sorts_of};
ghost use Rattle.sorts.specs.Good.{Good};
ghost use Rattle.entries.specs.Entries.{stride, good, Sorted};

use entries::Table;

// The first bad entry of a table with w words an entry, or the number of entries; those before it give their variables the class and their offset.
fn table_entries(
    which: Table,
    w: usize,
    class: u64,
    table: &[u64],
    target: &[u64],
    ws: &[u64],
    cls: &mut [u64],
    ent: &mut [u64],
) -> u64
    requires w_value { w ≡ stride which }
    requires sorted { Sorted which }
    requires cls_len { length cls.old ≡ row_count Graph.Target target.now }
    requires ent_len { length ent.old ≡ row_count Graph.Target target.now }
    ensures entry { result ≡ bad_entry w class (good which.entry table.now target.now ws.now) table.now cls.old }
    ensures classes { cls.new ≡ table_classes w class table.now cls.old result }
    ensures offsets { ent.new ≡ table_offsets w table.now ent.old result }
{
    let count = table.len().div_ceil(w);
    for k in 0..count {
        let off = k * w;
        if !entries::entry_good(which, w, table, target, ws, cls, off, k) {
            return k as u64;
        }
        let v = table[off] as usize;
        cls[v] = class;
        ent[v] = off as u64;
    }
    count as u64
}

// The first bad read entry by the sorts of an edition, or the number of entries; the variables of those before it get class 2 and their entry's
// offset.
pub fn read_entries(
    reads: &[u64],
    sorts: Option<&[u64]>,
    target: &[u64],
    ws: &[u64],
    cls: &mut [u64],
    ent: &mut [u64],
) -> u64
    requires good { Good (edition_given sorts) }
    requires cls_len { length cls.old ≡ row_count Graph.Target target.now }
    requires ent_len { length ent.old ≡ row_count Graph.Target target.now }
    ensures entry { result ≡ bad_read (sorts_of (edition_given sorts.entry)) reads.now target.now
        ws.now cls.old }
    ensures classes { cls.new ≡ read_classes reads.now cls.old result }
    ensures offsets { ent.new ≡ read_offsets reads.now ent.old result }
{
    table_entries(Table::Reads(sorts), 3, 2, reads, target, ws, cls, ent)
}

// The same of calls, class 3.
pub fn call_entries(
    calls: &[u64],
    cargs: &[u64],
    target: &[u64],
    ws: &[u64],
    cls: &mut [u64],
    ent: &mut [u64],
) -> u64
    requires cls_len { length cls.old ≡ row_count Graph.Target target.now }
    requires ent_len { length ent.old ≡ row_count Graph.Target target.now }
    ensures entry { result ≡ bad_call calls.now cargs.now target.now ws.now cls.old }
    ensures classes { cls.new ≡ call_classes calls.now cls.old result }
    ensures offsets { ent.new ≡ call_offsets calls.now ent.old result }
{
    table_entries(Table::Calls(cargs), 4, 3, calls, target, ws, cls, ent)
}

// How many entries each table has; a cut one counts. Two lines, not one with a const parameter: they have their definitions' names.
pub fn read_count(reads: &[u64]) -> usize
    ensures count { result ≡ read_count reads.now }
{
    reads.len().div_ceil(3)
}

pub fn call_count(calls: &[u64]) -> usize
    ensures count { result ≡ call_count calls.now }
{
    calls.len().div_ceil(4)
}
