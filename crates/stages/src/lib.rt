// The stages of Check besides forms and rows: tables, roots, and the lists of a refusal.
#![tactic(auto)]

ghost use Rattle.std.specs.Prelude.{◌≡◌, true, length, replicate};
ghost use Rattle.answers.specs.Answer.{is_accepted};
ghost use Rattle.rows.specs.declared.Graph.{Graph};
ghost use Rattle.rows.specs.Row.{row_count};
ghost use Rattle.sorts.specs.Sorts.{sorts_of};
ghost use Rattle.sorts.specs.Good.{Good};
ghost use Rattle.lowering.specs.Tables.{read_count, call_count, read_classes, call_classes, read_offsets, call_offsets};
ghost use Rattle.lowering.specs.Asked.{lowering_of};
ghost use Rattle.lowering.specs.Lowering.{entries_of};
ghost use Rattle.lowering.specs.Check.{first_refusal, table_answers, root_answers};
ghost use Rattle.images.specs.Bits.{ConstsWithin};
ghost use Rattle.pairs.specs.Walk.{ReadsIn};
ghost use Rattle.congruence.specs.Calls.{CallsIn, EqsEven};

use answers::{Answer, Refusal};
use lowering::Asked;

// 5, by the sorts of an edition, and 6; where both tables pass, each entry has marked its variable's class and offset.
pub fn entries(asked: &Asked, ws: &[u64], cls: &mut [u64], ent: &mut [u64]) -> Answer
    requires cls_len { length cls.old ≡ row_count Graph.Target asked.now.target.rows.now }
    requires ent_len { length ent.old ≡ row_count Graph.Target asked.now.target.rows.now }
    requires good { Good (lowering_of asked.now).edition }
    ensures answer { result ≡ first_refusal (table_answers (sorts_of (lowering_of asked.now).edition) (entries_of
        (lowering_of asked.now)) asked.now.target.rows.now ws.now cls.old) }
    ensures classes { is_accepted result ≡ true → cls.new
        ≡ call_classes asked.now.calls.now (read_classes asked.now.reads.now cls.old (read_count asked.now.reads.now))
        (call_count asked.now.calls.now) }
    ensures offsets { is_accepted result ≡ true → ent.new
        ≡ call_offsets asked.now.calls.now (read_offsets asked.now.reads.now ent.old (read_count asked.now.reads.now))
        (call_count asked.now.calls.now) }
{
    let r = tables::read_entries(asked.reads, asked.sorts, asked.target.rows, ws, cls, ent);
    if r < tables::read_count(asked.reads) as u64 {
        return Err(Refusal::ReadTable(r));
    }
    let c = tables::call_entries(asked.calls, asked.cargs, asked.target.rows, ws, cls, ent);
    if c < tables::call_count(asked.calls) as u64 {
        return Err(Refusal::CallTable(c));
    }
    Ok(())
}

// 12, 13 and 12 for roots left over, where the tables have passed.
pub fn roots(asked: &Asked, ws: &[u64]) -> Answer
    requires reads_in { ReadsIn asked.now.reads.now asked.now.target.rows.now }
    requires calls_in { CallsIn asked.now.calls.now asked.now.cargs.now }
    requires eqs_even { EqsEven asked.now.target.rows.now ws.now }
    requires consts_within { ConstsWithin Graph.Target asked.now.target.bits.now asked.now.target.rows.now }
    ensures answer { result ≡ first_refusal (root_answers (entries_of (lowering_of asked.now))
        (lowering_of asked.now).target ws.now asked.now.map.now asked.now.eroots.now
        asked.now.troots.now) }
{
    let Asked { eroots, troots, .. } = *asked;
    let lead = leads::ext_roots_corr(eroots, asked.map, troots);
    if lead < eroots.len() {
        return Err(Refusal::RootMismatch(lead as u64));
    }
    let a = match pairs::array_cong(
        asked.reads,
        asked.target.rows,
        asked.target.bits,
        troots,
        eroots.len(),
    ) {
        Ok(next) => next,
        Err(read_at) => return Err(Refusal::CongruenceMismatch(read_at as u64)),
    };
    let u = match congruence::uf_cong(asked.calls, asked.cargs, asked.target.rows, ws, troots, a) {
        Ok(next) => next,
        Err(call_at) => return Err(Refusal::CongruenceMismatch(call_at as u64)),
    };
    if u != troots.len() {
        return Err(Refusal::RootMismatch(0));
    }
    Ok(())
}

// Zeros in all four lists.
pub fn clear_all(ws0: &mut [u64], ws1: &mut [u64], cls: &mut [u64], ent: &mut [u64])
    ensures zeros { ws0.new ≡ replicate (length ws0.old) 0 }
    ensures zeros_1 { ws1.new ≡ replicate (length ws1.old) 0 }
    ensures zeros_2 { cls.new ≡ replicate (length cls.old) 0 }
    ensures zeros_3 { ent.new ≡ replicate (length ent.old) 0 }
{
    lists::clear(ws0);
    lists::clear(ws1);
    lists::clear(cls);
    lists::clear(ent);
}
