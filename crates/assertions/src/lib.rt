// Roots as the strict check takes them: each an asserted term, a row of one bit.
#![tactic(auto)]

ghost use Rattle.std.specs.Prelude.{◌≡◌};
ghost use Rattle.lowering.specs.Check.{first_refusal, bit_answers};

use answers::{Answer, Refusal};

// 19 of the source's roots, then of the target's, each by the widths of its graph's rows; nothing where the check is not the strict one.
pub fn root_answer(strict: bool, ws0: &[u64], eroots: &[u64], ws1: &[u64], troots: &[u64]) -> Answer
    ensures answer { result ≡ first_refusal (bit_answers strict ws0.now eroots.now ws1.now
        troots.now) }
{
    if !strict {
        return Ok(());
    }
    let source = wf::roots_wf(ws0, eroots);
    if source < eroots.len() {
        return Err(Refusal::BadRoot(source as u64, 1));
    }
    let target = wf::roots_wf(ws1, troots);
    if target < troots.len() {
        return Err(Refusal::BadRoot(target as u64, 2));
    }
    Ok(())
}
