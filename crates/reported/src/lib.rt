// Check, of either edition, and the verdict on a book, strict or not: their answers told in three words, and what acceptance means.
#![tactic(auto)]

ghost use Rattle.std.specs.Prelude.{◌≡◌, [], ◌∷◌};
ghost use Rattle.answers.specs.Result.{told, told_of};
ghost use Rattle.loaded.specs.Held.{held};
ghost use Rattle.judge.specs.Judge.{judge_by};
ghost use Rattle.lowering.specs.Asked.{lowering_of};
ghost use Rattle.lowering.specs.Check.{check_by};
ghost use Rattle.meaning.specs.Meaning.{truth};
ghost use Rattle.soundness.specs.Sound.{SoundBy};
ghost use Rattle.soundness.specs.Choices.{SameChoicesBy};

use answers::Words;
use lowering::Asked;

pub fn check(
    strict: bool,
    asked: &Asked,
    ws0: &mut [u64],
    ws1: &mut [u64],
    classes: &mut [u64],
    entries: &mut [u64],
) -> Words
    ensures outcome { told result (ws0.new ∷ ws1.new ∷ classes.new ∷ entries.new ∷ [])
        ≡ told_of (check_by strict (lowering_of asked.now) ws0.old ws1.old classes.old entries.old) }
    ensures sound { result.number ≡ 0 → SoundBy (truth strict) (lowering_of asked.now) }
    ensures choices { result.number ≡ 0 → SameChoicesBy (lowering_of asked.now) (truth strict) classes.new }
{
    let a = checker::check(strict, asked, ws0, ws1, classes, entries);
    Words::from(a)
}

pub fn judge(
    strict: bool,
    book: &[u8],
    ws0: &mut [u64],
    ws1: &mut [u64],
    classes: &mut [u64],
    entries: &mut [u64],
    words: &mut [u64],
) -> Words
    ensures outcome { told result (ws0.new ∷ ws1.new ∷ classes.new ∷ entries.new
        ∷ words.new ∷ [])
        ≡ told_of (judge_by strict book.now ws0.old ws1.old classes.old entries.old
        words.old) }
    ensures sound { result.number ≡ 0 → SoundBy (truth strict) (held book.now) }
    ensures choices { result.number ≡ 0 → SameChoicesBy (held book.now) (truth strict) classes.new }
{
    let a = judge::judge(strict, book, ws0, ws1, classes, entries, words);
    Words::from(a)
}
