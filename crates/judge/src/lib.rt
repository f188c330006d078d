// The verdict on a book: Check, or the strict check, on the lists that it holds.
#![tactic(auto)]

ghost use Rattle.std.specs.Prelude.{◌≡◌, true, [], ◌∷◌};
ghost use Rattle.answers.specs.Answer.{is_accepted};
ghost use Rattle.answers.specs.Result.{result_of};
ghost use Rattle.meaning.specs.Meaning.{truth};
ghost use Rattle.soundness.specs.Sound.{SoundBy};
ghost use Rattle.soundness.specs.Choices.{classes_left, SameChoicesBy};
ghost use Rattle.loaded.specs.Held.{held};
ghost use Rattle.judge.specs.Judge.{judge_by, verdict_by};

use answers::{Answer, Refusal};

// A book's verdict: 20, or the check's answer on the lists that it holds; in the five lists the widths of both graphs, the classes, the entry offsets
// and the book's words.
pub fn judge(
    strict: bool,
    book: &[u8],
    ws0: &mut [u64],
    ws1: &mut [u64],
    cls: &mut [u64],
    ent: &mut [u64],
    words: &mut [u64],
) -> Answer
    ensures outcome { result_of result (ws0.new ∷ ws1.new ∷ cls.new ∷ ent.new ∷ words.new ∷ [])
        ≡ judge_by strict book.now ws0.old ws1.old cls.old ent.old words.old }
{
    let good = match book::good_book(book) {
        Ok(good) => good,
        Err(refusal) => {
            stages::clear_all(ws0, ws1, cls, ent);
            lists::clear(words);
            return Err(refusal);
        }
    };
    loaded::room_answer(
        good,
        ws0.len(),
        ws1.len(),
        cls.len(),
        ent.len(),
        words.len(),
    )?;
    bodies::load(good, words);
    let a = loaded::check_loaded(strict, good, words, ws0, ws1, cls, ent);
    bodies::leave(good, words, a.is_ok());
    a
}

// The verdict on a whole input, with work lists that are long enough for every book of at most 65,536 bytes.
pub fn verdict(strict: bool, book: &[u8]) -> Answer
    ensures answer { result ≡ verdict_by strict book.now }
    ensures sound { is_accepted result ≡ true → SoundBy (truth strict) (held book.now) }
    ensures choices { is_accepted result ≡ true → SameChoicesBy (held book.now) (truth strict)
        (classes_left (held book.now)) }
{
    if 65536 < book.len() {
        return Err(Refusal::BookShape(13));
    }
    let mut ws0 = [0u64; 2048];
    let mut ws1 = [0u64; 2048];
    let mut cls = [0u64; 2048];
    let mut ent = [0u64; 2048];
    let mut words = [0u64; 8192];
    judge(
        strict, book, &mut ws0, &mut ws1, &mut cls, &mut ent, &mut words,
    )
}
