// The verdict on a book, strict or not, as the line that the program prints.
#![tactic(auto)]

ghost use Rattle.std.specs.Prelude.{◌≤◌, ◌≡◌, ◌++◌, length, take};
ghost use Rattle.answers.specs.Answer.{words_of};
ghost use Rattle.loaded.specs.Held.{held};
ghost use Rattle.judge.specs.Judge.{verdict_by};
ghost use Rattle.line.specs.Line.{accepted, newline, line_of};
ghost use Rattle.meaning.specs.Meaning.{truth};
ghost use Rattle.soundness.specs.Sound.{SoundBy};
ghost use Rattle.soundness.specs.Choices.{classes_left, SameChoicesBy};

use answers::Words;

// Puts the line of the verdict at the start of out and answers its length.
pub fn verdict_line(strict: bool, book: &[u8], out: &mut [u8; 71]) -> usize
    ensures fits { result ≤ length out.new }
    ensures line { take result out.new ≡ line_of (words_of (verdict_by strict book.now)) }
    ensures sound { take result out.new ≡ accepted ++ newline → SoundBy (truth strict) (held book.now) }
    ensures choices { take result out.new ≡ accepted ++ newline
        → SameChoicesBy (held book.now) (truth strict) (classes_left (held book.now)) }
{
    let answer = judge::verdict(strict, book);
    line::write_line(Words::from(answer), out)
}
