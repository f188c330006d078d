// Check, or the strict check, on the lists that a book of good shape holds, once its words stand in a list.
#![tactic(auto)]

ghost use Rattle.std.specs.Prelude.{◌≡◌, [], ◌∷◌, ◌++◌, ltb, length, drop};
ghost use Rattle.sorts.specs.Sorts.{edition_given};
ghost use Rattle.lowering.specs.Asked.{lowering_of};
ghost use Rattle.contents.specs.Contents.{is_second, sections};
ghost use Rattle.bodies.specs.Words.{loaded};
ghost use Rattle.answers.specs.Answer.{and_then};
ghost use Rattle.answers.specs.Result.{result_of};
ghost use Rattle.answers.specs.Answer.{WorkShort};
ghost use Rattle.lowering.specs.Check.{check_by, refuse, first_refusal, count_answers};
ghost use Rattle.loaded.specs.Held.{edition_of, held, book_words};

use answers::{Answer, Refusal};
use book::GoodBook;
use lowering::{Asked, Source, Target};

// 15 and 18, with room for some words in each of the five lists.
pub fn room_answer(
    book: GoodBook<'_>,
    w0: usize,
    w1: usize,
    c: usize,
    e: usize,
    room: usize,
) -> Answer
    ensures answer { let b = book.entry.bytes.now in
        result ≡ and_then (first_refusal (count_answers (held b).source (held b).target w0 w1 c e))
        (refuse (ltb room (length (book_words b))) (WorkShort 5)) }
{
    let a = forms::count_answer(
        bodies::word_count(book, 0),
        bodies::word_count(book, 8),
        w0,
        w1,
        c,
        e,
    );
    a?;
    let n = book::sections(book.bytes);
    if room < bodies::offset(book, n) {
        return Err(Refusal::WorkShort(5));
    }
    Ok(())
}

// The table that gives arrays their sorts: section 12 of a second edition, none of a first.
fn sorts_at<'a>(book: GoodBook<'_>, words: &'a [u64]) -> Option<&'a [u64]>
    requires words_value { words.now ≡ loaded book.bytes.now (sections book.bytes.now)
        ++ drop (length (loaded book.bytes.now (sections book.bytes.now))) words.now }
    ensures table { edition_given result ≡ edition_of book.entry.bytes.now }
{
    if !book::is_second(book.bytes) {
        return None;
    }
    Some(bodies::list_at(book, words, 11))
}

// What Check is asked by a book whose words stand in a list.
pub fn asked_by<'a>(book: GoodBook<'a>, words: &'a [u64]) -> Asked<'a>
    requires words_value { words.now ≡ loaded book.bytes.now (sections book.bytes.now)
        ++ drop (length (loaded book.bytes.now (sections book.bytes.now))) words.now }
    ensures lists { lowering_of result ≡ held book.entry.bytes.now }
{
    Asked {
        source: Source {
            rows: bodies::list_at(book, words, 0),
            bits: book::body(book, 1),
            side: bodies::list_at(book, words, 2),
        },
        eroots: bodies::list_at(book, words, 3),
        map: bodies::list_at(book, words, 4),
        reads: bodies::list_at(book, words, 5),
        calls: bodies::list_at(book, words, 6),
        cargs: bodies::list_at(book, words, 7),
        target: Target {
            rows: bodies::list_at(book, words, 8),
            bits: book::body(book, 9),
        },
        troots: bodies::list_at(book, words, 10),
        sorts: sorts_at(book, words),
    }
}

// Either check on the lists of a book whose words stand in a list.
pub fn check_loaded<'a>(
    strict: bool,
    book: GoodBook<'a>,
    words: &'a [u64],
    ws0: &mut [u64],
    ws1: &mut [u64],
    cls: &mut [u64],
    ent: &mut [u64],
) -> Answer
    requires words_value { words.now ≡ loaded book.bytes.now (sections book.bytes.now)
        ++ drop (length (loaded book.bytes.now (sections book.bytes.now))) words.now }
    ensures outcome { result_of result (ws0.new ∷ ws1.new ∷ cls.new ∷ ent.new ∷ [])
        ≡ check_by strict (held book.entry.bytes.now) ws0.old ws1.old cls.old ent.old }
{
    checker::check(strict, &asked_by(book, words), ws0, ws1, cls, ent)
}
