// The operations on one graph and a book's sections, their answers told in three words.
#![tactic(auto)]

ghost use Rattle.std.specs.Prelude.{◌≡◌, [], ◌∷◌};
ghost use Rattle.answers.specs.Answer.{words_of};
ghost use Rattle.answers.specs.Result.{told, told_of};
ghost use Rattle.sorts.specs.Sorts.{edition_given};
ghost use Rattle.rows.specs.declared.Graph.{Graph};
ghost use Rattle.widths.specs.Widths.{graph_widths, target_widths, roots_answer};
ghost use Rattle.values.specs.Values.{values};
ghost use Rattle.book.specs.Book.{section_answer};

use answers::Words;

// Of a source whose arrays have the sorts of an edition, a second one's from its table.
pub fn source_widths(
    source: &[u64],
    bits: &[u8],
    side: &[u64],
    sorts: Option<&[u64]>,
    widths: &mut [u64],
) -> Words
    ensures outcome { told result (widths.new ∷ [])
        ≡ told_of (graph_widths (edition_given sorts.entry) Graph.Source source.now bits.now
        side.now widths.old) }
{
    Words::from(widths::source_widths(source, bits, side, sorts, widths))
}

pub fn target_widths(target: &[u64], bits: &[u8], widths: &mut [u64]) -> Words
    ensures outcome { told result (widths.new ∷ []) ≡ told_of (target_widths target.now bits.now
        widths.old) }
{
    Words::from(widths::target_widths(target, bits, widths))
}

pub fn roots(widths: &[u64], roots: &[u64]) -> Words
    ensures answer { result ≡ words_of (roots_answer widths.now roots.now) }
{
    Words::from(widths::roots(widths, roots))
}

pub fn values(
    target: &[u64],
    bits: &[u8],
    given: &[u64],
    widths: &mut [u64],
    numbers: &mut [u64],
) -> Words
    ensures outcome { told result (widths.new ∷ numbers.new ∷ [])
        ≡ told_of (values target.now bits.now
        given.now widths.old numbers.old) }
{
    Words::from(values::values(target, bits, given, widths, numbers))
}

pub fn section_answer(book: &[u8], number: u64) -> Words
    ensures answer { result ≡ words_of (section_answer book.now number) }
{
    Words::from(book::section_answer(book, number))
}
