// The operations over numbers and slices; gilfrunt_c exports them for C and Rust (include/gilfrunt.h). The four checks each build what is asked: a
// function for it would take the same lists again.
#![tactic(auto)]

ghost use Rattle.std.specs.Prelude.{◌≡◌, [], ◌∷◌};
ghost use Rattle.answers.specs.Answer.{words_of};
ghost use Rattle.answers.specs.Result.{told, told_of};
ghost use Rattle.sorts.specs.Sorts.{second_edition};
ghost use Rattle.widths.specs.Widths.{source_widths, source_widths_with_sorts, target_widths, roots_answer};
ghost use Rattle.values.specs.Values.{values};
ghost use Rattle.book.specs.Book.{section_answer, section_place};
ghost use Rattle.loaded.specs.Held.{held};
ghost use Rattle.judge.specs.Judge.{judge, strict_judge};
ghost use Rattle.lowering.specs.Lowering.{lowering, lowering_in};
ghost use Rattle.lowering.specs.Check.{check, strict_check};
ghost use Rattle.soundness.specs.Sound.{Sound, StrictlySound};
ghost use Rattle.soundness.specs.Choices.{SameChoices, SameStrictChoices};

use answers::Words;
use book::Stretch;
use lowering::{Asked, Source, Target};

pub fn gilfrunt_source_widths(
    source: &[u64],
    bits: &[u8],
    side: &[u64],
    widths: &mut [u64],
) -> Words
    ensures outcome { told result (widths.new ∷ [])
        ≡ told_of (source_widths source.now bits.now side.now
        widths.old) }
{
    told::source_widths(source, bits, side, None, widths)
}

// With a sort table, as the next functions that have `_with_sorts` (02, 2.9).
pub fn gilfrunt_source_widths_with_sorts(
    source: &[u64],
    bits: &[u8],
    side: &[u64],
    sorts: &[u64],
    widths: &mut [u64],
) -> Words
    ensures outcome { told result (widths.new ∷ [])
        ≡ told_of (source_widths_with_sorts source.now bits.now side.now sorts.now
        widths.old) }
{
    told::source_widths(source, bits, side, Some(sorts), widths)
}

pub fn gilfrunt_target_widths(target: &[u64], bits: &[u8], widths: &mut [u64]) -> Words
    ensures outcome { told result (widths.new ∷ []) ≡ told_of (target_widths target.now bits.now
        widths.old) }
{
    told::target_widths(target, bits, widths)
}

pub fn gilfrunt_roots(widths: &[u64], roots: &[u64]) -> Words
    ensures answer { result ≡ words_of (roots_answer widths.now roots.now) }
{
    told::roots(widths, roots)
}

pub fn gilfrunt_values(
    target: &[u64],
    bits: &[u8],
    given: &[u64],
    widths: &mut [u64],
    numbers: &mut [u64],
) -> Words
    ensures outcome { told result (widths.new ∷ numbers.new ∷ [])
        ≡ told_of (values target.now bits.now
        given.now widths.old numbers.old) }
{
    told::values(target, bits, given, widths, numbers)
}

pub fn gilfrunt_check<'a>(
    source: &'a [u64],
    ebits: &'a [u8],
    eside: &'a [u64],
    eroots: &'a [u64],
    map: &'a [u64],
    reads: &'a [u64],
    calls: &'a [u64],
    cargs: &'a [u64],
    target: &'a [u64],
    tbits: &'a [u8],
    troots: &'a [u64],
    ws0: &mut [u64],
    ws1: &mut [u64],
    classes: &mut [u64],
    entries: &mut [u64],
) -> Words
    ensures outcome { told result (ws0.new ∷ ws1.new ∷ classes.new ∷ entries.new ∷ [])
        ≡ told_of (check (lowering source.now ebits.now eside.now eroots.now map.now
        reads.now calls.now cargs.now target.now tbits.now troots.now)
        ws0.old ws1.old classes.old entries.old) }
    ensures sound { result.number ≡ 0 → Sound (lowering source.now ebits.now eside.now
        eroots.now map.now reads.now calls.now cargs.now target.now
        tbits.now troots.now) }
    ensures choices { result.number ≡ 0 → SameChoices (lowering source.now ebits.now eside.now
        eroots.now map.now reads.now calls.now cargs.now target.now
        tbits.now troots.now) classes.new }
{
    let asked = Asked {
        source: Source {
            rows: source,
            bits: ebits,
            side: eside,
        },
        eroots,
        map,
        reads,
        calls,
        cargs,
        target: Target {
            rows: target,
            bits: tbits,
        },
        troots,
        sorts: None,
    };
    reported::check(false, &asked, ws0, ws1, classes, entries)
}

pub fn gilfrunt_strict_check<'a>(
    source: &'a [u64],
    ebits: &'a [u8],
    eside: &'a [u64],
    eroots: &'a [u64],
    map: &'a [u64],
    reads: &'a [u64],
    calls: &'a [u64],
    cargs: &'a [u64],
    target: &'a [u64],
    tbits: &'a [u8],
    troots: &'a [u64],
    ws0: &mut [u64],
    ws1: &mut [u64],
    classes: &mut [u64],
    entries: &mut [u64],
) -> Words
    ensures outcome { told result (ws0.new ∷ ws1.new ∷ classes.new ∷ entries.new ∷ [])
        ≡ told_of (strict_check (lowering source.now ebits.now eside.now eroots.now map.now
        reads.now calls.now cargs.now target.now tbits.now troots.now)
        ws0.old ws1.old classes.old entries.old) }
    ensures sound { result.number ≡ 0 → StrictlySound (lowering source.now ebits.now eside.now
        eroots.now map.now reads.now calls.now cargs.now target.now
        tbits.now troots.now) }
    ensures choices { result.number ≡ 0 → SameStrictChoices (lowering source.now ebits.now eside.now
        eroots.now map.now reads.now calls.now cargs.now target.now
        tbits.now troots.now) classes.new }
{
    let asked = Asked {
        source: Source {
            rows: source,
            bits: ebits,
            side: eside,
        },
        eroots,
        map,
        reads,
        calls,
        cargs,
        target: Target {
            rows: target,
            bits: tbits,
        },
        troots,
        sorts: None,
    };
    reported::check(true, &asked, ws0, ws1, classes, entries)
}

pub fn gilfrunt_check_with_sorts<'a>(
    source: &'a [u64],
    ebits: &'a [u8],
    eside: &'a [u64],
    eroots: &'a [u64],
    map: &'a [u64],
    reads: &'a [u64],
    calls: &'a [u64],
    cargs: &'a [u64],
    target: &'a [u64],
    tbits: &'a [u8],
    troots: &'a [u64],
    sorts: &'a [u64],
    ws0: &mut [u64],
    ws1: &mut [u64],
    classes: &mut [u64],
    entries: &mut [u64],
) -> Words
    ensures outcome { told result (ws0.new ∷ ws1.new ∷ classes.new ∷ entries.new ∷ [])
        ≡ told_of (check (lowering_in (second_edition sorts.now) source.now
        ebits.now eside.now eroots.now map.now reads.now calls.now
        cargs.now target.now tbits.now troots.now)
        ws0.old ws1.old classes.old entries.old) }
    ensures sound { result.number ≡ 0 → Sound (lowering_in (second_edition sorts.now) source.now
        ebits.now eside.now eroots.now map.now reads.now calls.now
        cargs.now target.now tbits.now troots.now) }
    ensures choices { result.number ≡ 0 → SameChoices (lowering_in (second_edition sorts.now) source.now
        ebits.now eside.now eroots.now map.now reads.now calls.now
        cargs.now target.now tbits.now troots.now) classes.new }
{
    let asked = Asked {
        source: Source {
            rows: source,
            bits: ebits,
            side: eside,
        },
        eroots,
        map,
        reads,
        calls,
        cargs,
        target: Target {
            rows: target,
            bits: tbits,
        },
        troots,
        sorts: Some(sorts),
    };
    reported::check(false, &asked, ws0, ws1, classes, entries)
}

pub fn gilfrunt_strict_check_with_sorts<'a>(
    source: &'a [u64],
    ebits: &'a [u8],
    eside: &'a [u64],
    eroots: &'a [u64],
    map: &'a [u64],
    reads: &'a [u64],
    calls: &'a [u64],
    cargs: &'a [u64],
    target: &'a [u64],
    tbits: &'a [u8],
    troots: &'a [u64],
    sorts: &'a [u64],
    ws0: &mut [u64],
    ws1: &mut [u64],
    classes: &mut [u64],
    entries: &mut [u64],
) -> Words
    ensures outcome { told result (ws0.new ∷ ws1.new ∷ classes.new ∷ entries.new ∷ [])
        ≡ told_of (strict_check (lowering_in (second_edition sorts.now) source.now
        ebits.now eside.now eroots.now map.now reads.now calls.now
        cargs.now target.now tbits.now troots.now)
        ws0.old ws1.old classes.old entries.old) }
    ensures sound { result.number ≡ 0 → StrictlySound (lowering_in (second_edition sorts.now) source.now
        ebits.now eside.now eroots.now map.now reads.now calls.now
        cargs.now target.now tbits.now troots.now) }
    ensures choices { result.number ≡ 0 → SameStrictChoices (lowering_in (second_edition sorts.now) source.now
        ebits.now eside.now eroots.now map.now reads.now calls.now
        cargs.now target.now tbits.now troots.now) classes.new }
{
    let asked = Asked {
        source: Source {
            rows: source,
            bits: ebits,
            side: eside,
        },
        eroots,
        map,
        reads,
        calls,
        cargs,
        target: Target {
            rows: target,
            bits: tbits,
        },
        troots,
        sorts: Some(sorts),
    };
    reported::check(true, &asked, ws0, ws1, classes, entries)
}

pub fn gilfrunt_section_answer(book: &[u8], number: u64) -> Words
    ensures answer { result ≡ words_of (section_answer book.now number) }
{
    told::section_answer(book, number)
}

// A reference cannot be returned to C, so the section comes as its place; place-is in the crate book says that it is the same stretch.
pub fn gilfrunt_section(book: &[u8], number: u64) -> Stretch
    ensures place { result ≡ section_place book.now number }
{
    book::section_place(book, number)
}

pub fn gilfrunt_judge(
    book: &[u8],
    ws0: &mut [u64],
    ws1: &mut [u64],
    classes: &mut [u64],
    entries: &mut [u64],
    words: &mut [u64],
) -> Words
    ensures outcome { told result (ws0.new ∷ ws1.new ∷ classes.new ∷ entries.new
        ∷ words.new ∷ [])
        ≡ told_of (judge book.now ws0.old ws1.old classes.old entries.old
        words.old) }
    ensures sound { result.number ≡ 0 → Sound (held book.now) }
    ensures choices { result.number ≡ 0 → SameChoices (held book.now) classes.new }
{
    reported::judge(false, book, ws0, ws1, classes, entries, words)
}

pub fn gilfrunt_strict_judge(
    book: &[u8],
    ws0: &mut [u64],
    ws1: &mut [u64],
    classes: &mut [u64],
    entries: &mut [u64],
    words: &mut [u64],
) -> Words
    ensures outcome { told result (ws0.new ∷ ws1.new ∷ classes.new ∷ entries.new
        ∷ words.new ∷ [])
        ≡ told_of (strict_judge book.now ws0.old ws1.old classes.old entries.old
        words.old) }
    ensures sound { result.number ≡ 0 → StrictlySound (held book.now) }
    ensures choices { result.number ≡ 0 → SameStrictChoices (held book.now) classes.new }
{
    reported::judge(true, book, ws0, ws1, classes, entries, words)
}
