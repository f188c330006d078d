// The width rules: a table with a line for each tag, and what its rules and sources are, by the number of a row's operands.
#![tactic(auto)]

ghost use Rattle.std.specs.Prelude.{◌≡◌, cond, ℕ, ◌+◌, ◌-◌, leb};
ghost use Rattle.rules.specs.Rule.{same};
ghost use Rattle.rules.specs.Table.{from1, from_part, from_cell, from2, from3};
ghost use Rattle.rules.specs.Table.{join1, join_part, join_index, join2, join3, in_part, in_word};

pub mod lines;

use lines::{Join, WidthFrom};

// The sum of two widths, or 0 where it is no word.
fn sum_width(a: u64, b: u64) -> u64
    ensures width { result ≡ in_word (a + b) }
{
    a.checked_add(b).unwrap_or(0)
}

// The number of bits from low up to high.
fn part_width(high: u64, low: u64) -> u64
    ensures width { result ≡ in_word (high - low + 1) }
{
    sum_width(high.saturating_sub(low), 1)
}

// The bits of a constant lie in the bit list.
pub fn bits_in(nbits: u64, s: u64, w: u64) -> bool
    ensures test { result ≡ leb (s + w) nbits }
{
    s <= nbits && w <= nbits - s
}

// The bits from low up to high lie in a row of width a.
fn part_in(high: u64, low: u64, a: u64) -> bool
    ensures test { (w : ℕ) → in_part high low a w ≡ cond result w 0 }
{
    low <= high && high < a
}

// A first width of one bit, and two others that are one.
fn choice_in(a: u64, b: u64, c: u64) -> bool
    ensures test { (w : ℕ) → same a 1 (same b c w) ≡ cond result w 0 }
{
    a == 1 && b == c
}

// One operand in field 1, of width a: whether the rule lets a width pass, the source's width, both together.
fn joins1(rule: Join, a: u64) -> bool
    ensures test { (w : ℕ) → join1 rule a w ≡ cond result w 0 }
{
    rule == Join::Any || rule == Join::OneBit && a == 1
}

// Without a branch between the two: which of them it is, is hard to foresee.
fn width_from1(from: WidthFrom, a: u64) -> u64
    ensures width { result ≡ in_word (from1 from a) }
{
    if from != WidthFrom::One && from != WidthFrom::First {
        return 0;
    }
    if from == WidthFrom::One { 1 } else { a }
}

pub fn width1(rule: Join, from: WidthFrom, a: u64) -> u64
    ensures width { result ≡ in_word (join1 rule a (from1 from a)) }
{
    if joins1(rule, a) {
        width_from1(from, a)
    } else {
        0
    }
}

// The same with the width and field 2.
pub fn width_extended(rule: Join, f2: u64, a: u64) -> u64
    ensures width { result ≡ in_word (join1 rule a (a + f2)) }
{
    if joins1(rule, a) { sum_width(a, f2) } else { 0 }
}

// With one operand in field 3, of which a part is taken.
fn joins_part(rule: Join, high: u64, low: u64, a: u64) -> bool
    ensures test { (w : ℕ) → join_part rule high low a w ≡ cond result w 0 }
{
    rule == Join::Part && part_in(high, low, a)
}

pub fn width_part(rule: Join, from: WidthFrom, high: u64, low: u64, a: u64) -> u64
    ensures width { result ≡ in_word (join_part rule high low a (from_part from high low)) }
{
    if joins_part(rule, high, low, a) && from == WidthFrom::Part {
        part_width(high, low)
    } else {
        0
    }
}

// With one operand in field 2, the index of an array whose index has iw bits and whose cells have cw. Its rule is Join::Chain, which the caller has
// looked at.
pub fn width_index(from: WidthFrom, iw: u64, cw: u64, a: u64) -> u64
    ensures width { result ≡ in_word (join_index iw a (from_cell from cw)) }
{
    if a == iw && from == WidthFrom::Cell {
        cw
    } else {
        0
    }
}

// The same with two operands of one width a, then of widths a and b.
fn joins_same(rule: Join, a: u64) -> bool
    ensures test { (w : ℕ) → join2 rule a a w ≡ cond result w 0 }
{
    rule == Join::Any || rule == Join::Equal || rule == Join::OneBit && a == 1
}

// Most rows of two operands have them of one width: that is looked at first.
fn joins2(rule: Join, a: u64, b: u64) -> bool
    ensures test { (w : ℕ) → join2 rule a b w ≡ cond result w 0 }
{
    if a == b {
        joins_same(rule, a)
    } else {
        rule == Join::Any
    }
}

fn width_from2(from: WidthFrom, a: u64, b: u64) -> u64
    ensures width { result ≡ in_word (from2 from a b) }
{
    if from == WidthFrom::Sum {
        sum_width(a, b)
    } else {
        width_from1(from, a)
    }
}

pub fn width2(rule: Join, from: WidthFrom, a: u64, b: u64) -> u64
    ensures width { result ≡ in_word (join2 rule a b (from2 from a b)) }
{
    if joins2(rule, a, b) {
        width_from2(from, a, b)
    } else {
        0
    }
}

// The same with three operands, of widths a, b and c.
fn joins3(rule: Join, a: u64, b: u64, c: u64) -> bool
    ensures test { (w : ℕ) → join3 rule a b c w ≡ cond result w 0 }
{
    rule == Join::Choice && choice_in(a, b, c)
}

fn width_from3(from: WidthFrom, b: u64) -> u64
    ensures width { result ≡ in_word (from3 from b) }
{
    if from == WidthFrom::Second { b } else { 0 }
}

pub fn width3(rule: Join, from: WidthFrom, a: u64, b: u64, c: u64) -> u64
    ensures width { result ≡ in_word (join3 rule a b c (from3 from b)) }
{
    if joins3(rule, a, b, c) {
        width_from3(from, b)
    } else {
        0
    }
}
