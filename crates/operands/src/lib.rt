// A row by its line of the table: each operand is an earlier row, their widths join by the line's rule, and its side list is good.
// The fields that it does not use are 0, which is looked at here because its operands tell which they are.
#![tactic(auto)]

ghost use Rattle.std.specs.Prelude.{◌≡◌, get_or};
ghost use Rattle.sorts.specs.Every.{every};
ghost use Rattle.rules.specs.Table.{row_any, row_in_bits, row_arguments, row0, row_one, row_extended, row1, row_part, row2, row3, row_chain};
ghost use Rattle.rules.specs.Table.{listed_width, core_width, line_width};

use rules::lines::{Join, Line, Operands, WidthFrom};
use sorts::Sort;

// No operand: field 1 alone is in use, and nothing is asked.
fn any_row(from: WidthFrom, r: [u64; 5]) -> u64
    ensures width { result ≡ row_any from (get_or r 1 0) (get_or r 2 0) (get_or r 3 0) (get_or r 4 0) }
{
    if from == WidthFrom::Field1 && encoding::fields_good(1, r[2], r[3], r[4]) {
        r[1]
    } else {
        0
    }
}

// Field 2 bits from field 1 on, in the bit list.
fn bits_row(from: WidthFrom, nbits: u64, r: [u64; 5]) -> u64
    ensures width { result ≡ row_in_bits from nbits (get_or r 1 0) (get_or r 2 0) (get_or r 3 0) (get_or r 4 0) }
{
    if !encoding::fields_good(2, r[2], r[3], r[4]) {
        return 0;
    }
    if rules::bits_in(nbits, r[1], r[2]) && from == WidthFrom::Field2 {
        r[2]
    } else {
        0
    }
}

// Arguments in the side list; all fields are in use.
fn arguments_row(from: WidthFrom, ws: &[u64], side: &[u64], r: [u64; 5]) -> u64
    ensures width { result ≡ row_arguments from side.now ws.now (get_or r 2 0) (get_or r 3 0) (get_or r 4 0) }
{
    if sides::args_wf(ws, side, r[3], r[4]) && from == WidthFrom::Field2 {
        r[2]
    } else {
        0
    }
}

// No operand, by the rule.
fn no_row(line: Line, r: [u64; 5], nbits: u64, ws: &[u64], side: &[u64]) -> u64
    ensures width { result ≡ row0 line.join line.source nbits side.now ws.now
        (get_or r 1 0) (get_or r 2 0) (get_or r 3 0) (get_or r 4 0) }
{
    if line.join == Join::Any {
        any_row(line.source, r)
    } else if line.join == Join::InBits {
        bits_row(line.source, nbits, r)
    } else if line.join == Join::Arguments {
        arguments_row(line.source, ws, side, r)
    } else {
        0
    }
}

// One operand, in row x: its width or one bit, then its width and field 2; which of them, by the source.
fn single_row(line: Line, ws: &[u64], x: u64, f2: u64, f3: u64, f4: u64) -> u64
    ensures width { result ≡ row_one line.join line.source ws.now x f2 f3 f4 }
{
    if !encoding::fields_good(1, f2, f3, f4) {
        return 0;
    }
    let Some(a) = ws.get(x as usize) else {
        return 0;
    };
    rules::width1(line.join, line.source, *a)
}

fn extended_row(rule: Join, ws: &[u64], x: u64, f2: u64, f3: u64, f4: u64) -> u64
    ensures width { result ≡ row_extended rule ws.now x f2 f3 f4 }
{
    if !encoding::fields_good(2, f2, f3, f4) {
        return 0;
    }
    let Some(a) = ws.get(x as usize) else {
        return 0;
    };
    rules::width_extended(rule, f2, *a)
}

fn one_row(line: Line, ws: &[u64], x: u64, f2: u64, f3: u64, f4: u64) -> u64
    ensures width { result ≡ row1 line.join line.source ws.now x f2 f3 f4 }
{
    if line.source == WidthFrom::Extended {
        extended_row(line.join, ws, x, f2, f3, f4)
    } else {
        single_row(line, ws, x, f2, f3, f4)
    }
}

// A part of row x.
fn part_row(line: Line, ws: &[u64], high: u64, low: u64, x: u64, f4: u64) -> u64
    ensures width { result ≡ row_part line.join line.source ws.now high low x f4 }
{
    if !encoding::fields_good(3, low, x, f4) {
        return 0;
    }
    let Some(a) = ws.get(x as usize) else {
        return 0;
    };
    rules::width_part(line.join, line.source, high, low, *a)
}

// Two operands, in rows x and y.
fn two_rows(line: Line, ws: &[u64], x: u64, y: u64, f3: u64, f4: u64) -> u64
    ensures width { result ≡ row2 line.join line.source ws.now x y f3 f4 }
{
    if !encoding::fields_good(2, y, f3, f4) {
        return 0;
    }
    let (Some(a), Some(b)) = (ws.get(x as usize), ws.get(y as usize)) else {
        return 0;
    };
    rules::width2(line.join, line.source, *a, *b)
}

// Three operands, in rows x, y and z.
fn three_rows(line: Line, ws: &[u64], x: u64, y: u64, z: u64, f4: u64) -> u64
    ensures width { result ≡ row3 line.join line.source ws.now x y z f4 }
{
    if !encoding::fields_good(3, y, z, f4) {
        return 0;
    }
    let (Some(a), Some(b), Some(c)) = (ws.get(x as usize), ws.get(y as usize), ws.get(z as usize))
    else {
        return 0;
    };
    rules::width3(line.join, line.source, *a, *b, *c)
}

// An index in row x, and k pairs from s on in the side list, both of this sort; all fields are in use.
fn chain_row(line: Line, sort: Sort, ws: &[u64], side: &[u64], x: u64, s: u64, k: u64) -> u64
    ensures width { result ≡ row_chain line.join line.source sort.index sort.cell side.now ws.now x s k }
{
    if line.join != Join::Chain {
        return 0;
    }
    let Some(a) = ws.get(x as usize) else {
        return 0;
    };
    if !sides::chain_wf(ws, side, s, k, sort.index, sort.cell) {
        return 0;
    }
    rules::width_index(line.source, sort.index, sort.cell, *a)
}

// Rows that can have a side list; a read's array has this sort.
fn listed_width(line: Line, r: [u64; 5], nbits: u64, side: &[u64], sort: Sort, ws: &[u64]) -> u64
    ensures width { result ≡ listed_width (every sort.index sort.cell) nbits side.now ws.now line.operands line.join line.source
        (get_or r 1 0) (get_or r 2 0) (get_or r 3 0) (get_or r 4 0) }
{
    if line.operands == Operands::Empty {
        no_row(line, r, nbits, ws, side)
    } else {
        chain_row(line, sort, ws, side, r[2], r[3], r[4])
    }
}

// The others; two operands, which most have, are looked at first.
fn core_width(line: Line, r: [u64; 5], ws: &[u64]) -> u64
    ensures width { result ≡ core_width ws.now line.operands line.join line.source
        (get_or r 1 0) (get_or r 2 0) (get_or r 3 0) (get_or r 4 0) }
{
    if line.operands == Operands::Two {
        two_rows(line, ws, r[1], r[2], r[3], r[4])
    } else if line.operands == Operands::Field1 {
        one_row(line, ws, r[1], r[2], r[3], r[4])
    } else if line.operands == Operands::Field3 {
        part_row(line, ws, r[1], r[2], r[3], r[4])
    } else {
        three_rows(line, ws, r[1], r[2], r[3], r[4])
    }
}

// The width that a line gives a row after rows of widths ws, or 0 where it is ill-formed or a field that it does not use is not 0. The array of
// a read has this sort.
pub fn line_width(line: Line, r: [u64; 5], nbits: u64, side: &[u64], sort: Sort, ws: &[u64]) -> u64
    ensures width { result ≡ line_width (every sort.index sort.cell) nbits side.now ws.now line
        (get_or r 1 0) (get_or r 2 0) (get_or r 3 0) (get_or r 4 0) }
{
    match line.operands {
        Operands::Empty | Operands::Field2 => listed_width(line, r, nbits, side, sort, ws),
        _ => core_width(line, r, ws),
    }
}
