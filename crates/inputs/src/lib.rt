// The words given for a target's variables: 21, 22 and 23.
#![tactic(auto)]

ghost use Rattle.std.specs.Prelude.{◌≡◌, cond, not, false, ◌^◌, eqb, ltb, length, get_or};
ghost use Rattle.rows.specs.declared.Graph.{Graph};
ghost use Rattle.rows.specs.Row.{row_count};
ghost use Rattle.inputs.specs.Inputs.{wide_row, bad_word, given_answer};

use answers::{Answer, Refusal};
use rows::{Graph, tag};

// The first row wider than 64 bits, or the number of rows.
fn too_wide(ws: &[u64]) -> usize
    ensures row { result ≡ wide_row ws.now (length ws.now) }
{
    for (i, &w) in ws.iter().enumerate() {
        if 64 < w {
            return i;
        }
    }
    ws.len()
}

// The word given for a row is a variable's and does not fit.
fn word_bad(r: [u64; 5], x: u64) -> bool
    ensures test { result ≡ cond (eqb (get_or r 0 0) 0) (not (ltb x (2 ^ get_or r 1 0))) false }
{
    r[0] == tag::VAR && !arith::value_fits(r[1], x)
}

// The first variable whose word does not fit, or the number of rows.
fn bad_word(g: &[u64], given: &[u64]) -> usize
    requires { length given.now ≡ row_count Graph.Target g.now }
    ensures row { result ≡ bad_word g.now given.now }
{
    for (i, &x) in given.iter().enumerate() {
        if word_bad(rows::row(Graph::Target, g, i), x) {
            return i;
        }
    }
    given.len()
}

// 21, 22 and 23 of a target with its widths.
pub fn given_answer(g: &[u64], given: &[u64], ws: &[u64]) -> Answer
    requires { length ws.now ≡ row_count Graph.Target g.now }
    ensures answer { result ≡ given_answer g.now ws.now given.now }
{
    let n = ws.len();
    let wide = too_wide(ws);
    if wide < n {
        return Err(Refusal::TooWide(wide as u64, 0));
    }
    if given.len() != n {
        return Err(Refusal::ValueCount(n as u64, given.len() as u64));
    }
    let bad = bad_word(g, given);
    if bad < n {
        return Err(Refusal::ValueRange(bad as u64));
    }
    Ok(())
}
