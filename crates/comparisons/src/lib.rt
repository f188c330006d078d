// Comparisons of bit vectors of width 1 to 64, in words, each a bit; the choice by one.
#![tactic(auto)]

ghost use Rattle.std.specs.Prelude.{◌≡◌};
ghost use Rattle.bv.specs.Bv.{by_signs, bvult, bvule, bvugt, bvuge, bvslt, bvsle, bvsgt, bvsge, equal, distinct, ite};

use bv::BitVec;

pub fn bv_equal(a: BitVec, b: BitVec) -> BitVec
    ensures value { result.number ≡ equal a.number b.number }
    ensures width { result.width ≡ 1 }
{
    BitVec::of_bool(a.number == b.number)
}

pub fn bv_distinct(a: BitVec, b: BitVec) -> BitVec
    ensures value { result.number ≡ distinct a.number b.number }
    ensures width { result.width ≡ 1 }
{
    BitVec::of_bool(a.number != b.number)
}

pub fn bv_ult(a: BitVec, b: BitVec) -> BitVec
    ensures value { result.number ≡ bvult a.number b.number }
    ensures width { result.width ≡ 1 }
{
    BitVec::of_bool(a.number < b.number)
}

pub fn bv_ule(a: BitVec, b: BitVec) -> BitVec
    ensures value { result.number ≡ bvule a.number b.number }
    ensures width { result.width ≡ 1 }
{
    BitVec::of_bool(a.number <= b.number)
}

pub fn bv_ugt(a: BitVec, b: BitVec) -> BitVec
    ensures value { result.number ≡ bvugt a.number b.number }
    ensures width { result.width ≡ 1 }
{
    bv_ult(b, a)
}

pub fn bv_uge(a: BitVec, b: BitVec) -> BitVec
    ensures value { result.number ≡ bvuge a.number b.number }
    ensures width { result.width ≡ 1 }
{
    bv_ule(b, a)
}

// The answer of a signed comparison: the unsigned one where the signs agree, else that the first is negative.
fn by_signs(a: BitVec, b: BitVec, same: BitVec) -> BitVec
    requires { (a.width ≡ b.width) × (same.width ≡ 1) }
    ensures value { result.number ≡ by_signs a.width a.number b.number same.number 1 0 same.number }
    ensures width { result.width ≡ 1 }
{
    let first = a.is_negative();
    if first == b.is_negative() {
        same
    } else {
        BitVec::of_bool(first)
    }
}

pub fn bv_slt(a: BitVec, b: BitVec) -> BitVec
    requires { a.width ≡ b.width }
    ensures value { result.number ≡ bvslt a.width a.number b.number }
    ensures width { result.width ≡ 1 }
{
    by_signs(a, b, bv_ult(a, b))
}

pub fn bv_sle(a: BitVec, b: BitVec) -> BitVec
    requires { a.width ≡ b.width }
    ensures value { result.number ≡ bvsle a.width a.number b.number }
    ensures width { result.width ≡ 1 }
{
    by_signs(a, b, bv_ule(a, b))
}

pub fn bv_sgt(a: BitVec, b: BitVec) -> BitVec
    requires { a.width ≡ b.width }
    ensures value { result.number ≡ bvsgt a.width a.number b.number }
    ensures width { result.width ≡ 1 }
{
    bv_slt(b, a)
}

pub fn bv_sge(a: BitVec, b: BitVec) -> BitVec
    requires { a.width ≡ b.width }
    ensures value { result.number ≡ bvsge a.width a.number b.number }
    ensures width { result.width ≡ 1 }
{
    bv_sle(b, a)
}

// Of any words: the choice asks for no bound on them.
pub fn bv_ite(c: u64, a: u64, b: u64) -> u64
    ensures value { result ≡ ite c a b }
{
    if c == 1 { a } else { b }
}
