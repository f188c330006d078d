// The bitwise, shift and rotate operators on bit vectors of width 1 to 64.
#![tactic(auto)]

ghost use Rattle.std.specs.Prelude.{◌≡◌};
ghost use Rattle.bv.specs.Bv.{bvnot, bvand, bvor, bvxor, bvshl, bvlshr, bvashr, bvrotr, bvrotl};

use bv::BitVec;

pub fn bv_not(a: BitVec) -> BitVec
    ensures value { result.number ≡ bvnot a.width a.number }
    ensures width { result.width ≡ a.width }
{
    BitVec {
        width: a.width,
        number: bv::ones(a.width) - a.number,
    }
}

pub fn bv_and(a: BitVec, b: BitVec) -> BitVec
    requires { a.width ≡ b.width }
    ensures value { result.number ≡ bvand a.width a.number b.number }
    ensures width { result.width ≡ a.width }
{
    BitVec {
        width: a.width,
        number: a.number & b.number,
    }
}

pub fn bv_or(a: BitVec, b: BitVec) -> BitVec
    requires { a.width ≡ b.width }
    ensures value { result.number ≡ bvor a.width a.number b.number }
    ensures width { result.width ≡ a.width }
{
    BitVec {
        width: a.width,
        number: a.number | b.number,
    }
}

pub fn bv_xor(a: BitVec, b: BitVec) -> BitVec
    requires { a.width ≡ b.width }
    ensures value { result.number ≡ bvxor a.width a.number b.number }
    ensures width { result.width ≡ a.width }
{
    BitVec {
        width: a.width,
        number: a.number ^ b.number,
    }
}

// By the width or more: 0.
pub fn bv_shl(a: BitVec, b: BitVec) -> BitVec
    requires { a.width ≡ b.width }
    ensures value { result.number ≡ bvshl a.width a.number b.number }
    ensures width { result.width ≡ a.width }
{
    if b.number < a.width {
        return BitVec::nat2bv(a.width, a.number << b.number);
    }
    BitVec {
        width: a.width,
        number: 0,
    }
}

pub fn bv_lshr(a: BitVec, b: BitVec) -> BitVec
    requires { a.width ≡ b.width }
    ensures value { result.number ≡ bvlshr a.width a.number b.number }
    ensures width { result.width ≡ a.width }
{
    let number = if b.number < a.width {
        a.number >> b.number
    } else {
        0
    };
    BitVec {
        width: a.width,
        number,
    }
}

// Ones are shifted into a negative number: its complement is shifted.
pub fn bv_ashr(a: BitVec, b: BitVec) -> BitVec
    requires { a.width ≡ b.width }
    ensures value { result.number ≡ bvashr a.width a.number b.number }
    ensures width { result.width ≡ a.width }
{
    if a.is_negative() {
        return bv_not(bv_lshr(bv_not(a), b));
    }
    bv_lshr(a, b)
}

// By the amount modulo the width: the low bits go to the top.
pub fn bv_rotr(a: BitVec, b: BitVec) -> BitVec
    requires { a.width ≡ b.width }
    ensures value { result.number ≡ bvrotr a.width a.number b.number }
    ensures width { result.width ≡ a.width }
{
    let k = b.number % a.width;
    if k == 0 {
        return a;
    }
    let j = a.width - k;
    BitVec {
        width: a.width,
        number: (bv::low(k, a.number) << j) | (a.number >> k),
    }
}

// By the amount modulo the width: the high bits go to the bottom.
pub fn bv_rotl(a: BitVec, b: BitVec) -> BitVec
    requires { a.width ≡ b.width }
    ensures value { result.number ≡ bvrotl a.width a.number b.number }
    ensures width { result.width ≡ a.width }
{
    let k = b.number % a.width;
    if k == 0 {
        return a;
    }
    let j = a.width - k;
    BitVec {
        width: a.width,
        number: (bv::low(j, a.number) << k) | (a.number >> j),
    }
}
