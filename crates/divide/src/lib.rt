// Division and remainder of bit vectors, unsigned and signed.
#![tactic(auto)]

ghost use Rattle.std.specs.Prelude.{◌≡◌, ◌<◌, ◌≤◌, ◌^◌};
ghost use Rattle.bv.specs.Bv.{bvudiv, bvurem, bvsdiv, bvsrem};
ghost use Rattle.divide.specs.TwosComplement.{to_int, of_int, overflow};

use bv::BitVec;

// By 0: all ones. By hand: with `checked_div` a row of it takes ten instructions more, and other rows of two operands three.
pub fn bv_udiv(a: BitVec, b: BitVec) -> BitVec
    requires { a.width ≡ b.width }
    ensures value { result.number ≡ bvudiv a.width a.number b.number }
    ensures width { result.width ≡ a.width }
{
    let number = if b.number == 0 {
        bv::ones(a.width)
    } else {
        a.number / b.number
    };
    BitVec {
        width: a.width,
        number,
    }
}

// By 0: the dividend.
pub fn bv_urem(a: BitVec, b: BitVec) -> BitVec
    requires { a.width ≡ b.width }
    ensures value { result.number ≡ bvurem a.width a.number b.number }
    ensures width { result.width ≡ a.width }
{
    let number = a.number.checked_rem(b.number).unwrap_or(a.number);
    BitVec {
        width: a.width,
        number,
    }
}

// The signed number that a bit vector stands for.
pub fn signed(a: BitVec) -> i64
    ensures reads { result ≡ to_int a.width a.number }
{
    if a.is_negative() {
        -1 - ((bv::ones(a.width) - a.number) as i64)
    } else {
        a.number as i64
    }
}

// A signed number modulo 2 ^ w.
pub fn back(w: u64, z: i64) -> u64
    requires { w ≤ 64 }
    ensures word { result ≡ of_int w z }
    ensures fits { result < 2 ^ w }
{
    if z < 0 {
        return bv::ones(w) - bv::low(w, (-1 - z) as u64);
    }
    bv::low(w, z as u64)
}

// The least i64 by minus one, whose quotient is no i64.
pub fn overflows(w: u64, a: u64, b: u64) -> bool
    ensures test { result ≡ overflow w a b }
{
    w == 64 && a == 0x8000_0000_0000_0000 && b == 0xffff_ffff_ffff_ffff
}

// Towards 0. By 0: 1 for a negative dividend, else all ones.
pub fn bv_sdiv(a: BitVec, b: BitVec) -> BitVec
    requires { a.width ≡ b.width }
    ensures value { result.number ≡ bvsdiv a.width a.number b.number }
    ensures width { result.width ≡ a.width }
{
    if b.number == 0 {
        if a.is_negative() {
            return BitVec {
                width: a.width,
                number: 1,
            };
        }
        return BitVec {
            width: a.width,
            number: bv::ones(a.width),
        };
    }
    if overflows(a.width, a.number, b.number) {
        return a; // 2 ^ 63 again
    }
    BitVec {
        width: a.width,
        number: back(a.width, signed(a) / signed(b)),
    }
}

// The dividend's sign. By 0: the dividend.
pub fn bv_srem(a: BitVec, b: BitVec) -> BitVec
    requires { a.width ≡ b.width }
    ensures value { result.number ≡ bvsrem a.width a.number b.number }
    ensures width { result.width ≡ a.width }
{
    if b.number == 0 {
        return a;
    }
    if overflows(a.width, a.number, b.number) {
        return BitVec {
            width: a.width,
            number: 0,
        };
    }
    BitVec {
        width: a.width,
        number: back(a.width, signed(a) % signed(b)),
    }
}
