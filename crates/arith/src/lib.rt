// Sums, products and parts of bit vectors of width 1 to 64, as words.
#![tactic(auto)]

ghost use Rattle.std.specs.Prelude.{◌≡◌, ◌+◌, ◌-◌, ◌*◌, ◌^◌, ◌<◌, ◌≤◌, nat_lt};
ghost use Rattle.bv.specs.Bv.{bvneg, bvadd, bvsub, bvmul, concat, extract, zero-extend, sign-extend};

use bv::BitVec;

// ---- sums
// Sums, differences and products ask less of their words than a bit vector has, and so take words.
pub fn bv_add(w: u64, a: u64, b: u64) -> u64
    requires { w ≤ 64 }
    ensures value { result ≡ bvadd w a b }
{
    bv::low(w, a.wrapping_add(b))
}

pub fn bv_sub(w: u64, a: u64, b: u64) -> u64
    requires { (w ≤ 64) × (b < 2 ^ w) }
    ensures value { result ≡ bvsub w a b }
{
    bv::low(w, a.wrapping_sub(b))
}

pub fn bv_neg(w: u64, a: u64) -> u64
    requires { (w ≤ 64) × (a < 2 ^ w) }
    ensures value { result ≡ bvneg w a }
{
    bv::low(w, a.wrapping_neg())
}

// ---- products
pub fn bv_mul(w: u64, a: u64, b: u64) -> u64
    requires { w ≤ 64 }
    ensures value { result ≡ bvmul w a b }
{
    bv::low(w, a.wrapping_mul(b))
}

// ---- bounds
// Whether a word is a number of width w: its highest one bit stands below the width.
pub fn value_fits(w: u64, x: u64) -> bool
    ensures value { result ≡ nat_lt x (2 ^ w) }
{
    64 - u64::from(x.leading_zeros()) <= w
}

// ---- parts
// Of any word: no bound on it is asked for.
pub fn bv_extract(i: u64, j: u64, a: u64) -> u64
    requires { (j ≤ i) × (i < 64) }
    ensures value { result ≡ extract i j a }
{
    bv::low(i - j + 1, a >> j)
}

// The first operand high; the second has width v (`concat-word` bounds the whole by the widths). Of words that fit together: no more is asked.
pub fn bv_concat(v: u64, a: u64, b: u64) -> u64
    requires { (v < 64) × (a * 2 ^ v + b < 2 ^ 64) }
    ensures value { result ≡ concat v a b }
{
    (a << v) + b
}

// The number stays as it is, whatever is added.
pub fn bv_zero_extend(a: BitVec) -> u64
    ensures value { result ≡ zero-extend a.width a.number }
{
    a.number
}

// Copies of the sign are the ones of width w + n above those of width w; w + n may be 64 and n may be 0.
pub fn bv_sign_extend(n: u64, a: BitVec) -> BitVec
    requires { a.width + n ≤ 64 }
    ensures value { result.number ≡ sign-extend a.width n a.number }
    ensures width { result.width ≡ a.width + n }
{
    let width = a.width + n;
    if a.is_negative() {
        return BitVec {
            width,
            number: bv::ones(width) - bv::ones(a.width) + a.number,
        };
    }
    BitVec {
        width,
        number: a.number,
    }
}
