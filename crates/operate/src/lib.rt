// The number of an operator on bit vectors: from a tag to its function.
#![tactic(auto)]

ghost use Rattle.std.specs.Prelude.{◌≡◌, true, [], ◌∷◌, ℕ, ◌<◌, ◌≤◌, ◌+◌, length, get_or};
ghost use Rattle.rows.specs.Tags.{is_un, is_extend, t_concat};
ghost use Rattle.rows.specs.Decoded.{BinTag};
ghost use Rattle.value.specs.Val.{val};
ghost use Rattle.value.specs.Operate.{op_number, const_number};
ghost use Rattle.operate.specs.Ready.{BinReady};

use bv::BitVec;
use rows::tag;

// ---- one operand
// Not 29, BvNot 32, Neg 33.
pub fn un_value(t: u64, a: BitVec) -> u64
    requires { is_un t ≡ true }
    ensures value { result ≡ op_number t [] (val a.width a.number ∷ []) }
{
    match t {
        tag::NOT | tag::BV_NOT => bitwise::bv_not(a).number,
        _ => arith::bv_neg(a.width, a.number),
    }
}

// ZeroExt 16, SignExt 17, by n.
pub fn extend_value(t: u64, n: u64, a: BitVec) -> u64
    requires { (is_extend t ≡ true) × (a.width + n ≤ 64) }
    ensures value { result ≡ op_number t (n ∷ []) (val a.width a.number ∷ []) }
{
    match t {
        tag::ZERO_EXT => arith::bv_zero_extend(a),
        _ => arith::bv_sign_extend(n, a).number,
    }
}

// ---- two operands
// Of one width: any tag but Concat's.
fn even_value(t: u64, a: BitVec, b: BitVec) -> u64
    requires { BinTag t × (t ≡ t_concat → ⊥) × (a.width ≡ b.width) }
    ensures value { result ≡ op_number t [] (val a.width a.number ∷ val b.width b.number ∷ []) }
{
    match t {
        tag::ADD => arith::bv_add(a.width, a.number, b.number),
        tag::SUB => arith::bv_sub(a.width, a.number, b.number),
        tag::MUL => arith::bv_mul(a.width, a.number, b.number),
        tag::UDIV => divide::bv_udiv(a, b).number,
        tag::UREM => divide::bv_urem(a, b).number,
        tag::AND | tag::BOOL_AND => bitwise::bv_and(a, b).number,
        tag::OR | tag::BOOL_OR => bitwise::bv_or(a, b).number,
        tag::XOR => bitwise::bv_xor(a, b).number,
        tag::SHL => bitwise::bv_shl(a, b).number,
        tag::LSHR => bitwise::bv_lshr(a, b).number,
        tag::ASHR => bitwise::bv_ashr(a, b).number,
        tag::ROTR => bitwise::bv_rotr(a, b).number,
        tag::EQ => comparisons::bv_equal(a, b).number,
        tag::NE => comparisons::bv_distinct(a, b).number,
        tag::ULT => comparisons::bv_ult(a, b).number,
        tag::ULE => comparisons::bv_ule(a, b).number,
        tag::UGT => comparisons::bv_ugt(a, b).number,
        tag::UGE => comparisons::bv_uge(a, b).number,
        tag::SLT => comparisons::bv_slt(a, b).number,
        tag::SLE => comparisons::bv_sle(a, b).number,
        tag::SGT => comparisons::bv_sgt(a, b).number,
        tag::SGE => comparisons::bv_sge(a, b).number,
        tag::ROTL => bitwise::bv_rotl(a, b).number,
        tag::SDIV => divide::bv_sdiv(a, b).number,
        _ => divide::bv_srem(a, b).number,
    }
}

// The widths are equal but for Concat 15, where their sum is at most 64.
pub fn bin_value(t: u64, a: BitVec, b: BitVec) -> u64
    requires { BinReady t a.width b.width }
    ensures value { result ≡ op_number t [] (val a.width a.number ∷ val b.width b.number ∷ []) }
{
    if t == tag::CONCAT {
        return arith::bv_concat(b.width, a.number, b.number);
    }
    even_value(t, a, b)
}

// ---- constants
// From the highest bit down; the list has the lowest first.
pub fn const_value(bits: &[u8], s: usize, w: usize) -> u64
    requires { (s + w ≤ length bits.now) × (w ≤ 64) × ((k : ℕ) → get_or bits.now k 0 < 2) }
    ensures value { result ≡ const_number bits.now s w }
{
    let mut v = 0;
    for k in (0..w).rev() {
        v = 2 * v + u64::from(bits[s + k]);
    }
    v
}
