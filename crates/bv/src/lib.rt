// Bit vectors of width 1 to 64, in words.
#![tactic(auto)]

ghost use Rattle.std.specs.Prelude.{◌≡◌, ◌<◌, ◌≤◌, ◌-◌, ◌%◌, ◌^◌};
ghost use Rattle.bv.specs.Bits.{of_bool};
ghost use Rattle.bv.specs.Bv.{nat2bv, negative};

// A bit vector of SMT-LIB: its width, and the number that it stands for (bv2nat).
#[derive(Clone, Copy)]
pub struct BitVec {
    pub width: u64,
    pub number: u64,
    pub ghost positive: { 0 < width },
    pub ghost narrow: { width ≤ 64 },
    pub ghost fits: { number < 2 ^ width },
}

impl BitVec {
    // A number taken modulo 2 ^ width.
    pub fn nat2bv(width: u64, x: u64) -> BitVec
        requires { (0 < width) × (width ≤ 64) }
        ensures value { result.number ≡ nat2bv width x }
        ensures width { result.width ≡ width }
    {
        BitVec {
            width,
            number: low(width, x),
        }
    }

    // A test as a bit.
    pub fn of_bool(test: bool) -> BitVec
        ensures value { result.number ≡ of_bool test }
        ensures width { result.width ≡ 1 }
    {
        BitVec {
            width: 1,
            number: u64::from(test),
        }
    }

    // The top bit is one.
    pub fn is_negative(self) -> bool
        ensures sign { result ≡ negative self.width self.number }
    {
        (self.number >> (self.width - 1)) != 0
    }
}

// The low w bits.
pub fn low(w: u64, x: u64) -> u64
    requires { w ≤ 64 }
    ensures low { result ≡ x % 2 ^ w }
{
    if w < 64 { x % (1 << w) } else { x }
}

// w ones.
pub fn ones(w: u64) -> u64
    requires { w ≤ 64 }
    ensures ones { result ≡ 2 ^ w - 1 }
{
    if w < 64 {
        (1 << w) - 1
    } else {
        0xffff_ffff_ffff_ffff
    }
}
