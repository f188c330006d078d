// The tags of rows (01, 'Rows'), under the Rust's names. They stay numbers, not variants: a row is words that a C program gives, with any tag.
pub const VAR: u64 = 0;

pub const CONST: u64 = 1;

pub const ADD: u64 = 2;

pub const SUB: u64 = 3;

pub const MUL: u64 = 4;

pub const UDIV: u64 = 5;

pub const UREM: u64 = 6;

pub const AND: u64 = 7;

pub const OR: u64 = 8;

pub const XOR: u64 = 9;

pub const SHL: u64 = 10;

pub const LSHR: u64 = 11;

pub const ASHR: u64 = 12;

pub const ROTR: u64 = 13;

pub const EXTRACT: u64 = 14;

pub const CONCAT: u64 = 15;

pub const ZERO_EXT: u64 = 16;

pub const SIGN_EXT: u64 = 17;

pub const ITE: u64 = 18;

pub const EQ: u64 = 19;

pub const NE: u64 = 20;

pub const ULT: u64 = 21;

pub const ULE: u64 = 22;

pub const UGT: u64 = 23;

pub const UGE: u64 = 24;

pub const SLT: u64 = 25;

pub const SLE: u64 = 26;

pub const SGT: u64 = 27;

pub const SGE: u64 = 28;

pub const NOT: u64 = 29;

pub const BOOL_AND: u64 = 30;

pub const BOOL_OR: u64 = 31;

pub const BV_NOT: u64 = 32;

pub const NEG: u64 = 33;

pub const ROTL: u64 = 34;

pub const SDIV: u64 = 35;

pub const SREM: u64 = 36;

pub const SELECT: u64 = 37;

pub const CALL: u64 = 38;
