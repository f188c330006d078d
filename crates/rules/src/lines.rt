// Operand facts of the 39 tags (02, 2.2), a line a tag; specs/Table has the same lines.
ghost use Rattle.std.specs.Prelude.{◌≡◌};
ghost use Rattle.rules.specs.Table.{table, line};
ghost use Rattle.rules.specs.Codes.{operands_of, join_of, source_of};

// How many operands a row has, side lists aside, and where they stand; first the rows that can have a side list.
#[derive(Clone, Copy, PartialEq, Eq)]
pub enum Operands {
    Empty,
    // One, in this field.
    Field2,
    Field1,
    Field3,
    // In fields 1 and 2.
    Two,
    // In fields 1 to 3.
    Three,
}

// How the widths of a row's operands join. The operands are first to third as the row names them.
#[derive(Clone, Copy, PartialEq, Eq)]
pub enum Join {
    // Nothing is asked.
    Any,
    // Both operands have one width.
    Equal,
    // The bits of a constant, field 2 of them from field 1 on, lie in the bit list.
    InBits,
    // Each operand has one bit.
    OneBit,
    // Bits from field 2 up to field 1 lie in the operand.
    Part,
    // The first operand has one bit, the others have one width.
    Choice,
    // The operand has the index width of the array in field 1; field 4 pairs from field 3 on in the side list have its index and cell widths.
    Chain,
    // Field 4 arguments from field 3 on in the side list are earlier rows.
    Arguments,
    // No rule: no width passes.
    Other,
}

// Where a row's width comes from.
#[derive(Clone, Copy, PartialEq, Eq)]
pub enum WidthFrom {
    // One bit, the first operand's width: the two of most rows.
    One,
    First,
    // The second operand's width.
    Second,
    // The sum of two operands' widths.
    Sum,
    // The operand's width and field 2.
    Extended,
    // Field 1, field 2.
    Field1,
    Field2,
    // As many bits as stand from field 2 up to field 1.
    Part,
    // The cell width of the array in field 1.
    Cell,
    // No source: no width.
    Other,
}

#[derive(Clone, Copy)]
pub struct Line {
    pub operands: Operands,
    pub join: Join,
    pub source: WidthFrom,
}

// The three by their codes, in the order above; any further code of operands is read as three operands.
impl From<u8> for Operands {
    ghost from_gives = { λ code r. r ≡ operands_of code };

    fn from(code: u8) -> Operands {
        match code {
            0 => Operands::Empty,
            1 => Operands::Field2,
            2 => Operands::Field1,
            3 => Operands::Field3,
            4 => Operands::Two,
            _ => Operands::Three,
        }
    }
}

impl From<u8> for Join {
    ghost from_gives = { λ code r. r ≡ join_of code };

    fn from(code: u8) -> Join {
        match code {
            0 => Join::Any,
            1 => Join::Equal,
            2 => Join::InBits,
            3 => Join::OneBit,
            4 => Join::Part,
            5 => Join::Choice,
            6 => Join::Chain,
            7 => Join::Arguments,
            _ => Join::Other,
        }
    }
}

impl From<u8> for WidthFrom {
    ghost from_gives = { λ code r. r ≡ source_of code };

    fn from(code: u8) -> WidthFrom {
        match code {
            0 => WidthFrom::One,
            1 => WidthFrom::First,
            2 => WidthFrom::Second,
            3 => WidthFrom::Sum,
            4 => WidthFrom::Extended,
            5 => WidthFrom::Field1,
            6 => WidthFrom::Field2,
            7 => WidthFrom::Part,
            8 => WidthFrom::Cell,
            _ => WidthFrom::Other,
        }
    }
}

impl Line {
    // A line by its three codes, whatever they are.
    pub fn from_codes(operands: u8, join: u8, source: u8) -> Line
        ensures line { result ≡ line (operands_of operands) (join_of join) (source_of source) }
    {
        Line {
            operands: Operands::from(operands),
            join: Join::from(join),
            source: WidthFrom::from(source),
        }
    }
}

// A line by the names of its variants.
macro_rules! facts {
    ($operands:ident, $join:ident, $source:ident) => {
        Line {
            operands: Operands::$operands,
            join: Join::$join,
            source: WidthFrom::$source,
        }
    };
}

const TABLE: [Line; 39] = [
    facts!(Empty, Any, Field1), // 0 Var
    facts!(Empty, InBits, Field2), // 1 Const
    facts!(Two, Equal, First), // 2 Add
    facts!(Two, Equal, First), // 3 Sub
    facts!(Two, Equal, First), // 4 Mul
    facts!(Two, Equal, First), // 5 Udiv
    facts!(Two, Equal, First), // 6 Urem
    facts!(Two, Equal, First), // 7 And
    facts!(Two, Equal, First), // 8 Or
    facts!(Two, Equal, First), // 9 Xor
    facts!(Two, Equal, First), // 10 Shl
    facts!(Two, Equal, First), // 11 Lshr
    facts!(Two, Equal, First), // 12 Ashr
    facts!(Two, Equal, First), // 13 Rotr
    facts!(Field3, Part, Part), // 14 Extract
    facts!(Two, Any, Sum), // 15 Concat
    facts!(Field1, Any, Extended), // 16 ZeroExt
    facts!(Field1, Any, Extended), // 17 SignExt
    facts!(Three, Choice, Second), // 18 Ite
    facts!(Two, Equal, One), // 19 Eq
    facts!(Two, Equal, One), // 20 Ne
    facts!(Two, Equal, One), // 21 Ult
    facts!(Two, Equal, One), // 22 Ule
    facts!(Two, Equal, One), // 23 Ugt
    facts!(Two, Equal, One), // 24 Uge
    facts!(Two, Equal, One), // 25 Slt
    facts!(Two, Equal, One), // 26 Sle
    facts!(Two, Equal, One), // 27 Sgt
    facts!(Two, Equal, One), // 28 Sge
    facts!(Field1, OneBit, One), // 29 Not
    facts!(Two, OneBit, One), // 30 BoolAnd
    facts!(Two, OneBit, One), // 31 BoolOr
    facts!(Field1, Any, First), // 32 BvNot
    facts!(Field1, Any, First), // 33 Neg
    facts!(Two, Equal, First), // 34 Rotl
    facts!(Two, Equal, First), // 35 Sdiv
    facts!(Two, Equal, First), // 36 Srem
    facts!(Field2, Chain, Cell), // 37 Select
    facts!(Empty, Arguments, Field2), // 38 Call
];

// The whole table: a copy for a pass over many rows, which a constant indexed at each row would be made anew for.
pub fn all_lines() -> [Line; 39]
    ensures lines { result ≡ table }
{
    TABLE
}
