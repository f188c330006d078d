// The answers of the operations, and their numbers.
#![tactic(auto)]

ghost use Rattle.std.specs.Prelude.{◌≡◌};
ghost use Rattle.answers.specs.Answer.{words_of};
ghost use Rattle.answers.specs.Refusal.{words, words_of_refusal};

// Why an operation refuses, with the values that the refusal names.
#[derive(Clone, Copy, PartialEq, Eq)]
pub enum Refusal {
    // row of the source
    Ext(u64),
    // row of the target
    Core(u64),
    // words expected, words found
    MapLength(u64, u64),
    // row of the source
    MapOutOfRange(u64),
    // entry of the read table
    ReadTable(u64),
    // entry of the call table
    CallTable(u64),
    // row of the source, 7 to 11
    VarClass(u64),
    ConstMismatch(u64),
    NodeMismatch(u64),
    ChainMismatch(u64),
    CallMismatch(u64),
    // position in the source's root list, or 0 for roots left over
    RootMismatch(u64),
    // position in the target's root list
    CongruenceMismatch(u64),
    // variable row of the target
    DeadEntry(u64),
    // graph, 1 source or 2 target
    RowCount(u64),
    // row, graph
    BadRow(u64, u64),
    // position, graph
    BadBit(u64, u64),
    // list, by its place in the order lent
    WorkShort(u64),
    // position in the root list; graph, 0 where the operation has one list
    BadRoot(u64, u64),
    // 0 too short for its contents, a section, 12 bytes left over (14 in a second edition), 13 too long
    BookShape(u64),
    // row wider than 64 bits; graph, 0 where the operation has one
    TooWide(u64, u64),
    // words expected, words found
    ValueCount(u64, u64),
    // row of a variable
    ValueRange(u64),
    NoSection,
    // entry of the cells
    CellTable(u64),
    // entry of the function cells
    FunctionCells(u64),
    // position in the target's root list
    RootFalse(u64),
    // entry of the sort table
    SortTable(u64),
    // section whose list is too short
    NoRows(u64),
    BookFull,
    // list, by its place in the order lent; found short after it was begun, so that all is zeroed
    ListShort(u64),
}

// What an operation answers: acceptance, or why it refuses.
pub type Answer = Result<(), Refusal>;

// An answer as three words.
#[repr(C)]
#[derive(Clone, Copy, PartialEq, Eq)]
pub struct Words {
    pub number: u64,
    pub place: u64,
    pub detail: u64,
}

impl Words {
    fn new(number: u64, place: u64, detail: u64) -> Words
        ensures words { result ≡ words number place detail }
    {
        Words {
            number,
            place,
            detail,
        }
    }
}

impl From<Refusal> for Words {
    ghost from_gives = { λ refusal r. r ≡ words_of_refusal refusal };

    fn from(refusal: Refusal) -> Words {
        match refusal {
            Refusal::Ext(row) => Words::new(1, row, 0),
            Refusal::Core(row) => Words::new(2, row, 0),
            Refusal::MapLength(expected, found) => Words::new(3, expected, found),
            Refusal::MapOutOfRange(row) => Words::new(4, row, 0),
            Refusal::ReadTable(entry) => Words::new(5, entry, 0),
            Refusal::CallTable(entry) => Words::new(6, entry, 0),
            Refusal::VarClass(row) => Words::new(7, row, 0),
            Refusal::ConstMismatch(row) => Words::new(8, row, 0),
            Refusal::NodeMismatch(row) => Words::new(9, row, 0),
            Refusal::ChainMismatch(row) => Words::new(10, row, 0),
            Refusal::CallMismatch(row) => Words::new(11, row, 0),
            Refusal::RootMismatch(position) => Words::new(12, position, 0),
            Refusal::CongruenceMismatch(position) => Words::new(13, position, 0),
            Refusal::DeadEntry(variable) => Words::new(14, variable, 0),
            Refusal::RowCount(graph) => Words::new(15, graph, 0),
            Refusal::BadRow(row, graph) => Words::new(16, row, graph),
            Refusal::BadBit(position, graph) => Words::new(17, position, graph),
            Refusal::WorkShort(list) => Words::new(18, list, 0),
            Refusal::BadRoot(position, graph) => Words::new(19, position, graph),
            Refusal::BookShape(place) => Words::new(20, place, 0),
            Refusal::TooWide(row, graph) => Words::new(21, row, graph),
            Refusal::ValueCount(expected, found) => Words::new(22, expected, found),
            Refusal::ValueRange(row) => Words::new(23, row, 0),
            Refusal::NoSection => Words::new(24, 0, 0),
            Refusal::CellTable(entry) => Words::new(25, entry, 0),
            Refusal::FunctionCells(entry) => Words::new(26, entry, 0),
            Refusal::RootFalse(position) => Words::new(27, position, 0),
            Refusal::SortTable(entry) => Words::new(28, entry, 0),
            Refusal::NoRows(section) => Words::new(29, section, 0),
            Refusal::BookFull => Words::new(30, 0, 0),
            Refusal::ListShort(short) => Words::new(18, short, 0),
        }
    }
}

impl From<Answer> for Words {
    ghost from_gives = { λ answer r. r ≡ words_of answer };

    fn from(answer: Answer) -> Words {
        match answer {
            Ok(()) => Words::new(0, 0, 0),
            Err(refusal) => Words::from(refusal),
        }
    }
}
