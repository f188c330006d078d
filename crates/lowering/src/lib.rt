// What Check is asked, as its lists are lent, and where a walk ends.
#![tactic(auto)]

// A source: its rows, the bits of its constants, its side list.
#[derive(Clone, Copy)]
pub struct Source<'a> {
    pub rows: &'a [u64],
    pub bits: &'a [u8],
    pub side: &'a [u64],
}

// A target: its rows and the bits of its constants.
#[derive(Clone, Copy)]
pub struct Target<'a> {
    pub rows: &'a [u64],
    pub bits: &'a [u8],
}

// What Check is asked: two graphs, the map and the two tables that bind them, the roots of both; a second edition gives a table of sorts.
#[derive(Clone, Copy)]
pub struct Asked<'a> {
    pub source: Source<'a>,
    pub eroots: &'a [u64],
    pub map: &'a [u64],
    pub reads: &'a [u64],
    pub calls: &'a [u64],
    pub cargs: &'a [u64],
    pub target: Target<'a>,
    pub troots: &'a [u64],
    pub sorts: Option<&'a [u64]>,
}

// Where the walk along a Select's pairs ends.
#[derive(Clone, Copy)]
pub enum Walk {
    // all pairs are taken: the current row
    RanOut(u64),
    // a pair of equal constants: the current row and the pair's value row
    Met(u64, u64),
    // the current row is no such Ite
    Lost,
}
