// Node rows: the row reader, the accessors and the decoder.
#![tactic(auto)]

ghost use Rattle.std.specs.Prelude.{◌≡◌, ◌<◌, ◌/◌, length, get_or};
ghost use Rattle.rows.specs.Row.{graph_number, row_count, ragged, row_at};
ghost use Rattle.rows.specs.Node.{node_from, node_of, row_eq};

pub mod tag;

// The largest word: no row has this number, so a row that is mapped here has no image; no width passes it. A word of the map that C gives.
pub const MAX: u64 = 0xffff_ffff_ffff_ffff;

// Which graph a list of words holds.
#[derive(Clone, Copy)]
pub enum Graph {
    Source = 1,
    Target = 2,
}

// What a row says, by shape; a shape of several tags keeps its tag first.
#[derive(Clone, Copy)]
pub enum Node {
    // width
    Var(u64),
    // start in the bits, width
    Const(u64, u64),
    // tag, operand
    Un(u64, u64),
    // tag, operands
    Bin(u64, u64, u64),
    // high bit, low bit, operand
    Extract(u64, u64, u64),
    // tag, operand, added bits
    Extend(u64, u64, u64),
    // condition, then, else
    Ite(u64, u64, u64),
    // array, index row, start, pair count
    Select(u64, u64, u64, u64),
    // function, width, start, argument count
    Call(u64, u64, u64, u64),
    // a tag that there is not; a case and not an `Option`, since the definitions of values go by it
    Unknown,
}

pub fn graph_number(graph: Graph) -> u64
    ensures number { result ≡ graph_number graph }
{
    graph as u64
}

// An arm for each graph, here and below: divided by a word that is chosen first, a list costs a division.
pub fn row_count(graph: Graph, g: &[u64]) -> usize
    ensures count { result ≡ row_count graph g.now }
{
    match graph {
        Graph::Source => g.len() / 5,
        Graph::Target => g.len() / 4,
    }
}

pub fn is_ragged(graph: Graph, g: &[u64]) -> bool
    ensures test { result ≡ ragged graph g.now }
{
    match graph {
        Graph::Source => g.len() % 5 != 0,
        Graph::Target => g.len() % 4 != 0,
    }
}

// Row i as its five words. An arm for each graph: with the place and the last word chosen first, a pass takes up to 2 % more instructions.
pub fn row(graph: Graph, g: &[u64], i: usize) -> [u64; 5]
    requires { i < row_count graph g.now }
    ensures row { result ≡ row_at graph g.now i }
{
    match graph {
        Graph::Source => {
            let at = i * 5;
            [g[at], g[at + 1], g[at + 2], g[at + 3], g[at + 4]]
        }
        Graph::Target => {
            let at = i * 4;
            [g[at], g[at + 1], g[at + 2], g[at + 3], 0]
        }
    }
}

pub fn node_tag(r: [u64; 5]) -> u64
    ensures word { result ≡ get_or r 0 0 }
{
    r[0]
}

// The row's five words as a node. An arm has one tag: two in one arm are compared ahead of the table of arms.
pub fn decode(r: [u64; 5]) -> Node
    ensures node { result ≡ node_of r }
{
    let [t, a, b, c, d] = r;
    match t {
        tag::VAR => Node::Var(a),
        tag::CONST => Node::Const(a, b),
        tag::EXTRACT => Node::Extract(a, b, c),
        tag::ZERO_EXT => Node::Extend(t, a, b),
        tag::SIGN_EXT => Node::Extend(t, a, b),
        tag::ITE => Node::Ite(a, b, c),
        tag::NOT => Node::Un(t, a),
        tag::BV_NOT => Node::Un(t, a),
        tag::NEG => Node::Un(t, a),
        tag::SELECT => Node::Select(a, b, c, d),
        tag::CALL => Node::Call(a, b, c, d),
        _ if t < tag::SELECT => Node::Bin(t, a, b),
        _ => Node::Unknown,
    }
}

// The same tag and the same fields.
pub fn node_eq(r: [u64; 5], s: [u64; 5]) -> bool
    ensures same { result ≡ row_eq r s }
{
    r == s
}
