// The numbers of a target's rows, in words, rows in order.
#![tactic(auto)]

ghost use Rattle.std.specs.Prelude.{◌≡◌, true, [], ◌∷◌, ◌++◌, ◌<◌, ◌≤◌, ◌+◌, ◌^◌, length, get_or, drop};
ghost use Rattle.bv.specs.Bv.{extract, ite};
ghost use Rattle.operate.specs.Ready.{BinReady};
ghost use Rattle.rows.specs.declared.Graph.{Graph};
ghost use Rattle.rows.specs.Row.{row_count, row_at};
ghost use Rattle.rows.specs.Tags.{is_un, is_extend};
ghost use Rattle.rows.specs.Node.{node_of};
ghost use Rattle.value.specs.Val.{val, nat};
ghost use Rattle.value.specs.Operate.{op_number};
ghost use Rattle.value.specs.Graph.{numbers_to, node_value};
ghost use Rattle.evaluate.specs.Ready.{Ready, lookup, Evaluable};

use bv::BitVec;
use rows::{Graph, Node};

// The value of row i.
fn value_at(ws: &[u64], vs: &[u64], i: u64) -> BitVec
    requires bounds { (i < length ws.now) × (i < length vs.now) }
    requires fits { (0 < get_or ws.now i 0) × (get_or ws.now i 0 ≤ 64) × (get_or vs.now i 0 < 2 ^ get_or ws.now i 0) }
    ensures value { val result.width result.number ≡ lookup ws.now vs.now i }
{
    BitVec {
        width: ws[i as usize],
        number: vs[i as usize],
    }
}

// The number of a node after rows of widths ws and numbers vs; x is the word given for its row.
fn node_value(bits: &[u8], ws: &[u64], vs: &[u64], x: u64, node: Node) -> u64
    requires { Ready bits.now ws.now vs.now (length vs.now) node }
    ensures value { result ≡ nat (node_value bits.now (λ j. x) (lookup ws.now vs.now) 0 node) }
{
    match node {
        Node::Var(_) => x,
        Node::Const(s, w) => operate::const_value(bits, s as usize, w as usize),
        Node::Un(t, a) => operate::un_value(t, value_at(ws, vs, a)),
        Node::Bin(t, a, b) => operate::bin_value(t, value_at(ws, vs, a), value_at(ws, vs, b)),
        Node::Extract(high, low, a) => arith::bv_extract(high, low, vs[a as usize]),
        Node::Extend(t, a, n) => operate::extend_value(t, n, value_at(ws, vs, a)),
        Node::Ite(c, t, e) => comparisons::bv_ite(vs[c as usize], vs[t as usize], vs[e as usize]),
        Node::Select(_, _, _, _) => 0,
        Node::Call(_, _, _, _) => 0,
        Node::Unknown => 0,
    }
}

fn row_value(g: &[u64], bits: &[u8], ws: &[u64], vs: &[u64], x: u64, i: usize) -> u64
    requires i_bound { i < row_count Graph.Target g.now }
    requires ready { Ready bits.now ws.now vs.now (length vs.now) (node_of (row_at Graph.Target g.now i)) }
    ensures value { result ≡ nat (node_value bits.now (λ j. x) (lookup ws.now
        vs.now) 0 (node_of (row_at Graph.Target g.now i))) }
{
    let node = rows::decode(rows::row(Graph::Target, g, i));
    node_value(bits, ws, vs, x, node)
}

// The numbers of all rows, at the start of vs.
pub fn evaluate(g: &[u64], bits: &[u8], given: &[u64], ws: &[u64], vs: &mut [u64])
    requires evaluable { Evaluable g.now bits.now given.now ws.now }
    requires ws_in_bounds { length ws.now ≤ length vs.old }
    ensures list { vs.new ≡ numbers_to g.now bits.now given.now (length ws.now) ++ drop
        (length ws.now) vs.old }
{
    for i in 0..ws.len() {
        vs[i] = row_value(g, bits, ws, &vs[..i], given[i], i);
    }
}
