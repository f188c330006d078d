// Congruence of calls: a root for each pair of call entries that needs one.
#![tactic(auto)]

ghost use Rattle.std.specs.Prelude.{◌≡◌, [], ◌∷◌, ◌+◌, ◌-◌, ◌<◌, ◌≤◌, ltb, length, get_or};
ghost use Rattle.lists.specs.Tests.{all};
ghost use Rattle.lowering.specs.Tables.{call_count, same_function};
ghost use Rattle.lowering.specs.Roots.{pairs_with, call_pairs, all_equal, congruent, call_root};
ghost use Rattle.pairs.specs.Walk.{walked};
ghost use Rattle.congruence.specs.Calls.{CallsIn, EqsEven};

use rows::{Graph, tag};

// Row a says that k arguments from sp on and from sq on are equal: BoolAnd nested to the left, the last equality outermost.
fn ante_ok(target: &[u64], cargs: &[u64], sp: usize, sq: usize, k: usize, a: u64) -> bool
    requires { (0 < k) × (sp + k ≤ length cargs.now) × (sq + k ≤ length cargs.now) }
    ensures test { result ≡ all_equal target.now (λ l. get_or cargs.now (sp + l) 0)
        (λ l. get_or cargs.now (sq + l) 0) (k - 1) a }
{
    let n = rows::row_count(Graph::Target, target) as u64;
    let mut cur = a;
    for l in (1..k).rev() {
        if n <= cur {
            return false;
        }
        let d = rows::row(Graph::Target, target, cur as usize);
        if d[0] != tag::BOOL_AND {
            return false;
        }
        if !images::is_eq(target, cargs[sp + l], cargs[sq + l], d[2]) {
            return false;
        }
        cur = d[1];
    }
    images::is_eq(target, cargs[sp], cargs[sq], cur)
}

// The root at position idx says that vp and vq are equal where the k arguments from sp on and from sq on are.
fn call_stands(
    cargs: &[u64],
    target: &[u64],
    troots: &[u64],
    idx: usize,
    sp: u64,
    sq: u64,
    k: u64,
    vp: u64,
    vq: u64,
) -> bool
    requires { (sp + k ≤ length cargs.now) × (sq + k ≤ length cargs.now) }
    ensures test { result ≡ all (ltb idx (length troots.now)
        ∷ congruent target.now (λ i. get_or cargs.now (sp + i) 0) (λ i. get_or cargs.now (sq + i) 0) k vp vq
        (get_or troots.now idx 0) ∷ []) }
{
    let Some(root) = troots.get(idx) else {
        return false;
    };
    if k == 0 {
        return false;
    }
    let Some(a) = leads::implication_shape(target, *root, vp, vq) else {
        return false;
    };
    ante_ok(target, cargs, sp as usize, sq as usize, k as usize, a)
}

// The pairs of entry k with later ones; their roots stand from idx0 on. A root that stands says that the arguments have the same widths, since Eq
// takes operands of one width; so these are compared only where none stands. Ok is the position after those that stand, Err that of the first that
// does not.
fn uf_cong_for(
    calls: &[u64],
    cargs: &[u64],
    target: &[u64],
    ws: &[u64],
    troots: &[u64],
    k: usize,
    idx0: usize,
) -> Result<usize, usize>
    requires calls_in { CallsIn calls.now cargs.now }
    requires eqs_even { EqsEven target.now ws.now }
    requires k_bound { k < call_count calls.now }
    ensures walk { result ≡ walked troots.now (call_root calls.now cargs.now target.now) idx0
        (pairs_with (same_function calls.now cargs.now ws.now) k (k + 1)
        (call_count calls.now - (k + 1))) }
{
    let n = tables::call_count(calls);
    let at = k * 4;
    let vp = calls[at];
    let fid = calls[at + 1];
    let sp = calls[at + 2];
    let count = calls[at + 3];
    let width = keys::width_at(ws, vp);
    let mut idx = idx0;
    for l in k + 1..n {
        let o = l * 4;
        if keys::function_is(calls, ws, o, fid, count, width) {
            let sq = calls[o + 2];
            if call_stands(cargs, target, troots, idx, sp, sq, count, vp, calls[o]) {
                idx += 1;
            } else if keys::same_function(calls, cargs, ws, at, o) {
                return Err(idx);
            }
        }
    }
    Ok(idx)
}

// All pairs of calls of one function.
pub fn uf_cong(
    calls: &[u64],
    cargs: &[u64],
    target: &[u64],
    ws: &[u64],
    troots: &[u64],
    idx0: usize,
) -> Result<usize, usize>
    requires calls_in { CallsIn calls.now cargs.now }
    requires eqs_even { EqsEven target.now ws.now }
    ensures walk { result ≡ walked troots.now (call_root calls.now cargs.now target.now) idx0
        (call_pairs calls.now cargs.now ws.now) }
{
    pairs::table_cong(tables::call_count(calls), idx0, |k, idx| {
        uf_cong_for(calls, cargs, target, ws, troots, k, idx)
    })
}
