// Side lists: the pairs of a Select and the arguments of a Call against the widths of earlier rows.
#![tactic(auto)]

ghost use Rattle.std.specs.Prelude.{◌≡◌, ◌+◌, ◌*◌, ◌<◌, ◌≤◌, length};
ghost use Rattle.lists.specs.First.{none};
ghost use Rattle.rules.specs.Rule.{has_width, pair_bad, chain_good, arg_bad, args_good};

// Row a is earlier and has width w.
pub fn has_width(ws: &[u64], a: u64, w: u64) -> bool
    ensures test { result ≡ has_width ws.now a w }
{
    a < ws.len() as u64 && ws[a as usize] == w
}

// Pair l breaks the rule.
pub fn pair_bad(ws: &[u64], side: &[u64], s: usize, l: usize, iw: u64, cw: u64) -> bool
    requires { s + 2 * l + 1 < length side.now }
    ensures test { result ≡ pair_bad iw cw ws.now side.now s l }
{
    let at = s + 2 * l;
    !has_width(ws, side[at], iw) || !has_width(ws, side[at + 1], cw)
}

// The pairs of a chain. A `for`: std's `all` takes a branch more at each chain.
pub fn pairs_wf(ws: &[u64], side: &[u64], s: usize, k: usize, iw: u64, cw: u64) -> bool
    requires { s + 2 * k ≤ length side.now }
    ensures test { result ≡ none (pair_bad iw cw ws.now side.now s) k }
{
    for l in 0..k {
        if pair_bad(ws, side, s, l, iw, cw) {
            return false;
        }
    }
    true
}

// The k pairs of a Select from s on.
pub fn chain_wf(ws: &[u64], side: &[u64], s: u64, k: u64, iw: u64, cw: u64) -> bool
    ensures test { result ≡ chain_good iw cw ws.now side.now s k }
{
    if k == 0 {
        return true;
    }
    let m = side.len() as u64;
    s <= m && k <= (m - s) / 2 && pairs_wf(ws, side, s as usize, k as usize, iw, cw)
}

// The k rows from s on in a side list are below n. By place, as the pairs.
pub fn list_wf(n: u64, side: &[u64], s: usize, k: usize) -> bool
    requires { s + k ≤ length side.now }
    ensures test { result ≡ none (arg_bad n side.now s) k }
{
    for l in 0..k {
        if n <= side[s + l] {
            return false;
        }
    }
    true
}

// The k arguments of a Call from s on.
pub fn args_wf(ws: &[u64], side: &[u64], s: u64, k: u64) -> bool
    ensures test { result ≡ args_good ws.now side.now s k }
{
    if k == 0 {
        return true;
    }
    let m = side.len() as u64;
    s <= m && k <= m - s && list_wf(ws.len() as u64, side, s as usize, k as usize)
}
