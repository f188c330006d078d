// Keys of table entries: what tells two functions apart, and whether an entry before has the same key.
#![tactic(auto, unfolding(lists::specs::Tests::all))]

ghost use Rattle.std.specs.Prelude.{◌≡◌, ℕ, Bool, false, not, [], ◌∷◌, ◌<◌, ◌≤◌, ◌+◌, ◌*◌, ◌^◌, length, get_or};
ghost use Rattle.lists.specs.First.{none};
ghost use Rattle.lists.specs.Tests.{all};
ghost use Rattle.lowering.specs.Tables.{same_read, same_call};
ghost use Rattle.keys.specs.Keys.{read_is, function_is, args_eq, call_is, arg_widths_eq, functions_agree, ArgsAt, ArgsInside};

// The read entry at off has this key.
fn read_is(reads: &[u64], off: usize, array: u64, index: u64) -> bool
    requires { off + 3 ≤ length reads.now }
    ensures test { result ≡ read_is reads.now off array index }
{
    reads[off + 1] == array && reads[off + 2] == index
}

// In a table of SIZE words an entry: one before k has the key that `is` asks for at an offset. Entry k has it, so the search needs no bound.
// By hand: a range would test its end at each step.
fn found_before<const SIZE: usize, F: Fn(usize) -> bool>(k: usize, is: F) -> bool
    requires size { (0 < SIZE) × (k * SIZE + SIZE < 2 ^ 64) }
    requires callable { (l : ℕ) → l ≤ k → F.pre is (l * SIZE) }
    requires own { F.post is (k * SIZE) false → ⊥ }
    ensures test { (p : ℕ → Bool) → ((l : ℕ) (b : Bool) → l ≤ k → F.post is (l * SIZE) b → b ≡ p l) → result ≡ not (none p k) }
{
    let upto = k * SIZE;
    let mut off = 0;
    while !is(off) {
        off += SIZE;
    }
    off < upto
}

// A read entry before k has its key.
pub fn read_dup(reads: &[u64], k: usize) -> bool
    requires { k * 3 + 3 ≤ length reads.now }
    ensures test { result ≡ not (none (λ l. same_read reads.now l k) k) }
{
    let upto = k * 3;
    let array = reads[upto + 1];
    let index = reads[upto + 2];
    found_before::<3, _>(k, |off| read_is(reads, off, array, index))
}

// The width of a row; 0 past the rows.
pub fn width_at(ws: &[u64], r: u64) -> u64
    ensures width { result ≡ get_or ws.now r 0 }
{
    ws.get(r as usize).copied().unwrap_or(0)
}

// The call entry at off has function number f, n arguments and a result of w bits.
pub fn function_is(calls: &[u64], ws: &[u64], off: usize, f: u64, n: u64, w: u64) -> bool
    requires { off + 4 ≤ length calls.now }
    ensures test { result ≡ function_is calls.now ws.now off f n w }
{
    calls[off + 1] == f && calls[off + 3] == n && width_at(ws, calls[off]) == w
}

// The n arguments from s on are those from t on.
fn args_eq(cargs: &[u64], s: usize, t: usize, n: usize) -> bool
    requires { (s + n ≤ length cargs.now) × (t + n ≤ length cargs.now) }
    ensures test { result ≡ args_eq cargs.now s t n }
{
    cargs[s..s + n] == cargs[t..t + n]
}

// The call entry at off has these and the n arguments from s on.
fn call_is(
    calls: &[u64],
    cargs: &[u64],
    ws: &[u64],
    off: usize,
    f: u64,
    s: u64,
    n: u64,
    w: u64,
) -> bool
    requires { (off + 4 ≤ length calls.now) × ArgsAt calls.now cargs.now off × (s + n ≤ length cargs.now) }
    ensures test { result ≡ call_is calls.now cargs.now ws.now off f s n w }
{
    function_is(calls, ws, off, f, n, w)
        && args_eq(cargs, calls[off + 2] as usize, s as usize, n as usize)
}

// The n arguments from s on have the widths of those from t on.
fn arg_widths_eq(cargs: &[u64], ws: &[u64], s: usize, t: usize, n: usize) -> bool
    requires { (s + n ≤ length cargs.now) × (t + n ≤ length cargs.now) }
    ensures test { result ≡ arg_widths_eq cargs.now ws.now s t n }
{
    cargs[s..s + n]
        .iter()
        .zip(&cargs[t..t + n])
        .all(|(a, b)| width_at(ws, *a) == width_at(ws, *b))
}

// The call entries at p and q are of one function: number, count, the widths of results and arguments. It tells functions apart for keys and for
// congruence.
pub fn same_function(calls: &[u64], cargs: &[u64], ws: &[u64], p: usize, q: usize) -> bool
    requires p_in_bounds { (p + 4 ≤ length calls.now) × (q + 4 ≤ length calls.now) }
    requires args_at { ArgsAt calls.now cargs.now p × ArgsAt calls.now cargs.now q }
    ensures test { result ≡ functions_agree calls.now cargs.now ws.now p q }
{
    let n = calls[q + 3];
    let w = width_at(ws, calls[q]);
    function_is(calls, ws, p, calls[q + 1], n, w)
        && arg_widths_eq(
            cargs,
            ws,
            calls[p + 2] as usize,
            calls[q + 2] as usize,
            n as usize,
        )
}

// The call entry at off has the key of the one at q, which has number f, n arguments from s on and a result of w bits: it is that one, or of the
// same function with the same argument rows. The rows before their widths: rarely do all rows agree.
fn call_again(
    calls: &[u64],
    cargs: &[u64],
    ws: &[u64],
    off: usize,
    q: usize,
    f: u64,
    s: u64,
    n: u64,
    w: u64,
) -> bool
    requires off_in_bounds { (off + 4 ≤ length calls.now) × (q + 4 ≤ length calls.now) × (s + n ≤ length cargs.now) }
    requires args_at { ArgsAt calls.now cargs.now off × ArgsAt calls.now cargs.now q }
    ensures test { result ≡ all (call_is calls.now cargs.now ws.now off f s n w
        ∷ functions_agree calls.now cargs.now ws.now off q ∷ []) }
{
    call_is(calls, cargs, ws, off, f, s, n, w)
        && (off == q || same_function(calls, cargs, ws, off, q))
}

// A call entry before k has its key.
pub fn call_dup(calls: &[u64], cargs: &[u64], ws: &[u64], k: usize) -> bool
    requires k_in_bounds { k * 4 + 4 ≤ length calls.now }
    requires args_inside { ArgsInside calls.now cargs.now (k + 1) }
    ensures test { result ≡ not (none (λ l. same_call calls.now cargs.now ws.now l k) k) }
{
    let upto = k * 4;
    let f = calls[upto + 1];
    let s = calls[upto + 2];
    let n = calls[upto + 3];
    let w = width_at(ws, calls[upto]);
    found_before::<4, _>(k, |off| call_again(calls, cargs, ws, off, upto, f, s, n, w))
}
