#![tactic(auto)]

ghost use Rattle.std.specs.Prelude.{◌≡◌, ◌++◌, ◌+◌, ◌≤◌, ◌-◌, leb, length, replicate, take};

// Zeros throughout.
pub fn clear(s: &mut [u64])
    ensures zeros { s.new ≡ replicate (length s.old) 0 }
{
    s.fill(0);
}

// Zeros from a place to the end.
pub fn clear_from(s: &mut [u64], from: usize)
    requires { from ≤ length s.old }
    ensures zeros { s.new ≡ take from s.old ++ replicate (length s.old - from) 0 }
{
    s[from..].fill(0);
}

// k words from o on lie in a list of n.
pub fn within(n: u64, o: u64, k: u64) -> bool
    ensures test { result ≡ leb (o + k) n }
{
    if n < k {
        return false;
    }
    o <= n - k
}
