// Lists compared and copied, as words and as bytes.
#![tactic(auto)]

ghost use Rattle.std.specs.Prelude.{◌≡◌, true, ◌≤◌, length, take};
ghost use Rattle.io.specs.Counts.{IsPrefixLen};

// Whether bytes are a list's words.
pub fn same_bytes(a: &[u8], b: &[u64]) -> bool
    ensures equal { (result ≡ true → a.now ≡ b.now) × (a.now ≡ b.now → result ≡ true) }
{
    a.len() == b.len() && a.iter().zip(b).all(|(x, y)| u64::from(*x) == *y)
}

// Puts a list at the start of out, and gives its length.
pub fn lend(list: &[u64], out: &mut [u64]) -> usize
    requires { length list.now ≤ length out.old }
    ensures room { IsPrefixLen result out.new }
    ensures copied { take result out.new ≡ list.now }
{
    out[..list.len()].copy_from_slice(list);
    list.len()
}

// Puts a list at the start of out. False where a word is no byte.
pub fn copy_bytes(list: &[u64], out: &mut [u8]) -> bool
    requires { length list.now ≤ length out.old }
    ensures room { IsPrefixLen (length list.now) out.new }
    ensures copied { result ≡ true → take (length list.now) out.new ≡ list.now }
{
    for (i, word) in list.iter().enumerate() {
        let Ok(byte) = u8::try_from(*word) else {
            return false;
        };
        out[i] = byte;
    }
    true
}
