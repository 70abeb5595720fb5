// Fields of stored bytes.
ghost use Rattle.std.specs.Prelude.{◌≡◌, ◌+◌, ◌≤◌, ◌<◌, length, get_or};
ghost use Rattle.stored.specs.Bytes.{word, framed_from};

pub fn byte(s: &[u8], k: usize) -> usize
    requires { k < length s.now }
    ensures { (result ≡ get_or s.now k 0) × (result < 256) }
{
    usize::from(s[k])
}

// The big-endian field of two bytes at k. They are read one by one: where they were written so just before, as the count of nodes is, a
// `from_be_bytes` of both waits for the writes, and translate takes 1.2 to 1.7 times as long.
#[tactic(auto, unfolding(crate::specs::Bytes::word))]
pub fn word(s: &[u8], k: usize) -> usize
    requires { k + 1 < length s.now }
    ensures { (result ≡ word s.now k) × (result < 65536) }
{
    byte(s, k) * 256 + byte(s, k + 1)
}

// Entry i of a table, or what is said to stand past its end.
pub(crate) fn entry<T: Copy>(table: &[T], i: usize, past: T) -> T
    ensures { result ≡ get_or table.now i past }
{
    table.get(i).copied().unwrap_or(past)
}

// The same of bytes, 0 past the end.
pub(crate) fn listed(table: &[u8], i: usize) -> usize
    ensures { result ≡ get_or table.now i 0 }
{
    table.get(i).map_or(0, |x| usize::from(*x))
}

// It has `least` bytes or more, and bytes 0–1 are its length less 2.
#[tactic(auto, unfolding(crate::specs::Bytes::framed_from))]
pub fn is_framed(s: &[u8], least: usize) -> bool
    requires { 2 ≤ least }
    ensures { result ≡ framed_from least s.now }
{
    least <= s.len() && word(s, 0) == s.len() - 2
}
