// Numbers and runs of bytes at a place of a lent slice. Numbers are little-endian throughout (document 01, Banks), and one function a
// direction serves every width.
#![tactic(auto)]

ghost use Rattle.std.specs.Prelude.{◌≡◌, ◌+◌, ◌≤◌, ◌<◌, ◌^◌, length, replicate};
ghost use Rattle.wire.specs.Bytes.{le, num, part, Put, Room};

// Writes the w low bytes of n from place at of d on, and says the place after them.
#[tactic(auto, using(crate::proofs::Laws::writing))]
pub fn put_le(d: &mut [u8], at: usize, w: usize, n: u64) -> usize
    requires { Room d.old at (le w n) }
    ensures { Put d.old at (le w n) result d.new }
{
    let mut v = n;
    for byte in &mut d[at..at + w] {
        *byte = (v % 256) as u8;
        v /= 256;
    }
    at + w
}

// The number in the w bytes of s from place at on.
#[tactic(auto, using(crate::proofs::Laws::reading))]
pub fn get_le(s: &[u8], at: usize, w: usize) -> u64
    requires { (at + w ≤ length s.now) × (w ≤ 8) }
    ensures { (result ≡ num s.now at w) × (result < 256 ^ w) }
{
    let mut v = 0;
    for byte in s[at..at + w].iter().rev() {
        v = v * 256 + u64::from(*byte);
    }
    v
}

// Writes the bytes s from place at of d on, and says the place after them. A loop, since copy_from_slice may become a call of memmove
// where the length is not known when it is compiled, and the archive for firmware has memcpy and memset alone.
#[tactic(auto, using(crate::proofs::Laws::copying))]
pub fn put_bytes(d: &mut [u8], at: usize, s: &[u8]) -> usize
    requires { Room d.old at s.now }
    ensures { Put d.old at s.now result d.new }
{
    for (i, byte) in s.iter().enumerate() {
        d[at + i] = *byte;
    }
    at + s.len()
}

// Writes n bytes b from place at of d on, and says the place after them.
#[tactic(auto, using(crate::proofs::Laws::put_over))]
pub fn put_fill(d: &mut [u8], at: usize, n: usize, b: u8) -> usize
    requires { Room d.old at (replicate n b) }
    ensures { Put d.old at (replicate n b) result d.new }
{
    d[at..at + n].fill(b);
    at + n
}

// The n bytes of s from place at on, where they lie.
pub fn get_bytes(s: &[u8], at: usize, n: usize) -> &[u8]
    requires { at + n ≤ length s.now }
    ensures { result.now ≡ part s.now at n }
{
    &s[at..at + n]
}
