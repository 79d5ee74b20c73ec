// What the hashes of FIPS 180-4 share: words of 32 bits and their bytes, and the last blocks of a message.
#![tactic(auto)]

ghost use Rattle.std.specs.Prelude.{◌≡◌, ◌+◌, ◌*◌, ◌<◌, ◌≤◌, ◌++◌, length};
ghost use Rattle.std.proofs.lemmas.List.Edits.{sets};
ghost use Rattle.wire.specs.Bytes.{Put, Room};
ghost use Rattle.padding.specs.Words.{plus, ch, maj, bytes, number, words};
ghost use Rattle.padding.specs.Padding.{ending};

// FIPS 180-4, 3.2: addition modulo 2^32.
pub fn add(x: u32, y: u32) -> u32
    ensures { result ≡ plus 32 x y }
{
    x.wrapping_add(y)
}

// FIPS 180-4, 4.1: Ch. Where y and z differ, x picks: one operation less than in the standard's form.
#[tactic(auto, using(crate::proofs::Bits::choose_32))]
pub fn choose(x: u32, y: u32, z: u32) -> u32
    ensures { result ≡ ch 32 x y z }
{
    ((y ^ z) & x) ^ z
}

// FIPS 180-4, 4.1: Maj. Where x and y agree they win, else z does.
#[tactic(auto, using(crate::proofs::Bits::majority_is))]
pub fn majority(x: u32, y: u32, z: u32) -> u32
    ensures { result ≡ maj x y z }
{
    ((x ^ y) & (y ^ z)) ^ y
}

// The word of the four bytes from place i on.
#[tactic(auto, unfolding(crate::specs::Words::number))]
fn word_at(m: &[u8], i: usize) -> u32
    requires { i + 4 ≤ length m.now }
    ensures { result ≡ number 4 m.now i }
{
    u32::from_be_bytes([m[i], m[i + 1], m[i + 2], m[i + 3]])
}

// FIPS 180-4, 5.2: writes the first n words of m over w, from index at on.
#[tactic(auto, using(crate::proofs::Laws::words_turn, crate::proofs::Laws::words_end), unfolding(crate::specs::Words::run))]
pub fn load(w: &mut [u32], at: usize, m: &[u8], n: usize)
    requires { (at + n ≤ length w.old) × (n * 4 ≤ length m.now) }
    ensures { w.new ≡ sets w.old at (words 4 n m.now) }
{
    for (i, word) in w[at..at + n].iter_mut().enumerate() {
        *word = word_at(m, i * 4);
    }
}

// Writes the word x at place at of d, most significant byte first, and says the place after it.
#[tactic(auto, unfolding(crate::specs::Words::bytes))]
pub fn put_word(d: &mut [u8], at: usize, x: u32) -> usize
    requires { Room d.old at (bytes 4 x) }
    ensures { Put d.old at (bytes 4 x) result d.new }
{
    wire::put_bytes(d, at, &x.to_be_bytes())
}

// Writes four words at place at of d, and says the place after them.
#[tactic(auto, using(wire::proofs::Laws::room_first, wire::proofs::Laws::room_then))]
pub fn put_four(d: &mut [u8], at: usize, x: u32, y: u32, z: u32, u: u32) -> usize
    requires { Room d.old at (bytes 4 x ++ (bytes 4 y ++ (bytes 4 z ++ bytes 4 u))) }
    ensures { Put d.old at (bytes 4 x ++ (bytes 4 y ++ (bytes 4 z ++ bytes 4 u))) result d.new }
{
    let b = put_word(d, at, x);
    let c = put_word(d, b, y);
    let e = put_word(d, c, z);
    put_word(d, e, u)
}

// Writes the w low bytes of n at place at of d, most significant first, and says the place after them.
#[tactic(auto, using(crate::proofs::Laws::length_bytes, crate::proofs::Laws::bytes_turn), unfolding(crate::specs::Words::bytes))]
fn put_be(d: &mut [u8], at: usize, w: usize, n: u64) -> usize
    requires { Room d.old at (bytes w n) }
    ensures { Put d.old at (bytes w n) result d.new }
{
    let mut v = n;
    for i in (0..w).rev() {
        d[at + i] = (v % 256) as u8;
        v /= 256;
    }
    at + w
}

// FIPS 180-4, 5.1: writes the length of n bytes, counted in bits, into a field of l bytes at place at of d. Says the place after it.
fn put_length(d: &mut [u8], at: usize, l: usize, n: u64) -> usize
    requires { (0 < l) × Room d.old at (bytes l (n * 8)) }
    ensures { Put d.old at (bytes l (n * 8)) result d.new }
{
    let a = put_be(d, at, l - 1, n / 32);
    wire::put_fill(d, a, 1, (n % 32 * 8) as u8)
}

// FIPS 180-4, 5.1: writes what is left of a message of n bytes, and its padding, at the start of d: the byte 128, z zero bytes and the
// length in a field of l bytes. Says the place after them.
#[tactic(auto, using(wire::proofs::Laws::room_first, wire::proofs::Laws::room_then), unfolding(crate::specs::Padding::ending))]
pub fn pad(d: &mut [u8], rest: &[u8], z: usize, l: usize, n: u64) -> usize
    requires { (0 < l) × Room d.old 0 (rest.now ++ ending z l n) }
    ensures { Put d.old 0 (rest.now ++ ending z l n) result d.new }
{
    let a = wire::put_bytes(d, 0, rest);
    let b = wire::put_fill(d, a, 1, 128);
    let c = wire::put_fill(d, b, z, 0);
    put_length(d, c, l, n)
}
