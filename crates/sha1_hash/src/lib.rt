// SHA-1 (FIPS 180-4, 6.1) of any lent slice, and of a register and a digest where they lie.
#![tactic(auto)]

ghost use Rattle.std.specs.Prelude.{◌≡◌, ◌++◌, ◌+◌, ◌%◌, ◌<◌, ◌≤◌, ℕ, length, take, set, replicate};
ghost use Rattle.std.proofs.Common.{lit<};
ghost use Rattle.std.proofs.lemmas.List.Edits.{sets};
ghost use Rattle.padding.specs.Words.{parity, steps, words};
ghost use Rattle.padding.specs.Padding.{padding, absorbed, finished};
ghost use Rattle.sha1_hash.specs.Sha1.{next, step_of, join, expanded, rounds, compress, output, H₀, sha1};
ghost use Rattle.sha1_hash.specs.Sha1 as spec;
ghost use Rattle.sha1_hash.specs.declared.State.{State};

use block_hash::BlockHash;

// The padding of a message of 40 bytes: nothing of it varies.
const PADDED: [u8; 24] = [
    128, 0, 0, 0, 0, 0, 0, 0, 0, 0, 0, 0, 0, 0, 0, 0, 0, 0, 0, 0, 0, 0, 1, 64,
];

// A hash value, and the working variables of a round.
#[derive(Clone, Copy)]
pub struct State {
    pub a: u32,
    pub b: u32,
    pub c: u32,
    pub d: u32,
    pub e: u32,
}

impl State {
    // 6.1.2, 3: a round with the function's value v, the constant k and the word w.
    fn turn(self, v: u32, k: u32, w: u32) -> State
        ensures { result ≡ spec.turn v k w self }
    {
        State {
            a: self
                .a
                .rotate_left(5)
                .wrapping_add(v)
                .wrapping_add(self.e)
                .wrapping_add(k)
                .wrapping_add(w),
            b: self.a,
            c: self.b.rotate_left(30),
            d: self.c,
            e: self.d,
        }
    }

    // 6.1.2, 4.
    fn feed(self, t: State) -> State
        ensures { result ≡ join self t }
    {
        State {
            a: self.a.wrapping_add(t.a),
            b: self.b.wrapping_add(t.b),
            c: self.c.wrapping_add(t.c),
            d: self.d.wrapping_add(t.d),
            e: self.e.wrapping_add(t.e),
        }
    }
}

// 4.1.1: Parity.
fn parity(x: u32, y: u32, z: u32) -> u32
    ensures { result ≡ parity x y z }
{
    x ^ y ^ z
}

// 6.1.2, 1: the word t + 16 of the schedule.
fn expand_one(w: &mut [u32; 80], t: usize)
    requires { t < 64 }
    ensures { w.new ≡ set w.old (t + 16) (next t w.old) }
{
    w[t + 16] = (w[t + 13] ^ w[t + 8] ^ w[t + 2] ^ w[t]).rotate_left(1);
}

// 6.1.2, 1: the schedule of the sixteen words that stand in front. Four words a turn are kept in the processor's registers.
fn expand(w: &mut [u32; 80])
    ensures { w.new ≡ expanded (take 16 w.old) }
{
    for i in 0..16 {
        let t = i * 4;
        expand_one(w, t);
        expand_one(w, t + 1);
        expand_one(w, t + 2);
        expand_one(w, t + 3);
    }
}

// Twenty rounds from t on with the constant k and a function that gives what g does.
fn twenty_rounds<F: Fn(u32, u32, u32) -> u32>(
    f: F,
    w: &[u32; 80],
    t: usize,
    k: u32,
    s: State,
) -> State
    requires callable { F.IsAlwaysCallable f }
    requires within { t + 20 ≤ 80 }
    ensures { (g : ℕ → ℕ → ℕ → ℕ) → ((x y z r : ℕ) → F.post f x y z r → r ≡ g x y z) → result ≡ steps (step_of g k w.now) t 20 s }
{
    let mut v = s;
    for i in 0..20 {
        v = v.turn(f(v.b, v.c, v.d), k, w[t + i]);
    }
    v
}

// 6.1.2, 2 to 4: the hash value after s and a schedule.
fn all_rounds(w: &[u32; 80], s: State) -> State
    ensures { result ≡ rounds w.now s }
{
    let a = twenty_rounds(padding::choose, w, 0, 0x5a827999, s);
    let b = twenty_rounds(parity, w, 20, 0x6ed9eba1, a);
    let c = twenty_rounds(padding::majority, w, 40, 0x8f1bbcdc, b);
    let d = twenty_rounds(parity, w, 60, 0xca62c1d6, c);
    d.feed(s)
}

impl BlockHash for State {
    type Schedule = [u32; 80];

    ghost Value = { State };

    ghost value = { λ s. s };

    ghost cleared = { replicate 80 0 };

    ghost initial = { H₀ };

    ghost compress = { compress };

    ghost output = { output };

    ghost BLOCK_SIZE = { 64 };

    ghost FIELD_SIZE = { 8 };

    ghost DIGEST_SIZE = { 20 };

    const BLOCK_SIZE: usize = 64;

    const FIELD_SIZE: usize = 8;

    const DIGEST_SIZE: usize = 20;

    ghost field_fits = { (lit< tt, lit< tt) };

    fn schedule() -> [u32; 80] {
        [0; 80]
    }

    // 5.3.1.
    fn start() -> State {
        State {
            a: 0x67452301,
            b: 0xefcdab89,
            c: 0x98badcfe,
            d: 0x10325476,
            e: 0xc3d2e1f0,
        }
    }

    // 6.1.2.
    fn block(self, w: &mut [u32; 80], m: &[u8]) -> State {
        padding::load(w, 0, m, 16);
        expand(w);
        all_rounds(w, self)
    }

    fn store(self, d: &mut [u8]) {
        let at = padding::put_four(d, 0, self.a, self.b, self.c, self.d);
        padding::put_word(d, at, self.e);
    }
}

// 5.3.1: the hash value before any block.
pub fn start() -> State
    ensures { result ≡ H₀ }
{
    State::start()
}

// The hash value after the whole blocks of m.
pub fn absorb(s: State, m: &[u8]) -> State
    ensures { result ≡ absorbed compress 64 m.now s }
{
    block_hash::absorb(s, m)
}

// The digest of a message of n bytes whose whole blocks gave s, and whose other bytes are rest.
pub fn finish(s: State, rest: &[u8], n: u64) -> [u8; 20]
    requires { n % 64 ≡ length rest.now }
    ensures { result ≡ output (finished compress 64 8 n rest.now s) }
{
    block_hash::finish::<State, 128, 20>(s, rest, n)
}

// FIPS 180-4, 6.1: the digest of a message.
#[tactic(auto, unfolding(crate::specs::Sha1::sha1))]
pub fn digest(m: &[u8]) -> [u8; 20]
    ensures { result ≡ sha1 m.now }
{
    block_hash::digest::<State, 128, 20>(m)
}

// The words of the padding of a message of 40 bytes, in their place behind its ten.
fn load_padded(w: &mut [u32; 80])
    ensures { w.new ≡ sets w.old 10 (words 4 6 (padding 64 8 40)) }
{
    padding::load(w, 10, &PADDED, 6);
}

// The hash value after the block of a register, a digest and their padding.
fn joined(w: &mut [u32; 80], register: &[u8], digest: &[u8]) -> State
    requires { (length register.now ≡ 20) × (length digest.now ≡ 20) }
    ensures { result ≡ compress H₀ ((register.now ++ digest.now) ++ padding 64 8 40) }
{
    padding::load(w, 0, register, 5);
    padding::load(w, 5, digest, 5);
    load_padded(w);
    expand(w);
    all_rounds(w, State::start())
}

// The register becomes the digest of the register's bytes and then the digest's.
pub fn extend(register: &mut [u8], digest: &[u8])
    requires { (length register.old ≡ 20) × (length digest.now ≡ 20) }
    ensures { register.new ≡ sha1 (register.old ++ digest.now) }
{
    let s = joined(&mut State::schedule(), register, digest);
    s.store(register);
}
