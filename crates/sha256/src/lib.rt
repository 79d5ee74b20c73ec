// SHA-256 (FIPS 180-4, 6.2) of any lent slice, and of a register and a digest where they lie.
#![tactic(auto)]

ghost use Rattle.std.specs.Prelude.{◌≡◌, ◌++◌, ◌+◌, ◌%◌, ◌<◌, length, take, set, replicate};
ghost use Rattle.std.proofs.Common.{lit<};
ghost use Rattle.padding.specs.Words.{plus};
ghost use Rattle.padding.specs.Padding.{padding, absorbed, finished};
ghost use Rattle.padding.specs.Sha2.{Eight, next, step, round, join, expanded, rounds, compress, output};
ghost use Rattle.sha256.specs.Sha256.{P, H₀, value, sha256};

use block_hash::BlockHash;

// FIPS 180-4, 4.2.2.
const ROUND: [u32; 64] = [
    0x428a2f98, 0x71374491, 0xb5c0fbcf, 0xe9b5dba5, 0x3956c25b, 0x59f111f1, 0x923f82a4, 0xab1c5ed5,
    0xd807aa98, 0x12835b01, 0x243185be, 0x550c7dc3, 0x72be5d74, 0x80deb1fe, 0x9bdc06a7, 0xc19bf174,
    0xe49b69c1, 0xefbe4786, 0x0fc19dc6, 0x240ca1cc, 0x2de92c6f, 0x4a7484aa, 0x5cb0a9dc, 0x76f988da,
    0x983e5152, 0xa831c66d, 0xb00327c8, 0xbf597fc7, 0xc6e00bf3, 0xd5a79147, 0x06ca6351, 0x14292967,
    0x27b70a85, 0x2e1b2138, 0x4d2c6dfc, 0x53380d13, 0x650a7354, 0x766a0abb, 0x81c2c92e, 0x92722c85,
    0xa2bfe8a1, 0xa81a664b, 0xc24b8b70, 0xc76c51a3, 0xd192e819, 0xd6990624, 0xf40e3585, 0x106aa070,
    0x19a4c116, 0x1e376c08, 0x2748774c, 0x34b0bcb5, 0x391c0cb3, 0x4ed8aa4a, 0x5b9cca4f, 0x682e6ff3,
    0x748f82ee, 0x78a5636f, 0x84c87814, 0x8cc70208, 0x90befffa, 0xa4506ceb, 0xbef9a3f7, 0xc67178f2,
];

// The schedule of the block that pads a message of 64 bytes: nothing of it varies.
const PADDED: [u32; 64] = [
    0x80000000, 0x00000000, 0x00000000, 0x00000000, 0x00000000, 0x00000000, 0x00000000, 0x00000000,
    0x00000000, 0x00000000, 0x00000000, 0x00000000, 0x00000000, 0x00000000, 0x00000000, 0x00000200,
    0x80000000, 0x01400000, 0x00205000, 0x00005088, 0x22000800, 0x22550014, 0x05089742, 0xa0000020,
    0x5a880000, 0x005c9400, 0x0016d49d, 0xfa801f00, 0xd33225d0, 0x11675959, 0xf6e6bfda, 0xb30c1549,
    0x08b2b050, 0x9d7c4c27, 0x0ce2a393, 0x88e6e1ea, 0xa52b4335, 0x67a16f49, 0xd732016f, 0x4eeb2e91,
    0x5dbf55e5, 0x8eee2335, 0xe2bc5ec2, 0xa83f4394, 0x45ad78f7, 0x36f3d0cd, 0xd99c05e8, 0xb0511dc7,
    0x69bc7ac4, 0xbd11375b, 0xe3ba71e5, 0x3b209ff2, 0x18feee17, 0xe25ad9e7, 0x13375046, 0x0515089d,
    0x4f0d0f04, 0x2627484e, 0x310128d2, 0xc668b434, 0x420841cc, 0x62d311b8, 0xe59ba771, 0x85a7a484,
];

// A hash value, and the working variables of a round.
#[derive(Clone, Copy)]
pub struct State {
    pub a: u32,
    pub b: u32,
    pub c: u32,
    pub d: u32,
    pub e: u32,
    pub f: u32,
    pub g: u32,
    pub h: u32,
}

impl State {
    // 6.2.2, 3: a round with the constant k and the word w.
    fn turn(self, k: u32, w: u32) -> State
        ensures { value result ≡ round P k w (value self) }
    {
        let t1 = self
            .h
            .wrapping_add(big1(self.e))
            .wrapping_add(padding::choose(self.e, self.f, self.g))
            .wrapping_add(k)
            .wrapping_add(w);
        let t2 = big0(self.a).wrapping_add(padding::majority(self.a, self.b, self.c));
        State {
            a: t1.wrapping_add(t2),
            b: self.a,
            c: self.b,
            d: self.c,
            e: self.d.wrapping_add(t1),
            f: self.e,
            g: self.f,
            h: self.g,
        }
    }

    // 6.2.2, 4.
    fn feed(self, t: State) -> State
        ensures { value result ≡ join P (value self) (value t) }
    {
        State {
            a: self.a.wrapping_add(t.a),
            b: self.b.wrapping_add(t.b),
            c: self.c.wrapping_add(t.c),
            d: self.d.wrapping_add(t.d),
            e: self.e.wrapping_add(t.e),
            f: self.f.wrapping_add(t.f),
            g: self.g.wrapping_add(t.g),
            h: self.h.wrapping_add(t.h),
        }
    }
}

fn big0(x: u32) -> u32
    ensures { result ≡ P.Σ₀ x }
{
    x.rotate_right(2) ^ x.rotate_right(13) ^ x.rotate_right(22)
}

fn big1(x: u32) -> u32
    ensures { result ≡ P.Σ₁ x }
{
    x.rotate_right(6) ^ x.rotate_right(11) ^ x.rotate_right(25)
}

fn small0(x: u32) -> u32
    ensures { result ≡ P.σ₀ x }
{
    x.rotate_right(7) ^ x.rotate_right(18) ^ (x >> 3)
}

fn small1(x: u32) -> u32
    ensures { result ≡ P.σ₁ x }
{
    x.rotate_right(17) ^ x.rotate_right(19) ^ (x >> 10)
}

// 6.2.2, 1: the word that four earlier ones give.
fn following(w14: u32, w9: u32, w1: u32, w0: u32) -> u32
    ensures { result ≡ plus 32 (plus 32 (plus 32 (P.σ₁ w14) w9) (P.σ₀ w1)) w0 }
{
    small1(w14)
        .wrapping_add(w9)
        .wrapping_add(small0(w1))
        .wrapping_add(w0)
}

// 6.2.2, 1: the word t + 16 of the schedule.
fn expand_one(w: &mut [u32; 64], t: usize)
    requires { t < 48 }
    ensures { w.new ≡ set w.old (t + 16) (next P t w.old) }
{
    w[t + 16] = following(w[t + 14], w[t + 9], w[t + 1], w[t]);
}

// 6.2.2, 1: the schedule of the sixteen words that stand in front. Four words a turn are kept in the processor's registers.
fn expand(w: &mut [u32; 64])
    ensures { w.new ≡ expanded P (take 16 w.old) }
{
    for i in 0..12 {
        let t = i * 4;
        expand_one(w, t);
        expand_one(w, t + 1);
        expand_one(w, t + 2);
        expand_one(w, t + 3);
    }
}

// Rounds t to t + 3: the working variables change places without a move.
fn four_rounds(w: &[u32; 64], t: usize, s: State) -> State
    requires { t + 3 < 64 }
    ensures { value result ≡ step P w.now (t + 3) (step P w.now (t + 2) (step P w.now (t + 1) (step P w.now t (value s)))) }
{
    s.turn(ROUND[t], w[t])
        .turn(ROUND[t + 1], w[t + 1])
        .turn(ROUND[t + 2], w[t + 2])
        .turn(ROUND[t + 3], w[t + 3])
}

// 6.2.2, 2 to 4: the hash value after s and a schedule.
fn all_rounds(w: &[u32; 64], s: State) -> State
    ensures { value result ≡ rounds P w.now (value s) }
{
    let mut v = s;
    for i in 0..16 {
        v = four_rounds(w, i * 4, v);
    }
    v.feed(s)
}

impl BlockHash for State {
    type Schedule = [u32; 64];

    ghost Value = { Eight };

    ghost value = { value };

    ghost cleared = { replicate 64 0 };

    ghost initial = { H₀ };

    ghost compress = { compress P };

    ghost output = { output P };

    ghost BLOCK_SIZE = { 64 };

    ghost FIELD_SIZE = { 8 };

    ghost DIGEST_SIZE = { 32 };

    const BLOCK_SIZE: usize = 64;

    const FIELD_SIZE: usize = 8;

    const DIGEST_SIZE: usize = 32;

    ghost field_fits = { (lit< tt, lit< tt) };

    fn schedule() -> [u32; 64] {
        [0; 64]
    }

    // 5.3.3.
    fn start() -> State {
        State {
            a: 0x6a09e667,
            b: 0xbb67ae85,
            c: 0x3c6ef372,
            d: 0xa54ff53a,
            e: 0x510e527f,
            f: 0x9b05688c,
            g: 0x1f83d9ab,
            h: 0x5be0cd19,
        }
    }

    // 6.2.2.
    fn block(self, w: &mut [u32; 64], m: &[u8]) -> State {
        padding::load(w, 0, m, 16);
        expand(w);
        all_rounds(w, self)
    }

    fn store(self, d: &mut [u8]) {
        let at = padding::put_four(d, 0, self.a, self.b, self.c, self.d);
        padding::put_four(d, at, self.e, self.f, self.g, self.h);
    }
}

// 5.3.3: the hash value before any block.
pub fn start() -> State
    ensures { value result ≡ H₀ }
{
    State::start()
}

// The hash value after the whole blocks of m.
pub fn absorb(s: State, m: &[u8]) -> State
    ensures { value result ≡ absorbed (compress P) 64 m.now (value s) }
{
    block_hash::absorb(s, m)
}

// The digest of a message of n bytes whose whole blocks gave s, and whose other bytes are rest.
pub fn finish(s: State, rest: &[u8], n: u64) -> [u8; 32]
    requires { n % 64 ≡ length rest.now }
    ensures { result ≡ output P (finished (compress P) 64 8 n rest.now (value s)) }
{
    block_hash::finish::<State, 128, 32>(s, rest, n)
}

// FIPS 180-4, 6.2: the digest of a message.
#[tactic(auto, unfolding(crate::specs::Sha256::sha256))]
pub fn digest(m: &[u8]) -> [u8; 32]
    ensures { result ≡ sha256 m.now }
{
    block_hash::digest::<State, 128, 32>(m)
}

// The hash value after the block of a register and a digest.
fn joined(w: &mut [u32; 64], register: &[u8], digest: &[u8]) -> State
    requires { (length register.now ≡ 32) × (length digest.now ≡ 32) }
    ensures { value result ≡ compress P H₀ (register.now ++ digest.now) }
{
    padding::load(w, 0, register, 8);
    padding::load(w, 8, digest, 8);
    expand(w);
    all_rounds(w, State::start())
}

// The hash value after the block that pads a message of 64 bytes.
fn padded(s: State) -> State
    ensures { value result ≡ compress P (value s) (padding 64 8 64) }
{
    all_rounds(&PADDED, s)
}

// The register becomes the digest of the register's bytes and then the digest's.
pub fn extend(register: &mut [u8], digest: &[u8])
    requires { (length register.old ≡ 32) × (length digest.now ≡ 32) }
    ensures { register.new ≡ sha256 (register.old ++ digest.now) }
{
    let s = joined(&mut State::schedule(), register, digest);
    padded(s).store(register);
}
