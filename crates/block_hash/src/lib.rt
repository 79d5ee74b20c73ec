// The digest of a message by any hash of FIPS 180-4. What a hash does with a block is its own; what is done with the blocks is the same
// for all.
#![tactic(auto)]

ghost use Rattle.std.specs.Prelude.{◌≡◌, ◌*◌, ◌%◌, ◌^◌, ◌<◌, ◌≤◌, ℕ, List, length};
ghost use Rattle.padding.specs.Padding.{absorbed, finished, hash};

// A hash value, which takes in a message block by block.
pub trait BlockHash: Copy {
    // The words that a block is expanded to. They are lent, so that they are not zeroed for each block.
    type Schedule: Drop;

    // The standard's hash value, and the one that a value stands for.
    ghost Value: { Type 0 };

    ghost value: { Self → Value };

    // The schedule before any block.
    ghost cleared: { Self.Schedule };

    // 5.3: the hash value before any block.
    ghost initial: { Value };

    // 6: the hash value after another one and a block.
    ghost compress: { Value → List ℕ → Value };

    // 6: the hash value as bytes.
    ghost output: { Value → List ℕ };

    ghost BLOCK_SIZE: { ℕ };

    ghost FIELD_SIZE: { ℕ };

    ghost DIGEST_SIZE: { ℕ };

    // The bytes of a block, of the field that the message's length stands in, and of a digest.
    const BLOCK_SIZE: usize;

    const FIELD_SIZE: usize;

    const DIGEST_SIZE: usize;

    // A schedule to lend.
    fn schedule() -> Self::Schedule
        ensures { result ≡ cleared };

    fn start() -> Self
        ensures { value result ≡ initial };

    fn block(self, w: &mut Self::Schedule, m: &[u8]) -> Self
        requires { length m.now ≡ BLOCK_SIZE }
        ensures { value result ≡ compress (value self) m.now };

    // Writes the digest over d.
    fn store(self, d: &mut [u8])
        requires { length d.old ≡ DIGEST_SIZE }
        ensures { d.new ≡ output (value self) };

    // A block has room for the byte 128 and the length.
    ghost field_fits: { (0 < FIELD_SIZE) × (FIELD_SIZE < BLOCK_SIZE) };
}

// The hash value after the whole blocks of m, over a schedule that is lent.
fn absorb_with<H: BlockHash>(w: &mut H::Schedule, s: H, m: &[u8]) -> H
    ensures { H.value result ≡ absorbed H.compress H.BLOCK_SIZE m.now (H.value s) }
{
    let mut v = s;
    for b in m.chunks_exact(H::BLOCK_SIZE) {
        v = v.block(w, b);
    }
    v
}

// The hash value after the whole blocks of m.
pub fn absorb<H: BlockHash>(s: H, m: &[u8]) -> H
    ensures { H.value result ≡ absorbed H.compress H.BLOCK_SIZE m.now (H.value s) }
{
    let mut w = H::schedule();
    absorb_with(&mut w, s, m)
}

// The digest of a message of n bytes whose whole blocks gave s, and whose other bytes are rest. LAST bytes have room for two blocks.
pub fn finish<H: BlockHash, const LAST: usize, const N: usize>(s: H, rest: &[u8], n: u64) -> [u8; N]
    requires rest { n % H.BLOCK_SIZE ≡ length rest.now }
    requires last { (2 * H.BLOCK_SIZE ≤ LAST) × (LAST < 2 ^ 63) }
    requires digest { N ≡ H.DIGEST_SIZE }
    ensures { result ≡ H.output (finished H.compress H.BLOCK_SIZE H.FIELD_SIZE n rest.now (H.value s)) }
{
    let block = H::BLOCK_SIZE;
    let field = H::FIELD_SIZE;
    let end = (rest.len() + field) / block * block + block;
    let mut last = [0u8; LAST];
    padding::pad(&mut last, rest, end - (field + 1) - rest.len(), field, n);
    let v = absorb(s, &last[..end]);
    let mut digest = [0u8; N];
    v.store(&mut digest);
    digest
}

// The digest of a message. LAST bytes have room for two blocks.
pub fn digest<H: BlockHash, const LAST: usize, const N: usize>(m: &[u8]) -> [u8; N]
    requires last { (2 * H.BLOCK_SIZE ≤ LAST) × (LAST < 2 ^ 63) }
    requires digest { N ≡ H.DIGEST_SIZE }
    ensures { result ≡ H.output (hash H.compress H.BLOCK_SIZE H.FIELD_SIZE H.initial m.now) }
{
    let block = H::BLOCK_SIZE;
    let n = m.len();
    let full = n / block * block;
    finish::<H, LAST, N>(absorb(H::start(), m), &m[full..], n as u64)
}
