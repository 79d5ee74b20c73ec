// Digests and extended registers in lent slices, each with a status on the wire.
#![tactic(auto)]

ghost use Rattle.std.specs.Prelude.{◌≡◌, ◌++◌, ℕ, List, length};
ghost use Rattle.sha1_hash.specs.Sha1.{sha1};
ghost use Rattle.sha256.specs.Sha256.{sha256};
ghost use Rattle.digests.specs.Digests.{outcome, digested, extended};

// 01, When the panel answers no: invalid parameter, on the wire.
pub const INVALID: u64 = 0x8000_0000_0000_0002;

// A bank's hash: its digests, and what a register becomes that is extended.
pub trait BankHash {
    ghost hash: { List ℕ → List ℕ };

    ghost SIZE: { ℕ };

    // The bytes of a digest.
    const SIZE: usize;

    fn digest(message: &[u8], digest: &mut [u8])
        requires { length digest.old ≡ SIZE }
        ensures { digest.new ≡ hash message.now };

    fn extend(register: &mut [u8], digest: &[u8])
        requires { (length register.old ≡ SIZE) × (length digest.now ≡ SIZE) }
        ensures { register.new ≡ hash (register.old ++ digest.now) };
}

pub struct Sha1;

impl BankHash for Sha1 {
    ghost hash = { sha1 };

    ghost SIZE = { 20 };

    const SIZE: usize = 20;

    fn digest(message: &[u8], digest: &mut [u8]) {
        digest.copy_from_slice(&sha1_hash::digest(message));
    }

    fn extend(register: &mut [u8], digest: &[u8]) {
        sha1_hash::extend(register, digest);
    }
}

pub struct Sha256;

impl BankHash for Sha256 {
    ghost hash = { sha256 };

    ghost SIZE = { 32 };

    const SIZE: usize = 32;

    fn digest(message: &[u8], digest: &mut [u8]) {
        digest.copy_from_slice(&sha256::digest(message));
    }

    fn extend(register: &mut [u8], digest: &[u8]) {
        sha256::extend(register, digest);
    }
}

// Fills digest, which must have the hash's size, with the digest of message.
#[tactic(auto, unfolding(crate::specs::Digests::digested))]
pub fn digest<H: BankHash>(message: &[u8], digest: &mut [u8]) -> u64
    ensures { outcome result digest.new ≡ digested H.hash H.SIZE message.now digest.old }
{
    if digest.len() == H::SIZE {
        H::digest(message, digest);
        0
    } else {
        INVALID
    }
}

// Extends register with digest, both of the hash's size, in the hash's bank.
#[tactic(auto, unfolding(crate::specs::Digests::extended))]
pub fn extend<H: BankHash>(register: &mut [u8], digest: &[u8]) -> u64
    ensures { outcome result register.new ≡ extended H.hash H.SIZE register.old digest.now }
{
    if register.len() == H::SIZE && digest.len() == H::SIZE {
        H::extend(register, digest);
        0
    } else {
        INVALID
    }
}
