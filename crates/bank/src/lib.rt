// The banks of document 01, the registers of every bank, and what extending does to them. Only this crate knows which banks there are and where
// their registers and digests stand.
#![tactic(auto)]

ghost use Rattle.std.specs.Prelude.{◌≡◌, ℕ, ◌≤◌, length, map, replicate};
ghost use Rattle.std.proofs.lemmas.List.Edits.{sets};
ghost use Rattle.wire.specs.Bytes.{Put, Room};
ghost use Rattle.bank.specs.Bank.{reset_byte, active, valid, banks, sha1_bank, sha256_bank};
ghost use Rattle.bank.specs.Named.{row, register_of};
ghost use Rattle.bank.specs.Registers.{digests_length, registers_length, value, extend_all, reset_first, reset_all, digest_in, digests_in, hash_all};
ghost use Rattle.bank.specs.Registers as spec;

use std::marker::Model;

#[derive(Clone, Copy)]
pub struct Sha1Bank;

impl Sha1Bank {
    pub const BIT: u32 = 1;

    pub const ALGORITHM: u16 = 0x0004;

    pub const LEN: usize = 20;

    // The byte that a register is filled with at reset.
    pub fn reset(register: usize) -> u8
        ensures { result ≡ sha1_bank.reset register }
    {
        reset_byte(register)
    }
}

#[derive(Clone, Copy)]
pub struct Sha256Bank;

impl Sha256Bank {
    pub const BIT: u32 = 2;

    pub const ALGORITHM: u16 = 0x000b;

    pub const LEN: usize = 32;

    // The byte that a register is filled with at reset.
    pub fn reset(register: usize) -> u8
        ensures { result ≡ sha256_bank.reset register }
    {
        reset_byte(register)
    }
}

// A row of the table of banks.
#[derive(Clone, Copy, PartialEq, Eq)]
pub enum Bank {
    Sha1,
    Sha256,
}

// How many banks there are.
pub const BANKS: usize = 2;

// The table of banks.
pub static TABLE: [Bank; BANKS] = [Bank::Sha1, Bank::Sha256];

// The bitmap of all banks.
pub const ALL: u32 = Sha1Bank::BIT + Sha256Bank::BIT;

// The bytes of one digest of each bank, and of the registers of each.
pub const DIGESTS: usize = Sha1Bank::LEN + Sha256Bank::LEN;

pub const REGISTERS: usize = 24 * DIGESTS;

// A bank's registers are 0 to 23.
#[derive(Clone, Copy)]
pub struct Register {
    number: usize,
}

impl Model for Register {
    ghost Value = { ℕ };

    ghost view = { λ r. r.number };

    ghost invariant = { λ r. r.number ≤ 23 };

    ghost inverse = { λ n. record { number = n } };
}

impl Register {
    pub fn new(number: u64) -> Option<Register>
        ensures { result ≡ register_of number }
    {
        if number <= 23 {
            Some(Register {
                number: number as usize,
            })
        } else {
            None
        }
    }

    pub fn number(self) -> usize
        ensures value { result ≡ self }
        ensures low { result ≤ 23 }
    {
        self.number
    }
}

fn reset_byte(register: usize) -> u8
    ensures { result ≡ reset_byte register }
{
    if 17 <= register && register <= 22 {
        255
    } else {
        0
    }
}

impl Bank {
    // Its bit of the bitmap.
    pub fn bit(self) -> u32
        ensures { result ≡ (row self).bit }
    {
        match self {
            Bank::Sha1 => Sha1Bank::BIT,
            Bank::Sha256 => Sha256Bank::BIT,
        }
    }

    // Its algorithm number.
    pub fn algorithm(self) -> u16
        ensures { result ≡ (row self).algorithm }
    {
        match self {
            Bank::Sha1 => Sha1Bank::ALGORITHM,
            Bank::Sha256 => Sha256Bank::ALGORITHM,
        }
    }

    // Its digest's length.
    pub fn size(self) -> usize
        ensures { result ≡ (row self).size }
    {
        match self {
            Bank::Sha1 => Sha1Bank::LEN,
            Bank::Sha256 => Sha256Bank::LEN,
        }
    }

    // Where its digest starts among one of each bank.
    pub fn from(self) -> usize
        ensures { result ≡ (row self).from }
    {
        match self {
            Bank::Sha1 => 0,
            Bank::Sha256 => Sha1Bank::LEN,
        }
    }

    // The byte that a register is filled with at reset.
    fn reset(self, register: usize) -> u8
        ensures { result ≡ (row self).reset register }
    {
        match self {
            Bank::Sha1 => Sha1Bank::reset(register),
            Bank::Sha256 => Sha256Bank::reset(register),
        }
    }

    pub fn is_active(self, bitmap: u32) -> bool
        ensures { result ≡ active bitmap (row self) }
    {
        bitmap / self.bit() % 2 == 1
    }
}

// The active banks that are still to come, in the table's order.
#[derive(Drop)]
pub struct ActiveBanks {
    bitmap: u32,
    rows: &'static [Bank],
}

impl Model for ActiveBanks {
    ghost use Rattle.std.specs.Prelude.{List};
    ghost use Rattle.bank.specs.declared.Bank.{Bank};
    ghost use Rattle.bank.specs.Named.{named};

    ghost Value = { List Bank };

    ghost view = { λ a. named a.bitmap a.rows.now };
}

impl Iterator for ActiveBanks {
    type Item = Bank;

    ghost use Rattle.std.specs.Iterator.{YieldsFirst, item_count};

    ghost next_gives = { YieldsFirst (λ rest. rest) };

    ghost remaining = { item_count (λ rest. rest) };

    fn next(&mut self) -> Option<Bank> {
        while let Some((bank, rows)) = self.rows.split_first() {
            self.rows = rows;
            if bank.is_active(self.bitmap) {
                return Some(*bank);
            }
        }
        None
    }
}

// The active banks, in the table's order.
pub fn active(bitmap: u32) -> ActiveBanks
    ensures { map row result ≡ banks bitmap }
{
    ActiveBanks {
        bitmap,
        rows: &TABLE,
    }
}

// One digest of each bank. Those of banks that are not active mean nothing.
#[derive(Clone, Copy)]
pub struct Digests {
    pub bytes: [u8; DIGESTS],
    ghost whole: { length bytes ≡ digests_length },
}

impl Digests {
    // No digest yet.
    pub fn blank() -> Digests
        ensures { result.bytes ≡ replicate digests_length 0 }
    {
        Digests {
            bytes: [0; DIGESTS],
        }
    }

    // The digest of a bank.
    pub fn of(&self, bank: Bank) -> &[u8]
        ensures { result.now ≡ digest_in self.now.bytes (row bank) }
    {
        let start = bank.from();
        let end = start + bank.size();
        &self.bytes[start..end]
    }

    // Writes the digest of a message in a bank in its place.
    fn hash(&mut self, bank: Bank, message: &[u8])
        ensures { self.new.bytes ≡ sets self.old.bytes (row bank).from ((row bank).hash message.now) }
    {
        let start = bank.from();
        match bank {
            Bank::Sha1 => wire::put_bytes(&mut self.bytes, start, &sha1_hash::digest(message)),
            Bank::Sha256 => wire::put_bytes(&mut self.bytes, start, &sha256::digest(message)),
        };
    }

    // Writes the digests of a message in the active banks in their places.
    pub fn hash_active(&mut self, bitmap: u32, message: &[u8])
        ensures { self.new.bytes ≡ hash_all (banks bitmap) message.now self.old.bytes }
    {
        for bank in active(bitmap) {
            self.hash(bank, message);
        }
    }
}

// The registers of every bank, active or not.
#[derive(Clone, Copy)]
pub struct Registers {
    pub bytes: [u8; REGISTERS],
}

// Writes the reset values of a bank from place at of registers on, and says the place after them.
fn put_reset(registers: &mut [u8], at: usize, bank: Bank) -> usize
    requires { Room registers.old at (reset_first (row bank) 24) }
    ensures { Put registers.old at (reset_first (row bank) 24) result registers.new }
{
    let mut p = at;
    for register in 0..24 {
        p = wire::put_fill(registers, p, bank.size(), bank.reset(register));
    }
    p
}

impl Registers {
    // Every byte 0, which no bank resets them to.
    pub fn blank() -> Registers
        ensures { result.bytes ≡ replicate registers_length 0 }
    {
        Registers {
            bytes: [0; REGISTERS],
        }
    }

    // The registers of every bank, reset.
    pub fn reset() -> Registers
        ensures { result.bytes ≡ reset_all }
    {
        let mut bytes = [0; REGISTERS];
        let mut at = 0;
        for bank in &TABLE {
            at = put_reset(&mut bytes, at, *bank);
        }
        Registers { bytes }
    }

    // The value of a register of a bank, where it lies.
    pub fn value(&self, bank: Bank, register: Register) -> &[u8]
        ensures { result.now ≡ value (row bank) register self.now.bytes }
    {
        let size = bank.size();
        let start = 24 * bank.from() + register.number() * size;
        let end = start + size;
        &self.bytes[start..end]
    }

    // Extends a register of a bank.
    pub fn extend(&mut self, bank: Bank, register: Register, digest: &[u8])
        requires { length digest.now ≡ (row bank).size }
        ensures { self.new.bytes ≡ spec.extend (row bank) register digest.now self.old.bytes }
    {
        let size = bank.size();
        let start = 24 * bank.from() + register.number() * size;
        let end = start + size;
        let value = &mut self.bytes[start..end];
        match bank {
            Bank::Sha1 => sha1_hash::extend(value, digest),
            Bank::Sha256 => sha256::extend(value, digest),
        }
    }

    // Extends a register of each active bank with that bank's digest.
    pub fn extend_active(&mut self, bitmap: u32, register: Register, digests: &Digests)
        ensures { self.new.bytes ≡ extend_all (banks bitmap) register (digests_in (banks bitmap) digests.now.bytes) self.old.bytes }
    {
        for bank in active(bitmap) {
            self.extend(bank, register, digests.of(bank));
        }
    }
}

// Whether a bitmap names banks of the table and no others, one at least.
#[tactic(auto, unfolding(crate::specs::Bank::valid))]
pub fn is_valid(bitmap: u32) -> bool
    ensures { result ≡ valid bitmap }
{
    1 <= bitmap && bitmap <= 3
}

// How many banks are active.
pub fn count(bitmap: u32) -> usize
    ensures { result ≡ length (banks bitmap) }
{
    active(bitmap).count()
}
