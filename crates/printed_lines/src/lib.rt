// The lines that the program prints for a log (document 01, Program), written into a lent buffer.
#![tactic(auto)]

ghost use Rattle.std.specs.Prelude.{◌≡◌};
ghost use Rattle.wire.specs.Bytes.{Put, Room};
ghost use Rattle.bank.specs.Bank.{banks};
ghost use Rattle.bank.specs.Named.{row};
ghost use Rattle.printed_lines.specs.Lines.{decimal, numbered, refused_line, entries_line, name, line_head, register_line, lines_first, banks_lines};

use bank::{Bank, Register, Registers};

// Writes a number in decimal digits.
#[tactic(auto, using(crate::proofs::Laws::decimal_printed))]
fn put_decimal(d: &mut [u8], at: usize, n: u64) -> usize
    requires { Room d.old at (decimal n) }
    ensures { Put d.old at (decimal n) result d.new }
{
    let mut buffer = itoa::Buffer::new();
    wire::put_bytes(d, at, buffer.format(n).as_bytes())
}

// Writes a word and a number behind it.
#[tactic(auto, unfolding(crate::specs::Lines::numbered))]
fn put_numbered(d: &mut [u8], at: usize, word: &str, n: u64) -> usize
    requires { Room d.old at (numbered word.now n) }
    ensures { Put d.old at (numbered word.now n) result d.new }
{
    let a = wire::put_bytes(d, at, word.as_bytes());
    put_decimal(d, a, n)
}

// Writes why a log is refused.
#[tactic(auto, unfolding(crate::specs::Lines::refused_line, crate::specs::Lines::refused_word, crate::specs::Lines::at_word))]
pub fn put_refused(d: &mut [u8], n: u64, offset: usize) -> usize
    requires { Room d.old 0 (refused_line n offset) }
    ensures { Put d.old 0 (refused_line n offset) result d.new }
{
    let a = put_numbered(d, 0, "refused ", n);
    let b = put_numbered(d, a, " at ", offset as u64);
    wire::put_fill(d, b, 1, b'\n')
}

// Writes how many entries were taken.
#[tactic(auto, unfolding(crate::specs::Lines::entries_line, crate::specs::Lines::entries_word))]
pub fn put_entries(d: &mut [u8], n: usize) -> usize
    requires { Room d.old 0 (entries_line n) }
    ensures { Put d.old 0 (entries_line n) result d.new }
{
    let a = put_numbered(d, 0, "entries ", n as u64);
    wire::put_fill(d, a, 1, b'\n')
}

// A bank's name.
#[tactic(auto, unfolding(crate::specs::Lines::name))]
fn name(bank: Bank) -> &'static str
    ensures { result.now ≡ name (row bank) }
{
    match bank {
        Bank::Sha1 => "sha1",
        Bank::Sha256 => "sha256",
    }
}

// Writes what stands in front of a register's value.
#[tactic(auto, using(wire::proofs::Laws::then), unfolding(crate::specs::Lines::line_head, crate::specs::Lines::two_digits, crate::specs::Lines::name))]
fn put_head(d: &mut [u8], at: usize, bank: Bank, register: Register) -> usize
    requires { Room d.old at (line_head (row bank) register) }
    ensures { Put d.old at (line_head (row bank) register) result d.new }
{
    let r = register.number();
    let number = [b'0' + (r / 10) as u8, b'0' + (r % 10) as u8];
    let a = wire::put_bytes(d, at, name(bank).as_bytes());
    let b = wire::put_fill(d, a, 1, b' ');
    let c = wire::put_bytes(d, b, &number);
    wire::put_fill(d, c, 1, b' ')
}

// Writes the line of a register of a bank.
#[tactic(auto, unfolding(crate::specs::Lines::register_line))]
fn put_register(
    d: &mut [u8],
    at: usize,
    bank: Bank,
    register: Register,
    registers: &Registers,
) -> usize
    requires { Room d.old at (register_line (row bank) register registers.now.bytes) }
    ensures { Put d.old at (register_line (row bank) register registers.now.bytes) result d.new }
{
    let head = put_head(d, at, bank, register);
    let hex = hex_digits::put_hex(d, head, registers.value(bank, register));
    wire::put_fill(d, hex, 1, b'\n')
}

// Writes the lines of the registers of a bank.
fn put_bank(d: &mut [u8], at: usize, bank: Bank, registers: &Registers) -> usize
    requires { Room d.old at (lines_first (row bank) 24 registers.now.bytes) }
    ensures { Put d.old at (lines_first (row bank) 24 registers.now.bytes) result d.new }
{
    let mut p = at;
    for number in 0..24 {
        let register = Register::new(number).unwrap();
        p = put_register(d, p, bank, register, registers);
    }
    p
}

// Writes the lines of the registers of the active banks.
pub fn put_banks(d: &mut [u8], at: usize, bitmap: u32, registers: &Registers) -> usize
    requires { Room d.old at (banks_lines (banks bitmap) registers.now.bytes) }
    ensures { Put d.old at (banks_lines (banks bitmap) registers.now.bytes) result d.new }
{
    let mut p = at;
    for bank in bank::active(bitmap) {
        p = put_bank(d, p, bank, registers);
    }
    p
}
