// Bytes as lower-case hexadecimal digits.
#![tactic(auto)]

ghost use Rattle.std.specs.Prelude.{◌≡◌, ◌<◌, ◌≤◌, Some, length};
ghost use Rattle.wire.specs.Bytes.{Put, Room};
ghost use Rattle.hex_digits.specs.Hex.{digit_of, hex_of};

use std::{fmt, str};

// The character of a digit.
fn digit(n: u8) -> u8
    requires { n < 16 }
    ensures { result ≡ digit_of n }
{
    if n < 10 { b'0' + n } else { b'a' + n - 10 }
}

// Writes the digits of s from place at of d on, and says the place after them.
#[tactic(auto, using(crate::proofs::Laws::writing))]
pub fn put_hex(d: &mut [u8], at: usize, s: &[u8]) -> usize
    requires { Room d.old at (hex_of s.now) }
    ensures { Put d.old at (hex_of s.now) result d.new }
{
    for (i, byte) in s.iter().enumerate() {
        d[at + i * 2] = digit(byte / 16);
        d[at + i * 2 + 1] = digit(byte % 16);
    }
    at + s.len() * 2
}

// The digits of s as text, in room for them.
#[tactic(auto, using(crate::proofs::Laws::showing))]
fn hex_text<'r>(room: &'r mut [u8; 128], s: &[u8]) -> &'r str
    requires { length s.now ≤ 64 }
    ensures { result.now ≡ hex_of s.now }
{
    let end = put_hex(room, 0, s);
    let Ok(text) = str::from_utf8(&room[..end]) else {
        unreachable!();
    };
    text
}

// Bytes that print as their digits.
#[derive(Drop)]
pub struct Hex<'a>(pub &'a [u8]);

impl fmt::Display for Hex<'_> {
    ghost output = { λ h. Some (hex_of h.0.now) };

    fn fmt<W: fmt::Write>(&self, f: &mut fmt::Formatter<W>) -> fmt::Result {
        let mut room = [0u8; 128];
        for part in self.0.chunks(64) {
            f.write_str(hex_text(&mut room, part))?;
        }
        Ok(())
    }
}
