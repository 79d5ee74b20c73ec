// Prints the digests of FIPS 180-4's examples, of document 01's two messages, and of a patterned message of every length from 0 to 300.
// second/ and sha1sum and sha256sum give the same list.
#![tactic(auto)]

ghost use Rattle.std.specs.Prelude.{◌≡◌, ◌≤◌, length, Some};
ghost use Rattle.std.specs.Option.{option_map};
ghost use Rattle.vectors.specs.Line.{line_of, pattern_of};

use hex_digits::Hex;
use std::{fmt, io};

// The messages that have a name.
const NAMED: [(&str, &[u8]); 6] = [
    ("empty", b""),
    ("zeros", &[0; 4]),
    ("abc", b"abc"),
    (
        "fips448",
        b"abcdbcdecdefdefgefghfghighijhijkijkljklmklmnlmnomnopnopq",
    ),
    (
        "fips896",
        b"abcdefghbcdefghicdefghijdefghijkefghijklfghijklmghijklmnhijklmnoijklmnopjklmnopqklmnopqrlmnopqrsmnopqrstnopqrstu",
    ),
    ("fox", b"The quick brown fox jumps over the lazy dog"),
];

// A line of the list: the hash's name, the message's name and the digest.
#[derive(Drop)]
struct Line<'n, 'd, N> {
    hash: &'static str,
    name: &'n N,
    digest: &'d [u8],
}

impl<N: fmt::Display> fmt::Display for Line<'_, '_, N> {
    ghost output = { λ l. option_map (λ name. line_of l.hash.now name l.digest.now) (N.output l.name.now) };

    fn fmt<W: fmt::Write>(&self, f: &mut fmt::Formatter<W>) -> fmt::Result {
        writeln!(f, "{} {} {}", self.hash, self.name, Hex(self.digest))
    }
}

fn print_both<N: fmt::Display>(rt: &impl Print, name: &N, message: &[u8]) -> io::Result<()> {
    rt.print(Line {
        hash: "sha1",
        name,
        digest: &sha1_hash::digest(message),
    })?;
    rt.print(Line {
        hash: "sha256",
        name,
        digest: &sha256::digest(message),
    })
}

// Makes message the patterned one of its length.
fn fill(message: &mut [u8])
    requires { length message.old ≤ 300 }
    ensures { message.new ≡ pattern_of (length message.old) (length message.old) }
{
    let n = message.len();
    for (i, byte) in message.iter_mut().enumerate() {
        *byte = ((i * 31 + n * 17 + 5) % 256) as u8;
    }
}

fn print_pattern(rt: &impl Print, n: usize) -> io::Result<()>
    requires { n ≤ 300 }
{
    let mut message = [0u8; 300];
    fill(&mut message[..n]);
    print_both(rt, &format_args!("{n:03}"), &message[..n])
}

fn main(rt: HostRuntime) -> io::Result<()> {
    for (name, message) in NAMED {
        print_both(&rt, &name, message)?;
    }
    for n in 0..=300 {
        print_pattern(&rt, n)?;
    }
    Ok(())
}
