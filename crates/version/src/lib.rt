// What tells a C header and an archive of different layouts apart.
#![tactic(auto)]

ghost use Rattle.std.specs.Prelude.{◌≡◌};
ghost use Rattle.version.specs.Version.{version};

// The number of the set of calls.
const INTERFACE: u64 = 1;

// The interface's number, and the bytes of a state and of a replay: a header that says another number has other sizes or calls.
pub fn version() -> u64
    ensures { result ≡ version }
{
    INTERFACE * 0x1_0000_0000 + (layout::STATE as u64 * 0x1_0000 + placed::REPLAY as u64)
}
