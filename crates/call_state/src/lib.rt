// What the calls over a state in lent bytes share: a status on the wire, and a changed state written back.
#![tactic(auto)]

ghost use Rattle.std.specs.Prelude.{◌≡◌, ◌≤◌, length};
ghost use Rattle.service.specs.Status.{number};
ghost use Rattle.layout.specs.Layout.{state_length};
ghost use Rattle.digests.specs.Digests.{on_wire};
ghost use Rattle.call_state.specs.Calls.{kept_if};

use service::{State, Status};

// 01, When the panel answers no: what an error's number gets on the wire.
const ERROR: u64 = 0x8000_0000_0000_0000;

// Device error, on the wire.
pub const DEVICE: u64 = ERROR + 7;

// 01: "An error status on the wire is 2^63 + the number"; success is 0.
pub fn on_wire(n: u64) -> u64
    requires { n ≤ 11 }
    ensures { result ≡ on_wire n }
{
    if n == 0 { 0 } else { ERROR + n }
}

// A status on the wire.
#[tactic(auto, using(crate::proofs::Laws::number_small))]
pub fn status_on_wire(status: Status) -> u64
    ensures { result ≡ on_wire (number status) }
{
    on_wire(u64::from(status))
}

// Writes a state that a call has changed back.
#[tactic(auto, unfolding(crate::specs::Calls::kept_if))]
pub fn keep(state: &mut [u8], changed: bool, s: State)
    requires { length state.old ≡ state_length }
    ensures { state.new ≡ kept_if changed s state.old }
{
    if changed {
        layout::put_state(state, s);
    }
}
