// HashLogExtendEvent over a state in lent bytes.
#![tactic(auto)]

ghost use Rattle.std.specs.Prelude.{◌≡◌};
ghost use Rattle.call_state.specs.Calls.{call_outcome};
ghost use Rattle.call_request.specs.RequestCall.{request_call};

// HashLogExtendEvent on the state that lies in state.
#[tactic(auto, using(call_state::proofs::Laws::length_of), unfolding(crate::specs::RequestCall::request_call))]
pub fn request(
    state: &mut [u8],
    flags: u64,
    request: &[u8],
    message: &[u8],
    old: &mut [u8],
    agile: &mut [u8],
    table: &mut [u8],
) -> u64
    ensures { call_outcome result state.new old.new agile.new table.new ≡ request_call state.old flags message.now request.now old.old agile.old table.old }
{
    if !layout::encodes(state) {
        return call_state::DEVICE;
    }
    let answer = request::request(
        layout::state_at(state),
        flags,
        message,
        request,
        old,
        agile,
        table,
    );
    call_state::keep(state, answer.status.is_accepted(), answer.state);
    call_state::status_on_wire(answer.status)
}
