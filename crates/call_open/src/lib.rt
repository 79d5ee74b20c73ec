// The panel's part opened, its state written into lent bytes.
#![tactic(auto)]

ghost use Rattle.std.specs.Prelude.{◌≡◌};
ghost use Rattle.call_state.specs.Calls.{call_outcome};
ghost use Rattle.call_open.specs.OpenCall.{open_call};

// Opens the panel's part. state must be layout::STATE bytes, and is overwritten.
#[tactic(auto, unfolding(crate::specs::OpenCall::open_call))]
pub fn open(
    state: &mut [u8],
    bitmap: u32,
    old: &mut [u8],
    agile: &mut [u8],
    table: &mut [u8],
) -> u64
    ensures { call_outcome result state.new old.new agile.new table.new ≡ open_call state.old bitmap old.old agile.old table.old }
{
    if state.len() != layout::STATE {
        return digests::INVALID;
    }
    let answer = service::open(bitmap, old, agile, table);
    layout::put_state(state, answer.state);
    call_state::status_on_wire(answer.status)
}
