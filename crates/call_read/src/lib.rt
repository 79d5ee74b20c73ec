// GetEventLog over a state in lent bytes, told in an answer record.
#![tactic(auto)]

ghost use Rattle.std.specs.Prelude.{◌≡◌, length};
ghost use Rattle.call_read.specs.ReadCall.{read_call_outcome, filled, nothing, read_call};

use service::Status;
use store::Store;

// Fills an answer record of layout::STORE bytes with a log's marks.
#[tactic(auto, using(service::proofs::Writes::writes, layout::proofs::Laws::length_store), unfolding(crate::specs::ReadCall::filled))]
fn show(answer: &mut [u8], s: Store)
    ensures { answer.new ≡ filled s answer.old }
{
    if answer.len() == layout::STORE {
        layout::put_store(answer, 0, s);
    }
}

// 01: "Refused readings show length 0, no last entry, not closed".
fn show_nothing(answer: &mut [u8])
    ensures { answer.new ≡ filled nothing answer.old }
{
    show(answer, Store::default());
}

// GetEventLog on the state that lies in state. answer must be layout::STORE bytes, and is filled with the log's used length, closed, last entry.
#[tactic(auto, using(call_state::proofs::Laws::length_of), unfolding(crate::specs::ReadCall::read_call, crate::specs::ReadCall::filled))]
pub fn read_log(
    state: &mut [u8],
    format: u32,
    old: &[u8],
    agile: &[u8],
    table: &[u8],
    answer: &mut [u8],
) -> u64
    ensures { read_call_outcome result state.new answer.new ≡ read_call state.old format (length old.now) (length agile.now) (length table.now) answer.old }
{
    if !layout::encodes(state) {
        show_nothing(answer);
        return call_state::DEVICE;
    }
    let reading = service::read_log(layout::state_at(state), format, old, agile, table);
    if reading.status != Status::DeviceError && answer.len() != layout::STORE {
        return digests::INVALID;
    }
    show(
        answer,
        Store {
            used: reading.length,
            closed: reading.closed,
            last: reading.last,
        },
    );
    call_state::keep(state, reading.status == Status::Success, reading.state);
    call_state::status_on_wire(reading.status)
}
