// A replay in lent bytes begun and taken on. Replay's numbers stand as they are.
#![tactic(auto)]

ghost use Rattle.std.specs.Prelude.{◌≡◌};
ghost use Rattle.call_replay.specs.Replays.{begin_call_outcome, begin_call, slice_call_outcome, slice_call};

use replay::Refusal;

// 01, Replay: a place beyond the log, or no replay at all.
const PLACE_BEYOND: u64 = 35;

// Begins the replay of a log's used bytes. replay must be placed::REPLAY bytes, and is overwritten.
#[tactic(auto, unfolding(crate::specs::Replays::begin_call))]
pub fn begin(replay: &mut [u8], format: u32, log: &[u8]) -> u64
    ensures { begin_call_outcome result replay.new ≡ begin_call replay.old format log.now }
{
    if replay.len() != placed::REPLAY {
        return PLACE_BEYOND;
    }
    let begun = replay::begin(format, log);
    placed::put_replay(replay, &begun.replay);
    placed::number_of(begun.refused)
}

// Takes at most so many entries as asked. answer must be placed::ANSWER bytes, and is filled with the entries taken, the refusal's number and
// offset, and whether the replay is done.
#[tactic(auto, unfolding(crate::specs::Replays::slice_call, crate::specs::Replays::carried_if))]
pub fn slice(replay: &mut [u8], log: &[u8], asked: u64, answer: &mut [u8]) -> u64
    ensures { slice_call_outcome result replay.new answer.new ≡ slice_call replay.old log.now asked answer.old }
{
    if replay.len() != placed::REPLAY || answer.len() != placed::ANSWER {
        return PLACE_BEYOND;
    }
    let slice = placed::replay_at(replay).slice(log, asked as usize);
    let refused = slice.refused;
    let number = placed::number_of(refused);
    let offset = placed::offset_of(refused);
    placed::put_answer(answer, slice.taken, number, offset, slice.done);
    // Refused for anything but an entry, a slice hands the replay back as it was given.
    if refused.is_none_or(|refused| matches!(refused.refusal, Refusal::Entry(_))) {
        placed::put_replay(replay, &slice.replay);
    }
    number
}
