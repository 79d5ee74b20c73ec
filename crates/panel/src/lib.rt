// The calls that the washer's firmware links. A slice is a pointer and a length in C.
#![tactic(auto)]

ghost use Rattle.std.specs.Prelude.{◌≡◌, length};
ghost use Rattle.sha1_hash.specs.Sha1.{sha1};
ghost use Rattle.sha256.specs.Sha256.{sha256};
ghost use Rattle.digests.specs.Digests.{outcome, digested, extended};
ghost use Rattle.call_state.specs.Calls.{call_outcome};
ghost use Rattle.call_open.specs.OpenCall.{open_call};
ghost use Rattle.call_request.specs.RequestCall.{request_call};
ghost use Rattle.call_read.specs.ReadCall.{read_call_outcome, read_call};
ghost use Rattle.call_replay.specs.Replays.{begin_call_outcome, begin_call, slice_call_outcome, slice_call};
ghost use Rattle.version.specs.Version.{version};

use digests::{Sha1, Sha256};

// Fills digest, which must be 20 bytes, with the SHA-1 digest of message.
#[unsafe(no_mangle)]
pub extern "C" fn sevgharin_sha1(message: &[u8], digest: &mut [u8]) -> u64
    ensures { outcome result digest.new ≡ digested sha1 20 message.now digest.old }
{
    digests::digest::<Sha1>(message, digest)
}

// Fills digest, which must be 32 bytes, with the SHA-256 digest of message.
#[unsafe(no_mangle)]
pub extern "C" fn sevgharin_sha256(message: &[u8], digest: &mut [u8]) -> u64
    ensures { outcome result digest.new ≡ digested sha256 32 message.now digest.old }
{
    digests::digest::<Sha256>(message, digest)
}

// Extends register with digest, both 20 bytes, in the SHA-1 bank.
#[unsafe(no_mangle)]
pub extern "C" fn sevgharin_sha1_extend(register: &mut [u8], digest: &[u8]) -> u64
    ensures { outcome result register.new ≡ extended sha1 20 register.old digest.now }
{
    digests::extend::<Sha1>(register, digest)
}

// Extends register with digest, both 32 bytes, in the SHA-256 bank.
#[unsafe(no_mangle)]
pub extern "C" fn sevgharin_sha256_extend(register: &mut [u8], digest: &[u8]) -> u64
    ensures { outcome result register.new ≡ extended sha256 32 register.old digest.now }
{
    digests::extend::<Sha256>(register, digest)
}

// Opens the panel's part. state must be layout::STATE bytes, and is overwritten.
#[unsafe(no_mangle)]
pub extern "C" fn sevgharin_open(
    state: &mut [u8],
    bitmap: u32,
    old: &mut [u8],
    agile: &mut [u8],
    table: &mut [u8],
) -> u64
    ensures { call_outcome result state.new old.new agile.new table.new ≡ open_call state.old bitmap old.old agile.old table.old }
{
    call_open::open(state, bitmap, old, agile, table)
}

// HashLogExtendEvent on the state that lies in state.
#[unsafe(no_mangle)]
pub extern "C" fn sevgharin_request(
    state: &mut [u8],
    flags: u64,
    request: &[u8],
    message: &[u8],
    old: &mut [u8],
    agile: &mut [u8],
    table: &mut [u8],
) -> u64
    ensures { call_outcome result state.new old.new agile.new table.new ≡ request_call state.old flags message.now request.now old.old agile.old table.old }
{
    call_request::request(state, flags, request, message, old, agile, table)
}

// GetEventLog on the state that lies in state. answer must be layout::STORE bytes, and is filled with the log's used length, closed, last entry.
#[unsafe(no_mangle)]
pub extern "C" fn sevgharin_read_log(
    state: &mut [u8],
    format: u32,
    old: &[u8],
    agile: &[u8],
    table: &[u8],
    answer: &mut [u8],
) -> u64
    ensures { read_call_outcome result state.new answer.new ≡ read_call state.old format (length old.now) (length agile.now) (length table.now) answer.old }
{
    call_read::read_log(state, format, old, agile, table, answer)
}

// Begins the replay of a log's used bytes. replay must be placed::REPLAY bytes, and is overwritten.
#[unsafe(no_mangle)]
pub extern "C" fn sevgharin_begin(replay: &mut [u8], format: u32, log: &[u8]) -> u64
    ensures { begin_call_outcome result replay.new ≡ begin_call replay.old format log.now }
{
    call_replay::begin(replay, format, log)
}

// Takes at most so many entries as asked. answer must be placed::ANSWER bytes, and is filled with the entries taken, the refusal's number and
// offset, and whether the replay is done.
#[unsafe(no_mangle)]
pub extern "C" fn sevgharin_slice(
    replay: &mut [u8],
    log: &[u8],
    asked: u64,
    answer: &mut [u8],
) -> u64
    ensures { slice_call_outcome result replay.new answer.new ≡ slice_call replay.old log.now asked answer.old }
{
    call_replay::slice(replay, log, asked, answer)
}

// The interface's number and the sizes of a state and of a replay, for a caller to hold against its header's.
#[unsafe(no_mangle)]
pub extern "C" fn sevgharin_version() -> u64
    ensures { result ≡ version }
{
    version::version()
}
