// Prints what 001's request leaves, a short story and three refused openings. second/ gives the same list from the papers; P1 to P12 are proved in
// `sheet`.
// A request's or an opening's line: its name, the status, the used lengths of the 1.2 log, the agile log and the table, whether the two logs are
// closed, whether the table is armed and an 11 was given, the bytes of the three buffers, and the SHA-256 digest of all registers. A reading's
// line: its name, the status, the used length, the last entry, whether the log is closed, and whether the table is armed.
#![tactic(auto)]

ghost use Rattle.std.specs.Prelude.{◌≡◌, Some, replicate};
ghost use Rattle.service.specs.Answer.{outcome_of};
ghost use Rattle.service.specs.Opening.{opening_of};
ghost use Rattle.service.specs.Reading.{read_outcome, reading_of};
ghost use Rattle.request.specs.Request as asked;
ghost use Rattle.sheet_run.specs.Lines.{answer_text, marks_text, reading_text};
ghost use Rattle.sheet_run.specs.Request.{request_of};

use hex_digits::Hex;
use service::{Answer, Reading, State};
use std::{fmt, io};

// The flag of a request that extends and logs nothing.
const EXTEND_ONLY: u64 = 1;

// 001's request: the data, and the event.
const FOX: [u8; 43] = *b"The quick brown fox jumps over the lazy dog";

const EVENT: [u8; 18] = *b"TCG2 Protocol Test";

// 001's request over fresh buffers: a name, the bitmap and the flags.
const REQUESTS: [(&str, u32, u64); 6] = [
    ("fox-1", 1, 0),
    ("fox-2", 2, 0),
    ("fox-3", 3, 0),
    ("extend-1", 1, EXTEND_ONLY),
    ("extend-2", 2, EXTEND_ONLY),
    ("extend-3", 3, EXTEND_ONLY),
];

// The story's requests: every store takes two entries, the third closes the agile log, and the others go on; then an extend-only request answers 11
// again.
const STORY: [(&str, u64); 4] = [
    ("story-fox-1", 0),
    ("story-fox-2", 0),
    ("story-fox-3", 0),
    ("story-extend", EXTEND_ONLY),
];

// The bytes that 001's request lends: where each field stands is where the one before it ends.
#[tactic(auto, using(wire::proofs::Laws::length_le))]
fn request_bytes() -> [u8; 36]
    ensures { result ≡ request_of 36 16 1 EVENT }
{
    let mut bytes = [0u8; 36];
    let header_size = wire::put_le(&mut bytes, 0, 4, 36);
    let version = wire::put_le(&mut bytes, header_size, 4, 14);
    let register = wire::put_le(&mut bytes, version, 2, 1);
    let kind = wire::put_le(&mut bytes, register, 4, 16);
    let event = wire::put_le(&mut bytes, kind, 4, 1);
    wire::put_bytes(&mut bytes, event, &EVENT);
    bytes
}

// The panel's part as firmware keeps it: what it answered last, with the state in it, and the buffers that it is lent.
#[derive(Drop)]
struct Panel<const OLD: usize, const AGILE: usize, const TABLE: usize> {
    answer: Answer,
    old_log: [u8; OLD],
    agile_log: [u8; AGILE],
    table: [u8; TABLE],
}

impl<const OLD: usize, const AGILE: usize, const TABLE: usize> Panel<OLD, AGILE, TABLE> {
    // Opens over buffers whose bytes are all 165.
    fn open(bitmap: u32) -> Self
        ensures { outcome_of result.answer result.old_log result.agile_log result.table
            ≡ opening_of bitmap (replicate OLD 165) (replicate AGILE 165) (replicate TABLE 165) }
    {
        let mut old_log = [165u8; OLD];
        let mut agile_log = [165u8; AGILE];
        let mut table = [165u8; TABLE];
        let answer = service::open(bitmap, &mut old_log, &mut agile_log, &mut table);
        Panel {
            answer,
            old_log,
            agile_log,
            table,
        }
    }

    // Asks 001's request.
    fn ask(&mut self, flags: u64)
        ensures { outcome_of self.new.answer self.new.old_log self.new.agile_log self.new.table
            ≡ asked.request_of self.old.answer.state flags FOX (request_of 36 16 1 EVENT)
            self.old.old_log self.old.agile_log self.old.table }
    {
        self.answer = request::request(
            self.answer.state,
            flags,
            &FOX,
            &request_bytes(),
            &mut self.old_log,
            &mut self.agile_log,
            &mut self.table,
        );
    }

    // Reads a log.
    fn read(&mut self, format: u32) -> Told
        ensures told { read_outcome result.0 ≡ reading_of self.old.answer.state format OLD AGILE TABLE }
        ensures kept { self.new ≡ record self.old { answer = record self.old.answer { state = result.0.state } } }
    {
        let reading = service::read_log(
            self.answer.state,
            format,
            &self.old_log,
            &self.agile_log,
            &self.table,
        );
        self.answer.state = reading.state;
        Told(reading)
    }
}

// What an answer says of the stores.
#[derive(Drop)]
struct Marks<'a>(&'a Answer);

impl fmt::Display for Marks<'_> {
    ghost output = { λ m. Some (marks_text m.0.now) };

    fn fmt<W: fmt::Write>(&self, f: &mut fmt::Formatter<W>) -> fmt::Result {
        let State {
            old,
            agile,
            table,
            armed,
            full,
            ..
        } = self.0.state;
        write!(
            f,
            "{} {} {} {} {} {} {} {}",
            u64::from(self.0.status),
            old.used,
            agile.used,
            table.used,
            u8::from(old.closed),
            u8::from(agile.closed),
            u8::from(armed),
            u8::from(full)
        )
    }
}

impl<const OLD: usize, const AGILE: usize, const TABLE: usize> fmt::Display
    for Panel<OLD, AGILE, TABLE> {
    ghost output = { λ p. Some (answer_text p.answer p.old_log p.agile_log p.table) };

    fn fmt<W: fmt::Write>(&self, f: &mut fmt::Formatter<W>) -> fmt::Result {
        write!(
            f,
            "{} {} {} {} {}",
            Marks(&self.answer),
            Hex(&self.old_log),
            Hex(&self.agile_log),
            Hex(&self.table),
            Hex(&sha256::digest(&self.answer.state.registers.bytes))
        )
    }
}

// What a reading told.
#[derive(Drop)]
struct Told(Reading);

impl fmt::Display for Told {
    ghost output = { λ t. Some (reading_text t.0) };

    fn fmt<W: fmt::Write>(&self, f: &mut fmt::Formatter<W>) -> fmt::Result {
        let Reading {
            status,
            state,
            length,
            last,
            closed,
        } = self.0;
        write!(f, "{} {length}", u64::from(status))?;
        match last {
            None => write!(f, " none")?,
            Some(place) => write!(f, " {place}")?,
        }
        write!(f, " {} {}", u8::from(closed), u8::from(state.armed))
    }
}

// For each request a line, and one for a reading of the agile log behind it, which shows the last entry.
fn print_requests(rt: &impl Print) -> io::Result<()> {
    for (name, bitmap, flags) in REQUESTS {
        let mut panel = Panel::<300, 300, 300>::open(bitmap);
        panel.ask(flags);
        println!(rt; "{name} {panel}")?;
        let told = panel.read(2);
        println!(rt; "{name}-log {told}")?;
    }
    Ok(())
}

// A reading arms the table, requests follow, and both logs are read at the end.
fn print_story(rt: &impl Print) -> io::Result<()> {
    let mut panel = Panel::<300, 300, 300>::open(3);
    println!(rt; "story-read-2 {}", panel.read(2))?;
    for (name, flags) in STORY {
        panel.ask(flags);
        println!(rt; "{name} {panel}")?;
    }
    println!(rt; "story-end-1 {}", panel.read(1))?;
    println!(rt; "story-end-2 {}", panel.read(2))
}

fn main(rt: HostRuntime) -> io::Result<()> {
    print_requests(&rt)?;
    print_story(&rt)?;
    println!(rt; "open-bitmap-0 {}", Panel::<100, 200, 100>::open(0))?;
    println!(rt; "open-table-15 {}", Panel::<100, 200, 15>::open(3))?;
    println!(rt; "open-agile-68 {}", Panel::<100, 68, 100>::open(3))
}
