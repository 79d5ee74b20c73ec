// Reads a log of format 2 from standard input and prints its registers, or why it is refused (document 01, Program).
#![tactic(auto)]

ghost use Rattle.std.specs.Prelude.{◌≡◌, ◌≢◌, ◌<◌, ◌≤◌, length, take, IfOk, IfErr};
ghost use Rattle.std.specs.Io.{ReadsAtMost};
ghost use Rattle.std.specs.Io.KnownBytes.{Consumes, IsAtEnd, ReadConsumes};
ghost use Rattle.std.specs.IoError.{error_kind};

use std::io;
use std::io::ErrorKind;

// The bytes of the longest log, and one more: a longer log is refused without its rest.
const INPUT: usize = 65537;

// Reads once, and again as long as a signal interrupts it before it moved a byte. A proved loop has to end, so the tries are counted, to a number
// that no run reaches; were it reached, the read has failed.
fn read_some<R: io::Read>(reader: &mut R, buf: &mut [u8]) -> io::Result<usize>
    ensures bound { ReadsAtMost result buf.new }
    ensures bytes { ReadConsumes (R.remaining reader.old) (R.remaining reader.new) result buf.new }
    ensures retried { IfErr result (λ e. error_kind e ≢ ErrorKind.Interrupted) }
{
    for _ in 0..u64::MAX {
        match reader.read(buf) {
            Err(e) if e.kind() == ErrorKind::Interrupted => {}
            got => return got,
        }
    }
    Err(io::Error::from(ErrorKind::TimedOut))
}

// Reads until buf is full or the input ends, and says how many bytes it took. A read that fails fails the whole.
fn fill<R: io::Read>(reader: &mut R, buf: &mut [u8]) -> io::Result<usize>
    ensures bound { ReadsAtMost result buf.new }
    ensures bytes { IfOk result (λ n. Consumes (R.remaining reader.old) (R.remaining reader.new) (take n buf.new)) }
    ensures end { IfOk result (λ n. n < length buf.new → IsAtEnd (R.remaining reader.new)) }
    ensures retried { IfErr result (λ e. error_kind e ≢ ErrorKind.Interrupted) }
{
    let mut done = 0;
    while done < buf.len() {
        let n = read_some(reader, &mut buf[done..])?;
        if n == 0 {
            break;
        }
        done += n;
    }
    Ok(done)
}

// Prints what a log comes to.
fn show(rt: &(impl Print + Eprint), log: &[u8]) {
    let mut out = [0u8; printed::OUTPUT];
    let k = printed::print(log, &mut out);
    if rt.write_all(&out[..k]).is_err() {
        let _ = eprintln!(rt;
            "registers: standard output couldn't be written whole: what is there is no evidence"
        );
    }
}

fn main(rt: HostRuntime) {
    let mut log = [0u8; INPUT];
    match fill(&mut rt.stdin(), &mut log) {
        Ok(n) => show(&rt, &log[..n]),
        Err(_) => {
            let _ = eprintln!(rt;
                "registers: standard input couldn't be read to its end: nothing is printed"
            );
        }
    }
}
