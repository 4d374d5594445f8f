// Program `chainreport`: reads a schedule file on standard input and prints its report, or the one line of its refusal.
//
// Of a longer input the first 4,096 bytes are judged, as if it ended there: no more are read.
// A read or a write that fails is told on standard error, with the system's reason; where a read failed there is no report. The status is 0 all the same, as it always was, but 1 where the reason itself cannot be told.
// What text belongs to the bytes read is proved (`report::report`), and that the 92,000 bytes lent to it hold every text.
// Not proved, since no contract can say it: that the system's read gives the bytes of standard input, and that its write puts these bytes out.
#![tactic(auto)]

ghost use Rattle.std.specs.Prelude.{◌≤◌, length, IfOk};

use failure::reason;
use std::io;
use std::io::{Read, Write};

// Reads until the bytes lent are full or the input ends: how many came, or the error of the read that failed.
fn read_input<R: Read>(reader: &mut R, input: &mut [u8]) -> io::Result<usize>
    ensures { IfOk result (λ bytes. bytes ≤ length input.new) }
{
    let mut done: usize = 0;
    while done < input.len() {
        match reader.read(&mut input[done..])? {
            0 => break,
            n => done += n,
        }
    }
    Ok(done)
}

// Tells what failed, with the system's reason. No contract can say what is printed, so it is no public function: `chainreport` and `chainload` have it each.
fn tell<R: Eprint + Alloc>(rt: &R, what: &str, error: io::Error) -> io::Result<()> {
    let text = format!(in rt.alloc(); "{error}")?;
    eprintln!(rt; "{what}: {}", reason(text.as_str()))
}

fn main(rt: HostRuntime) -> io::Result<()> {
    let mut input = [0u8; 4096];
    let n = match read_input(&mut rt.stdin(), &mut input) {
        Ok(n) => n,
        Err(e) => return tell(&rt, "chainreport: reading standard input", e),
    };
    let mut out = [0u8; 92000];
    let long = report::report(&input[..n], &mut out);
    io::writer(&rt)
        .write_all(&out[..long])
        .or_else(|e| tell(&rt, "chainreport: writing the report", e))
}
