// Program `chainload SEED PLACES`: writes the schedule file of the chain that a seed and a number of places make to standard output.
// The same words give the same bytes on every machine, so clubs can trade the two numbers for the file.
//
// Words that it does not take are told by one line on standard error, and nothing is written to standard output. The status is 0 all the same, as it always was; ./load gives one.
// A write that fails is told on standard error, with the system's reason; the status is 1 where that cannot be told either.
// Which bytes answer the words, and whether they are the file or a line, is proved (`load_file::answer_to`), also that they fit. A word of more than 20 bytes comes as an empty one; neither is a number.
// Not proved, since no contract can say it: that these are the words of the command line, and that a file goes to standard output and a line to standard error. tests/load.py looks at that.
#![tactic(auto)]

ghost use Rattle.std.specs.Prelude.{◌≤◌, length};

use failure::reason;
use std::env::{Env, FillError};
use std::io;
use std::io::Write;

// Word `i` of the command line: its length. One that is not there, or that is longer than the bytes lent, comes as an empty one.
fn word<R: Env>(rt: &R, i: usize, bytes: &mut [u8]) -> usize
    ensures { result ≤ length bytes.new }
{
    rt.arg(i, bytes).unwrap_or(0)
}

// How many words there are, the program's own name among them.
fn word_count<R: Env>(rt: &R) -> usize {
    (0..usize::MAX)
        .take_while(|i| !matches!(rt.arg(*i, &mut []), Err(FillError::NotPresent)))
        .count()
}

// Tells what failed, with the system's reason. No contract can say what is printed, so it is no public function: `chainreport` and `chainload` have it each.
fn tell<R: Eprint + Alloc>(rt: &R, what: &str, error: io::Error) -> io::Result<()> {
    let text = format!(in rt.alloc(); "{error}")?;
    eprintln!(rt; "{what}: {}", reason(text.as_str()))
}

fn main(rt: HostRuntime) -> io::Result<()> {
    let mut seed = [0u8; 20];
    let mut places = [0u8; 20];
    let m = word(&rt, 1, &mut seed);
    let n = word(&rt, 2, &mut places);
    match load_file::answer_to(word_count(&rt), &seed[..m], &places[..n]) {
        Ok(file) => io::writer(&rt)
            .write_all(&file.bytes[..file.long])
            .or_else(|e| tell(&rt, "chainload: writing the schedule file", e)),
        Err(line) => {
            let _ = rt.stderr().write_all(&line.bytes[..line.long]);
            Ok(())
        }
    }
}
