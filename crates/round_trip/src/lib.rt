// The two round trips of a schedule file: the theorems are in specs/RoundTrips, and these two calls go each round.
#![tactic(auto)]

ghost use Rattle.std.specs.Prelude.{◌≡◌};
ghost use Rattle.round_trip.specs.RoundTrips.{Rewrites, Rereads};

use refusal::Refusal;
use schedule::Schedule;

// Reads a file and writes what was read into lent bytes: they then hold the file itself, or a refusal leaves them.
pub fn rewrite(file: &[u8], out: &mut [u8]) -> Result<usize, Refusal>
    ensures { Rewrites file.now out.old result out.new }
{
    let s = file_reader::read_file(file)?;
    file_writer::write_file(s, out)
}

// Writes a schedule into lent bytes and reads them: it answers the schedule itself, with zeros past its counts, or the refusal of writing.
pub fn reread(s: Schedule, out: &mut [u8]) -> Result<Schedule, Refusal>
    ensures { Rereads s out.old result out.new }
{
    let n = file_writer::write_file(s, out)?;
    file_reader::read_file(&out[..n])
}
