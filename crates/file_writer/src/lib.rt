// Writing a schedule file: any schedule is refused or written whole into lent bytes.
// `write_file` is the entry point; the other functions judge a schedule or store one part of its file.
#![tactic(auto)]

ghost use Rattle.std.specs.Prelude.{◌≡◌, true, ◌++◌, map, ◌+◌, ◌*◌, ◌≤◌, ◌<◌, length};
ghost use Rattle.little_endian.specs.LittleEndian.{bytes_of};
ghost use Rattle.std.proofs.lemmas.List.Edits.{sets};
ghost use Rattle.schedule.specs.Schedules.{places_of};
ghost use Rattle.schedule_checks.specs.Checks.{places_right};
ghost use Rattle.file_writer.specs.Writing.{written_of, Writes};
ghost use Rattle.file_writer.specs.FileBytes.{task_bytes, tasks_bytes, numbers_bytes, chain_bytes, chains_bytes, gap_bytes};

use refusal::Refusal;
use schedule::{NumberedTask, Route, Schedule};

// ---- the checks

// The length of a chain record.
fn route_length(c: Route) -> usize
    requires { c.count ≤ 12 }
    ensures { (result ≡ length (chain_bytes (places_of c))) × (result ≤ 28) }
{
    4 + 2 * c.count
}

// The length of the chain records.
fn routes_length(routes: &[Route]) -> usize
    requires { (length routes.now ≤ 4) × (places_right routes.now ≡ true) }
    ensures { (result ≡ length (chains_bytes (map places_of routes.now))) × (result ≤ 112) }
{
    let mut long = 0;
    for route in routes {
        long += route_length(*route);
    }
    long
}

// The length of the gap record; a gap of 0 has none.
fn gap_length(gap: u64) -> usize
    ensures { (result ≡ length (gap_bytes gap)) × (result ≤ 6) }
{
    if gap == 0 {
        return 0;
    }
    6
}

// What writing answers, `lent` bytes being lent to it: 8, 5, 6 of the schedule, 11, or the file's length.
fn judge(s: Schedule, lent: usize) -> Result<usize, Refusal>
    ensures { result ≡ written_of s lent }
{
    schedule_checks::check(s)?;
    let long = 18 * s.count + routes_length(&s.routes[..s.chains]) + gap_length(s.gap) + 4;
    if lent < long {
        return Err(Refusal::LISTS_TOO_SHORT);
    }
    Ok(long)
}

// ---- the parts of the file

// Stores a task record.
fn put_task(out: &mut [u8], at: usize, t: NumberedTask)
    requires { at + 18 ≤ length out.old }
    ensures { out.new ≡ sets out.old at (task_bytes t) }
{
    let a = t.task;
    little_endian::put_number(out, at, 2, 18);
    little_endian::put_number(out, at + 2, 2, 1);
    little_endian::put_number(out, at + 4, 2, t.number);
    little_endian::put_number(out, at + 6, 4, a.period);
    little_endian::put_number(out, at + 10, 4, a.duration);
    little_endian::put_number(out, at + 14, 4, a.phase);
}

// Stores the task records, from the first byte on.
fn put_tasks(out: &mut [u8], tasks: &[NumberedTask])
    requires { 18 * length tasks.now ≤ length out.old }
    ensures { out.new ≡ sets out.old 0 (tasks_bytes tasks.now) }
{
    for (i, task) in tasks.iter().enumerate() {
        put_task(out, 18 * i, *task);
    }
}

// Stores the numbers of a chain, 2 bytes each.
fn put_places(out: &mut [u8], at: usize, chain: &[u64])
    requires { at + 2 * length chain.now ≤ length out.old }
    ensures { out.new ≡ sets out.old at (numbers_bytes chain.now) }
{
    for (i, number) in chain.iter().enumerate() {
        little_endian::put_number(out, at + 2 * i, 2, *number);
    }
}

// Stores the length and the kind of a record.
fn put_head(out: &mut [u8], at: usize, long: u64, kind: u64)
    requires { at + 4 ≤ length out.old }
    ensures { out.new ≡ sets out.old at (bytes_of 2 long ++ bytes_of 2 kind) }
{
    little_endian::put_number(out, at, 2, long);
    little_endian::put_number(out, at + 2, 2, kind);
}

// Stores a chain record, and answers the offset after it.
fn put_route(out: &mut [u8], at: usize, c: Route) -> usize
    requires { (c.count ≤ 12) × (at + length (chain_bytes (places_of c)) ≤ length out.old) }
    ensures { (out.new ≡ sets out.old at (chain_bytes (places_of c))) × (result ≡ at + length (chain_bytes (places_of c))) }
{
    put_head(out, at, 4 + 2 * (c.count as u64), 2);
    put_places(out, at + 4, &c.places[..c.count]);
    at + 4 + 2 * c.count
}

// Stores the chain records, and answers the offset after them.
fn put_routes(out: &mut [u8], from: usize, routes: &[Route]) -> usize
    requires { (places_right routes.now ≡ true) × (from + length (chains_bytes (map places_of routes.now)) ≤ length out.old) }
    ensures { (out.new ≡ sets out.old from (chains_bytes (map places_of routes.now))) × (result ≡ from + length (chains_bytes (map places_of routes.now))) }
{
    let mut at = from;
    for route in routes {
        at = put_route(out, at, *route);
    }
    at
}

// Stores the gap record, and answers the offset after it. Order 5: a gap of 0 is left out.
fn put_gap(out: &mut [u8], at: usize, gap: u64) -> usize
    requires { at + length (gap_bytes gap) ≤ length out.old }
    ensures { (out.new ≡ sets out.old at (gap_bytes gap)) × (result ≡ at + length (gap_bytes gap)) }
{
    if gap == 0 {
        return at;
    }
    put_head(out, at, 6, 4);
    little_endian::put_number(out, at + 4, 2, gap);
    at + 6
}

// Writes a schedule's file into lent bytes, and answers its length.
pub fn write_file(s: Schedule, out: &mut [u8]) -> Result<usize, Refusal>
    ensures { Writes s out.old result out.new }
{
    let long = judge(s, out.len())?;
    put_tasks(out, &s.tasks[..s.count]);
    let at = put_routes(out, 18 * s.count, &s.routes[..s.chains]);
    let end = put_gap(out, at, s.gap);
    put_head(out, end, 4, 3);
    Ok(long)
}
