// Reading a schedule file: any bytes are accepted whole or refused at the record where the first fault stands.
// `read_file` is the entry point; the other functions judge or read one record.
#![tactic(auto)]

ghost use Rattle.std.specs.Prelude.{◌≡◌, ◌+◌, ◌*◌, ◌≤◌, ◌<◌, length};
ghost use Rattle.schedule.specs.Schedules.{route_of};
ghost use Rattle.file_reader.specs.Reading.{length_field, task_field, last_of, all_known, chain_field, chain_entries, task_record, chain_record, end_record, gap_record, record_of, read_file};

use refusal::{Reason, Refusal};
use schedule::{NumberedTask, Route, Schedule};
use task::Task;

// What one record is: a task, a chain of so many places, the gap, or the end. A record with a fault is the number of the fault in its place.
#[derive(Clone, Copy, PartialEq, Eq, Debug)]
pub enum Record {
    Task(NumberedTask),
    Chain(usize),
    Gap(u64),
    End,
}

// ---- the fields of a record

// The task of a task record.
fn task_field(rest: &[u8]) -> NumberedTask
    requires { 18 ≤ length rest.now }
    ensures { result ≡ task_field rest.now }
{
    let task = Task {
        period: little_endian::number_at(rest, 6, 4),
        duration: little_endian::number_at(rest, 10, 4),
        phase: little_endian::number_at(rest, 14, 4),
    };
    NumberedTask {
        number: little_endian::number_at(rest, 4, 2),
        task,
    }
}

// Whether the first `places` numbers of a chain record are all among `numbers`.
fn all_known(rest: &[u8], places: usize, numbers: &[u64]) -> bool
    requires { (places ≤ 12) × (4 + 2 * places ≤ length rest.now) }
    ensures { result ≡ all_known numbers.now (chain_field rest.now places) }
{
    for i in 0..places {
        let n = little_endian::number_at(rest, 4 + 2 * i, 2);
        if schedule::find(numbers, n).is_none() {
            return false;
        }
    }
    true
}

// The places of a chain record, and zeros past them.
fn chain_entries(rest: &[u8], places: usize) -> [u64; 12]
    requires { (places ≤ 12) × (4 + 2 * places ≤ length rest.now) }
    ensures { result ≡ chain_entries rest.now places }
{
    let mut chain = [0u64; 12];
    for i in 0..places {
        chain[i] = little_endian::number_at(rest, 4 + 2 * i, 2);
    }
    chain
}

// The chain of a chain record.
fn route_of(rest: &[u8], places: usize) -> Route
    requires { (places ≤ 12) × (4 + 2 * places ≤ length rest.now) }
    ensures { result ≡ route_of (chain_field rest.now places) }
{
    Route {
        places: chain_entries(rest, places),
        count: places,
    }
}

// ---- one record, by kind

// A task record, where `numbers` are those of the tasks before it, and `chains` chains stand before it.
#[tactic(auto, unfolding(crate::specs::Reading::task_record))]
fn task_record(rest: &[u8], long: u64, numbers: &[u64], chains: usize) -> Result<Record, u64>
    requires { (long ≡ length_field rest.now) × (long ≤ length rest.now) }
    ensures { result ≡ task_record numbers.now chains rest.now }
{
    if long != 18 {
        return Err(Reason::RecordLengthWrong as u64);
    }
    if chains != 0 || 32 <= numbers.len() {
        return Err(Reason::RecordOutOfTurn as u64);
    }
    let t = task_field(rest);
    if schedule::follows(last_of(numbers), t) {
        Ok(Record::Task(t))
    } else {
        Err(Reason::TaskOutsideLimits as u64)
    }
}

// The last of the numbers, or 0.
fn last_of(numbers: &[u64]) -> u64
    ensures { result ≡ last_of numbers.now }
{
    numbers.last().copied().unwrap_or(0)
}

// A chain record, where `gap` is the gap before it, 0 for none.
#[tactic(auto, unfolding(crate::specs::Reading::chain_record))]
fn chain_record(
    rest: &[u8],
    long: u64,
    numbers: &[u64],
    chains: usize,
    gap: u64,
) -> Result<Record, u64>
    requires { (long ≡ length_field rest.now) × (4 ≤ long) × (long ≤ length rest.now) }
    ensures { result ≡ chain_record numbers.now chains gap rest.now }
{
    let p = (long - 4) / 2;
    if long != 4 + 2 * p || p < 1 || 12 < p {
        return Err(Reason::RecordLengthWrong as u64);
    }
    if 4 <= chains || numbers.is_empty() || gap != 0 {
        return Err(Reason::RecordOutOfTurn as u64);
    }
    if all_known(rest, p as usize, numbers) {
        Ok(Record::Chain(p as usize))
    } else {
        Err(Reason::TaskUnknown as u64)
    }
}

// The end record.
#[tactic(auto, unfolding(crate::specs::Reading::end_record))]
fn end_record(long: u64, chains: usize) -> Result<Record, u64>
    ensures { result ≡ end_record long chains }
{
    if long != 4 {
        return Err(Reason::RecordLengthWrong as u64);
    }
    if chains == 0 {
        return Err(Reason::RecordOutOfTurn as u64);
    }
    Ok(Record::End)
}

// The gap record of order 5.
#[tactic(auto, unfolding(crate::specs::Reading::gap_record))]
fn gap_record(rest: &[u8], long: u64, chains: usize, gap: u64) -> Result<Record, u64>
    requires { (long ≡ length_field rest.now) × (long ≤ length rest.now) }
    ensures { result ≡ gap_record chains gap rest.now }
{
    if long != 6 {
        return Err(Reason::RecordLengthWrong as u64);
    }
    if chains < 1 || gap != 0 {
        return Err(Reason::RecordOutOfTurn as u64);
    }
    let g = little_endian::number_at(rest, 4, 2);
    if g < 1 || 1000 < g {
        return Err(Reason::TaskOutsideLimits as u64);
    }
    Ok(Record::Gap(g))
}

// The record that bytes begin with, judged in document 01's order: 1, 2, 1, 3, 2, 4, 5, 6. A further kind is one more arm.
#[tactic(auto, unfolding(crate::specs::Reading::record_of, crate::specs::Reading::kind_record))]
fn record_of(rest: &[u8], numbers: &[u64], chains: usize, gap: u64) -> Result<Record, u64>
    ensures { result ≡ record_of numbers.now chains gap rest.now }
{
    if rest.len() < 4 {
        return Err(Reason::FileEndsEarly as u64);
    }
    let long = little_endian::number_at(rest, 0, 2);
    if long < 4 {
        return Err(Reason::RecordLengthWrong as u64);
    }
    if (rest.len() as u64) < long {
        return Err(Reason::FileEndsEarly as u64);
    }
    let kind = little_endian::number_at(rest, 2, 2);
    match kind {
        1 => task_record(rest, long, numbers, chains),
        2 => chain_record(rest, long, numbers, chains, gap),
        3 => end_record(long, chains),
        4 => gap_record(rest, long, chains, gap),
        _ => Err(Reason::RecordKindUnknown as u64),
    }
}

// ---- the file

// Reads a schedule file, record by record.
pub fn read_file(bytes: &[u8]) -> Result<Schedule, Refusal>
    ensures { result ≡ read_file bytes.now }
{
    let mut tasks = [NumberedTask::default(); 32];
    let mut numbers = [0u64; 32];
    let mut routes = [Route::default(); 4];
    let mut count: usize = 0;
    let mut chains: usize = 0;
    let mut gap: u64 = 0;
    let mut at: usize = 0;
    while at < bytes.len() {
        let rest = &bytes[at..];
        match record_of(rest, &numbers[..count], chains, gap) {
            Ok(Record::Task(t)) => {
                numbers[count] = t.number;
                tasks[count] = t;
                count += 1;
                at += 18;
            }
            Ok(Record::Chain(p)) => {
                let c = route_of(rest, p);
                routes[chains] = c;
                chains += 1;
                at += 4 + 2 * p;
            }
            Ok(Record::Gap(g)) => {
                gap = g;
                at += 6;
            }
            Ok(Record::End) => {
                if 4 < rest.len() {
                    return Err(Refusal {
                        number: Reason::RecordOutOfTurn as u64,
                        place: at + 4,
                    });
                }
                return Ok(Schedule {
                    tasks,
                    routes,
                    count,
                    chains,
                    gap,
                });
            }
            Err(number) => return Err(Refusal { number, place: at }),
        }
    }
    Err(Refusal {
        number: Reason::FileEndsEarly as u64,
        place: at,
    })
}
