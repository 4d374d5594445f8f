// What the program `chainload` says to its words: the schedule file of a made-up chain, or the one line of what is wrong with the words.
// `answer_to` takes any number of words and any bytes; the other functions make one part of the file or of the answer.
#![tactic(auto)]

ghost use Rattle.std.specs.Prelude.{◌≡◌, ◌≤◌, length, take};
ghost use Rattle.schedule.specs.Schedules.{padded, zero_numbered};
ghost use Rattle.load_file.specs.LoadFile.{numbered_from, numbers_to, alone_of};
ghost use Rattle.load_file.specs.Answers.{text_of, file_answer, places_answer, answer_to};

use chain::Chain;
use schedule::{NumberedTask, Route, Schedule};
use task::Task;

// Bytes to put out: how many, and zeros past them.
#[derive(Clone, Copy)]
pub struct Text {
    pub long: usize,
    pub bytes: [u8; 256],
}

// ---- the schedule

// The tasks at the places with the numbers 1, 2 and so on, and zeros past them.
fn numbered(tasks: [Task; 12], places: usize) -> [NumberedTask; 32]
    requires { places ≤ 12 }
    ensures { result ≡ padded 32 zero_numbered (numbered_from 1 (take places tasks)) }
{
    let mut list = [NumberedTask::default(); 32];
    for i in 0..places {
        list[i] = NumberedTask {
            number: i as u64 + 1,
            task: tasks[i],
        };
    }
    list
}

// The numbers 1 to `places`, and zeros past them.
fn numbers(places: usize) -> [u64; 12]
    requires { places ≤ 12 }
    ensures { result ≡ padded 12 0 (numbers_to places) }
{
    let mut list = [0; 12];
    for i in 0..places {
        list[i] = i as u64 + 1;
    }
    list
}

// The schedule of a chain alone: a task for each place, numbered from 1.
fn schedule_of(c: Chain) -> Schedule
    requires { c.places ≤ 12 }
    ensures { result ≡ alone_of c }
{
    let mut routes = [Route::default(); 4];
    routes[0] = Route {
        places: numbers(c.places),
        count: c.places,
    };
    let tasks = c.tasks;
    Schedule {
        tasks: numbered(tasks, c.places),
        routes,
        count: c.places,
        chains: 1,
        gap: c.gap,
    }
}

// ---- the answer: the file, for standard output, or else a line that says what is wrong, for standard error

// A line as the bytes to put out.
fn text_of(line: &[u8]) -> Text
    requires { length line.now ≤ 256 }
    ensures { result ≡ text_of line.now }
{
    let mut bytes = [0; 256];
    bytes[..line.len()].copy_from_slice(line);
    Text {
        long: line.len(),
        bytes,
    }
}

// The file of a seed and a number of places, or the line for places outside 1 to 12.
fn file_answer(seed: u64, places: usize) -> Result<Text, Text>
    ensures { result ≡ file_answer seed places }
{
    let Ok(c) = load::make_load(seed, places) else {
        return Err(text_of(
            b"chainload: PLACES must be a number from 1 to 12, in at most 20 decimal digits\n",
        ));
    };
    let mut bytes = [0u8; 256];
    match file_writer::write_file(schedule_of(c), &mut bytes) {
        Ok(long) => Ok(Text { long, bytes }),
        // It cannot come, which is proved: the schedule is sound, and 256 bytes hold its file.
        Err(_) => Ok(Text { long: 0, bytes }),
    }
}

// The same of a word for the number of places.
fn places_answer(seed: u64, places: &[u8]) -> Result<Text, Text>
    ensures { result ≡ places_answer seed places.now }
{
    let Some(n) = decimal::number_of(places) else {
        return Err(text_of(
            b"chainload: PLACES must be a number from 1 to 12, in at most 20 decimal digits\n",
        ));
    };
    file_answer(seed, n as usize)
}

// The answer to the words. `count` is the number of arguments, the program's own name among them.
pub fn answer_to(count: usize, seed: &[u8], places: &[u8]) -> Result<Text, Text>
    ensures { result ≡ answer_to count seed.now places.now }
{
    if count != 3 {
        return Err(text_of(b"chainload: two words are needed: chainload SEED PLACES\n"));
    }
    let Some(n) = decimal::number_of(seed) else {
        return Err(text_of(
            b"chainload: SEED must be a number from 0 to 18446744073709551615, in at most 20 decimal digits\n",
        ));
    };
    places_answer(n, places)
}
