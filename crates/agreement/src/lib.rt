// The third demand at the level of the calls. Each function makes tables, calls what the demand compares with them, and answers what each call gave.
// Its contract says by equations what that is, for any chain, places, ticks and lists, and beside it that the values agree wherever the table is completed.
#![tactic(auto)]

ghost use Rattle.std.specs.Prelude.{◌≡◌, get_or};
ghost use Rattle.maker.specs.Making.{told};
ghost use Rattle.agreement.specs.Answers.{last_before, ReadAndWalked, CutTwice, NotExceeded, ReachedThere};

use chain::Chain;
use maker::{Figures, Unmade};
use refusal::Refusal;
use table::Table;
use task::Tick;

// The figures that making told, with which its table is read: g and H also under 11, zeros in another refusal.
fn told_figures(m: Result<Figures, Unmade>) -> Figures
    ensures { (result.anchors ≡ (told m).anchors) × (result.hyperperiod ≡ (told m).hyperperiod) }
{
    match m {
        Ok(f) => f,
        Err(Unmade::Short(f)) => f,
        Err(Unmade::Refused(_)) => Figures {
            anchors: 0,
            tick: Tick(0),
            hyperperiod: 0,
            walked: 0,
        },
    }
}

// What making answered, the delay read from the table and the delay walked.
#[derive(Clone, Copy)]
pub struct Delays {
    pub made: Result<Figures, Unmade>,
    pub read: Result<u64, Refusal>,
    pub walked: Result<u64, Refusal>,
}

// Make a table cut at p, then read it and walk at tick t.
pub fn table_is_walk(
    c: Chain,
    p: usize,
    t: Tick,
    starts: &mut [u64],
    latencies: &mut [u64],
) -> Delays
    ensures { ReadAndWalked c p t.0 starts.old latencies.old starts.new latencies.new result }
{
    let made = maker::make_table(c, p, starts, latencies);
    let f = told_figures(made);
    let made_table = Table {
        starts,
        latencies,
        anchors: f.anchors,
        hyperperiod: f.hyperperiod,
    };
    let read = made_table.read_at(t.0);
    let walked = timing::delay(c, t);
    Delays { made, read, walked }
}

// What making answered at each of two cuts.
#[derive(Clone, Copy)]
pub struct Cuts {
    pub first: Result<Figures, Unmade>,
    pub second: Result<Figures, Unmade>,
}

// Make a table cut at p and one cut at q, each in two lists of its own.
pub fn cuts_agree(
    c: Chain,
    p: usize,
    q: usize,
    starts: &mut [u64],
    latencies: &mut [u64],
    other_starts: &mut [u64],
    other_latencies: &mut [u64],
) -> Cuts
    ensures { CutTwice c p q starts.old latencies.old starts.new latencies.new other_starts.old other_latencies.old other_starts.new other_latencies.new result }
{
    let first = maker::make_table(c, p, starts, latencies);
    let second = maker::make_table(c, q, other_starts, other_latencies);
    Cuts { first, second }
}

// What making answered, the table's greatest latency, a delay and an age.
#[derive(Clone, Copy)]
pub struct Bounds {
    pub made: Result<Figures, Unmade>,
    pub greatest: Result<u64, Refusal>,
    pub delay: Result<u64, Refusal>,
    pub age: Result<u64, Refusal>,
}

// Make a table cut at p, then take its greatest latency, the delay at tick t and the age at tick z.
pub fn greatest_not_exceeded(
    c: Chain,
    p: usize,
    t: Tick,
    z: Tick,
    starts: &mut [u64],
    latencies: &mut [u64],
) -> Bounds
    ensures { NotExceeded c p t.0 z.0 starts.old latencies.old starts.new latencies.new result }
{
    let made = maker::make_table(c, p, starts, latencies);
    let f = told_figures(made);
    let made_table = Table {
        starts,
        latencies,
        anchors: f.anchors,
        hyperperiod: f.hyperperiod,
    };
    let greatest = figures::greatest_of(made_table);
    let delay = timing::delay(c, t);
    let age = timing::age(c, z);
    Bounds {
        made,
        greatest,
        delay,
        age,
    }
}

// Entry i of a list, 0 past its end.
fn entry(list: &[u64], i: usize) -> u64
    ensures { result ≡ get_or list.now i 0 }
{
    list.get(i).copied().unwrap_or(0)
}

// The last tick before start + latency, where that is at most the upper tick; else 0.
fn last_before(start: u64, latency: u64) -> u64
    ensures { result ≡ last_before start latency }
{
    if latency < 1 {
        return 0;
    }
    if 1000000000000 < latency {
        return 0;
    }
    if 1000000000000 - latency < start {
        return 0;
    }
    start + latency - 1
}

// What making answered, the table's greatest latency, an anchor, the delay at its start, and the age just before the press there is booked.
#[derive(Clone, Copy)]
pub struct Peak {
    pub made: Result<Figures, Unmade>,
    pub greatest: Result<u64, Refusal>,
    pub start: u64,
    pub latency: u64,
    pub delay: Result<u64, Refusal>,
    pub age: Result<u64, Refusal>,
}

// Make a table cut at p, then walk and age at anchor i, counted from 0.
pub fn greatest_reached(
    c: Chain,
    p: usize,
    i: usize,
    starts: &mut [u64],
    latencies: &mut [u64],
) -> Peak
    ensures { ReachedThere c p i starts.old latencies.old starts.new latencies.new result }
{
    let made = maker::make_table(c, p, starts, latencies);
    let f = told_figures(made);
    let made_table = Table {
        starts,
        latencies,
        anchors: f.anchors,
        hyperperiod: f.hyperperiod,
    };
    let greatest = figures::greatest_of(made_table);
    let start = entry(starts, i);
    let latency = entry(latencies, i);
    let delay = timing::delay(c, Tick(start));
    let age = timing::age(c, Tick(last_before(start, latency)));
    Peak {
        made,
        greatest,
        start,
        latency,
        delay,
        age,
    }
}
