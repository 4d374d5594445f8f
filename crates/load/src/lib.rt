// Order 8 of document 02: a made-up chain that others can repeat, from a seed and a number of places.
// `make_load` is the entry point: it takes any seed and any number of places. `next_draw` takes any state; the other functions make one part of a chain each.
#![tactic(auto)]

ghost use Rattle.std.specs.Prelude.{◌≡◌, ◌≤◌};
ghost use Rattle.load.specs.Load.{draw_of, period_of, drawn_task, array_from, load_of};

use chain::Chain;
use refusal::Refusal;
use task::Task;

// A draw: the state s after it, and the number that it gives.
#[derive(Clone, Copy)]
pub struct Draw {
    pub state: u64,
    pub value: u64,
}

// The task at a place, and the state s after its two draws.
#[derive(Clone, Copy)]
struct DrawnTask {
    task: Task,
    state: u64,
}

// The next draw. The addition wraps, which is the order's remainder by 2^64.
#[tactic(auto, unfolding(crate::specs::Load::draw_of))]
pub fn next_draw(s: u64) -> Draw
    ensures { result ≡ draw_of s }
{
    let t = s.wrapping_add(0x9E3779B97F4A7C15);
    Draw {
        state: t,
        value: t ^ (t >> 31),
    }
}

// The period in µs that a number from 0 to 96 picks.
#[tactic(auto, unfolding(crate::specs::Load::period_of))]
fn period_of(x: u64) -> u64
    ensures { result ≡ period_of x }
{
    match x {
        0 => 2500,
        1..=10 => 5000,
        11..=43 => 10000,
        44..=58 => 20000,
        59..=81 => 40000,
        _ => 80000,
    }
}

// One place: the first draw picks the period, the second gives the phase.
fn draw_task(s: u64) -> DrawnTask
    ensures { result ≡ drawn_task s }
{
    let first = next_draw(s);
    let period = period_of(first.value % 97);
    let second = next_draw(first.state);
    let task = Task {
        period,
        duration: period,
        phase: second.value % period,
    };
    DrawnTask {
        task,
        state: second.state,
    }
}

// The tasks of the places, one s running through all of them, and zeros past them.
fn tasks_from(seed: u64, places: usize) -> [Task; 12]
    requires { places ≤ 12 }
    ensures { result ≡ array_from seed places }
{
    let mut tasks = [Task::default(); 12];
    let mut s = seed;
    for i in 0..places {
        let d = draw_task(s);
        tasks[i] = d.task;
        s = d.state;
    }
    tasks
}

// The chain of a seed and a number of places: 8 for places outside 1 to 12.
pub fn make_load(seed: u64, places: usize) -> Result<Chain, Refusal>
    ensures { result ≡ load_of seed places }
{
    if !(1..=12).contains(&places) {
        return Err(Refusal::PLACES_OUTSIDE_LIMITS);
    }
    Ok(Chain {
        tasks: tasks_from(seed, places),
        places,
        gap: 0,
    })
}
