// The greatest latency of a chain without a table: one walk over the partitions of a hyperperiod, with no list. And the place at which that walk is least work.
// All functions are for the crates above. `longest_place` takes any list of up to twelve tasks and counts places from 1, as document 01 does; the others take lists that the checks accepted and count
// the place p from 0.
#![tactic(auto)]

ghost use Rattle.std.specs.Prelude.{◌≡◌, length, ◌-◌, ◌≤◌, ◌<◌};
ghost use Rattle.chain.specs.Checks.{Sound};
ghost use Rattle.chain.specs.Hyperperiod.{hyper_of};
ghost use Rattle.chain.specs.Flat.{tasks_in};
ghost use Rattle.stepping.specs.Standing.{Reciprocals};
ghost use Rattle.outset.specs.Range.{Range};
ghost use Rattle.latency.specs.LongestPlace.{longest_place};
ghost use Rattle.latency.specs.Latency.{AcceptedAt, greatest_latency, greatest_at};
ghost use Rattle.latency.specs.Walk.{Begins, Met, MetAll, RangeFrom, MetFrom};

use partition::Partition;
use task::{Job, Place, Tick};

// The greatest latency, and the number of partitions that were walked for it.
#[derive(Clone, Copy)]
pub struct Greatest {
    pub latency: u64,
    pub walked: u64,
}

// The place of the longest period, counted from 1; the lowest among equals.
pub fn longest_place(tasks: &[u64], gap: u64) -> usize
    requires { length (tasks_in gap tasks.now) ≤ 12 }
    ensures { result ≡ longest_place (tasks_in gap tasks.now) }
{
    let mut longest = 0;
    let mut place = 1;
    for i in 0..tasks.len() / 3 {
        let t = chain::task_at(tasks, gap, i);
        if longest < t.period {
            longest = t.period;
            place = i + 1;
        }
    }
    place
}

// A partition's latency, end less start.
fn latency_of(x: Partition) -> u64
    requires { x.start.0 ≤ x.end.0 }
    ensures { result ≡ x.end.0 - x.start.0 }
{
    let start = x.start;
    let end = x.end;
    end.0 - start.0
}

// Walks the n partitions from `first` on, n - 1 steps, and keeps the largest latency. The first one above the bound ends the walk.
fn walk(
    tasks: &[u64],
    gap: u64,
    places: usize,
    p: usize,
    n: u64,
    bound: u64,
    first: Partition,
    reciprocals: &[u64],
    state: &mut [u64],
) -> Greatest
    requires { (Begins (tasks_in gap tasks.now) places p n first state.old) × Reciprocals (tasks_in gap tasks.now) reciprocals.now }
    ensures { Met (tasks_in gap tasks.now) p first.job.0 n bound result }
{
    let mut latency = latency_of(first);
    for walked in 1..n {
        if bound < latency {
            return Greatest { latency, walked };
        }
        let here = stepping::next(tasks, gap, places, p, reciprocals, state);
        latency = latency.max(latency_of(here));
    }
    Greatest { latency, walked: n }
}

// The same, with what stands for the divisions of the steps made first.
fn walk_by_steps(
    tasks: &[u64],
    gap: u64,
    places: usize,
    p: usize,
    n: u64,
    bound: u64,
    first: Partition,
    state: &mut [u64],
) -> Greatest
    requires { Begins (tasks_in gap tasks.now) places p n first state.old }
    ensures { Met (tasks_in gap tasks.now) p first.job.0 n bound result }
{
    let mut reciprocals = [0u64; 36];
    outset::reciprocals_of(tasks, gap, places, &mut reciprocals);
    walk(tasks, gap, places, p, n, bound, first, &reciprocals, state)
}

// Walks the n partitions from a job on; a single one, as every harmonic chain has at its longest period, needs no step.
fn walk_from(
    tasks: &[u64],
    gap: u64,
    places: usize,
    p: usize,
    from: Job,
    n: u64,
    bound: u64,
) -> Greatest
    requires { Range (tasks_in gap tasks.now) places p from.0 n }
    ensures { Met (tasks_in gap tasks.now) p from.0 n bound result }
{
    let mut state = [0u64; 24];
    let first = outset::first(tasks, gap, places, p, from, &mut state);
    if n < 2 {
        return Greatest {
            latency: latency_of(first),
            walked: 1,
        };
    }
    walk_by_steps(tasks, gap, places, p, n, bound, first, &mut state)
}

// Walks the range of a list whose hyperperiod is h, cut at place p.
#[tactic(auto, using(crate::proofs::Exits::place_pos))]
fn walk_range(tasks: &[u64], gap: u64, p: usize, h: u64, bound: u64) -> Greatest
    requires { AcceptedAt (tasks_in gap tasks.now) p h }
    ensures { MetAll (tasks_in gap tasks.now) p h bound result }
{
    let jobs = timing::warm_jobs(tasks, gap);
    let from = jobs[p];
    let t = chain::task_at(tasks, gap, p);
    walk_from(tasks, gap, tasks.len() / 3, p, from, h / t.period, bound)
}

// Walks as many partitions as the range has, from any job of place p on that is not before its warm-up job; the first one above the bound ends the walk. What stands for the divisions of the steps is
// lent, so that lists with the same periods share it.
pub fn walk_range_from(
    tasks: &[u64],
    gap: u64,
    places: usize,
    p: usize,
    from: Job,
    n: u64,
    bound: u64,
    reciprocals: &[u64],
) -> Greatest
    requires { (RangeFrom (tasks_in gap tasks.now) places p from.0 n) × Reciprocals (tasks_in gap tasks.now) reciprocals.now }
    ensures { MetFrom (tasks_in gap tasks.now) p from.0 n bound result }
{
    let mut state = [0u64; 24];
    let first = outset::first(tasks, gap, places, p, from, &mut state);
    walk(
        tasks,
        gap,
        places,
        p,
        n,
        bound,
        first,
        reciprocals,
        &mut state,
    )
}

// The greatest latency of an accepted list whose hyperperiod is h, walked at place p; it is the same for every p. No latency is above 60,011,000, so that bound never ends the walk.
pub fn greatest_at(tasks: &[u64], gap: u64, p: usize, h: u64) -> Greatest
    requires { AcceptedAt (tasks_in gap tasks.now) p h }
    ensures { result ≡ greatest_at (tasks_in gap tasks.now) p h }
{
    walk_range(tasks, gap, p, h, 60011000)
}

// The greatest latency of a list that the checks accept, walked at the place of its longest period.
pub fn greatest_of(tasks: &[u64], gap: u64) -> u64
    requires { (Sound (tasks_in gap tasks.now)) × (hyper_of (tasks_in gap tasks.now) ≤ 60000000) }
    ensures { result ≡ greatest_latency (tasks_in gap tasks.now) }
{
    let h = chain::hyperperiod_on(tasks, gap);
    let p = longest_place(tasks, gap);
    let found = greatest_at(tasks, gap, p - 1, h);
    found.latency
}
