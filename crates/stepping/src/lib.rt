// The step from one partition to the following one, with no division and no remainder: each place's job moves on from where it was.
// `reciprocals` has three numbers for each place, its period, and the factor and the shift that were made for it once; `state` has two, its job and its rest.
#![tactic(auto)]

ghost use Rattle.std.specs.Prelude.{◌≡◌, ◌+◌, ◌-◌, ◌≤◌, ◌<◌};
ghost use Rattle.chain.specs.Flat.{tasks_in};
ghost use Rattle.partition.specs.Partitions.{IsPartition};
ghost use Rattle.stepping.specs.OnePlace.{job_at, Advanced, Roomy};
ghost use Rattle.stepping.specs.Went.{Went, Ready};
ghost use Rattle.stepping.specs.Standing.{Stands, Steps, Stepped, end_job};

use partition::Partition;
use task::{Job, Place, Tick};

// Place i moves on where its neighbour on the way from the cut went on by `ticks`; answers the ticks that it went on by itself.
// The product and the shift give the whole periods: a multiplication and a shift stand for the division.
#[tactic(auto, using(crate::proofs::Advancing::moved_small))]
fn advance(reciprocals: &[u64], state: &mut [u64], i: usize, ticks: u64) -> u64
    requires { Roomy reciprocals.now state.old i ticks }
    ensures { Advanced reciprocals.now i ticks state.old state.new result }
{
    let k = 3 * i;
    let j = 2 * i;
    let z = state[j + 1] + ticks;
    let jobs = (z * reciprocals[k + 1]) >> reciprocals[k + 2];
    let moved = jobs * reciprocals[k];
    state[j] += jobs;
    state[j + 1] = z - moved;
    moved
}

// The places before the cut move on, from the cut to the first.
#[tactic(auto, using(crate::proofs::Turns::back_start))]
fn step_back(reciprocals: &[u64], p: usize, state: &mut [u64])
    requires { Ready reciprocals.now p state.old 0 p }
    ensures { Went reciprocals.now p (λ i. i + 1) 0 p state.old state.new }
{
    let mut ticks = reciprocals[3 * p];
    for i in (0..p).rev() {
        ticks = advance(reciprocals, state, i, ticks);
    }
}

// The places after the cut move on, from the cut to the last.
fn step_on(reciprocals: &[u64], n: usize, p: usize, state: &mut [u64])
    requires { (p < n) × Ready reciprocals.now p state.old (p + 1) n }
    ensures { Went reciprocals.now p (λ i. i - 1) (p + 1) n state.old state.new }
{
    let mut ticks = reciprocals[3 * p];
    for i in p + 1..n {
        ticks = advance(reciprocals, state, i, ticks);
    }
}

// The job at the end, given the cut's job and the last place's.
#[tactic(auto, unfolding(crate::specs::Standing::end_job))]
fn end_job(n: usize, p: usize, here: u64, last: u64) -> u64
    requires { (p < 12) × (here ≤ 1000000000000) }
    ensures { result ≡ end_job n p here last }
{
    if p + 1 < n {
        return last;
    }
    here + 1
}

// The partition of the job at which the state stands.
#[tactic(auto, using(crate::proofs::Ends::start_is, crate::proofs::Ends::start_small, crate::proofs::Ends::job_small, crate::proofs::Ends::end_is, crate::proofs::Ends::end_small))]
pub fn here(tasks: &[u64], gap: u64, n: usize, p: usize, state: &[u64]) -> Partition
    requires { Stands (tasks_in gap tasks.now) n p state.now }
    ensures { IsPartition (tasks_in gap tasks.now) p (job_at state.now p) result }
{
    let m = state[2 * p];
    let first = chain::task_at(tasks, gap, 0);
    let start = first.read(Job(state[0]));
    let last = chain::task_at(tasks, gap, n - 1);
    let end = last.write(Job(end_job(n, p, m, state[2 * n - 2])));
    Partition {
        job: Job(m),
        start,
        end,
    }
}

// From the state at a job of place p to that at the next job, and the next job's partition. `tasks` is the flat list of the chain's n tasks.
pub fn next(
    tasks: &[u64],
    gap: u64,
    n: usize,
    p: usize,
    reciprocals: &[u64],
    state: &mut [u64],
) -> Partition
    requires { Steps (tasks_in gap tasks.now) n p reciprocals.now state.old }
    ensures { Stepped (tasks_in gap tasks.now) p state.old state.new result }
{
    let k = 2 * p;
    state[k] += 1;
    step_back(reciprocals, p, state);
    step_on(reciprocals, n, p, state);
    here(tasks, gap, n, p, state)
}
