// Warm-up, delay and age of a chain.
// Its calls `warm_up`, `delay` and `age` take any values, and so do those on a flat list T, D, F, T, D, F, .. of tasks, one for each place, which is lent and not copied, and a gap.
// `warm_jobs`, `warm_tick` and `check_tick` are for the crates above; the first two on lists that `chain::check_on` accepted.
#![tactic(auto)]

ghost use Rattle.std.specs.Prelude.{◌≡◌, ◌-◌, ◌≤◌, ◌<◌};
ghost use Rattle.chain.specs.Checks.{Sound};
ghost use Rattle.chain.specs.Flat.{given_in, tasks_in};
ghost use Rattle.timing.specs.WarmUp.{warm_last, warm_tick};
ghost use Rattle.timing.specs.Delay.{delay_at, first_aged, age_at};
ghost use Rattle.timing.specs.Answers.{warm_entries, warm_up_of, warm_up_in, tick_checked, delay_of, delay_in, age_of, age_in};

use chain::Chain;
use refusal::Refusal;
use task::{Job, Place, Tick};

// W1 to Wn with zeros past them, the warm-up tick x0 and the hyperperiod H.
#[derive(Clone, Copy, PartialEq, Eq, Debug)]
pub struct WarmUp {
    pub jobs: [Job; 12],
    pub tick: Tick,
    pub hyperperiod: u64,
}

// ---- warm-up

// Wn: no search is needed, since job 0 of the first place goes forward to it.
fn warm_last(tasks: &[u64], gap: u64) -> Job
    requires { Sound (tasks_in gap tasks.now) }
    ensures { result.0 ≡ warm_last (tasks_in gap tasks.now) }
{
    chain::forward_on(tasks, gap, 0, tasks.len() / 3 - 1, Job(0))
}

// W1 to Wn, and zeros past them: from Wn backward, a place at a time.
#[tactic(auto, using(crate::proofs::Whole::some_place, crate::proofs::Whole::last_inside, crate::proofs::Whole::last_place_small, crate::proofs::Whole::warm_fits, crate::proofs::Entries::from_all))]
pub fn warm_jobs(tasks: &[u64], gap: u64) -> [Job; 12]
    requires { Sound (tasks_in gap tasks.now) }
    ensures { result ≡ warm_entries (tasks_in gap tasks.now) }
{
    let last = tasks.len() / 3 - 1;
    let mut jobs = [Job(0); 12];
    let mut k = warm_last(tasks, gap);
    let mut b = chain::task_at(tasks, gap, last);
    jobs[last] = k;
    for i in (0..last).rev() {
        let a = chain::task_at(tasks, gap, i);
        k = chain::job_of(b.backward_to(a, k));
        jobs[i] = k;
        b = a;
    }
    jobs
}

// The warm-up tick x0: the read of W1.
pub fn warm_tick(tasks: &[u64], gap: u64) -> Tick
    requires { Sound (tasks_in gap tasks.now) }
    ensures { result.0 ≡ warm_tick (tasks_in gap tasks.now) }
{
    let n = tasks.len() / 3 - 1;
    let k = warm_last(tasks, gap);
    let j = chain::job_of(chain::backward_on(tasks, gap, 0, n, k));
    let first = chain::task_at(tasks, gap, 0);
    first.read(j)
}

// Warm-up of a flat list of tasks and a gap.
#[tactic(auto, using(chain::proofs::CheckLaws::accepted_in, crate::proofs::Whole::warm_tick_fits, crate::proofs::Exits::warm_refused, crate::proofs::Exits::entry_job))]
pub fn warm_up_on(tasks: &[u64], gap: u64) -> Result<WarmUp, Refusal>
    ensures { result ≡ warm_up_in gap (given_in tasks.now) }
{
    let hyperperiod = chain::check_on(tasks, gap)?;
    let jobs = warm_jobs(tasks, gap);
    let first = chain::task_at(tasks, gap, 0);
    let tick = first.read(jobs[0]);
    Ok(WarmUp {
        jobs,
        tick,
        hyperperiod,
    })
}

// Document 01's warm-up: W1 to Wn, x0 and H; refusals 8, 5, 7.
#[tactic(auto, using(chain::proofs::Filling::lent, crate::specs::Standing::warm_up_stands))]
pub fn warm_up(c: Chain) -> Result<WarmUp, Refusal>
    ensures { result ≡ warm_up_of c }
{
    let tasks = chain::flat(c);
    let n = chain::flat_length(c.places);
    warm_up_on(&tasks[..n], c.gap)
}

// The check of a tick that is asked for, where answers are known from tick `from` on: 12, 13.
pub fn check_tick(t: Tick, from: Tick) -> Result<(), Refusal>
    ensures { result ≡ tick_checked t.0 from.0 }
{
    if t.0 < from.0 {
        return Err(Refusal::TICK_TOO_EARLY);
    }
    if 1000000000000 < t.0 {
        return Err(Refusal::TICK_TOO_LATE);
    }
    Ok(())
}

// ---- delay

// The delay at tick t of a list that passes 8 and 5.
fn delay_ticks(tasks: &[u64], gap: u64, t: Tick) -> u64
    requires { (Sound (tasks_in gap tasks.now)) × (t.0 ≤ 1000000000000) }
    ensures { result ≡ delay_at (tasks_in gap tasks.now) t.0 }
{
    let n = tasks.len() / 3 - 1;
    let first = chain::task_at(tasks, gap, 0);
    let j = first.earliest_after(t);
    let k = chain::forward_on(tasks, gap, 0, n, j);
    let last = chain::task_at(tasks, gap, n);
    let end = last.write(k);
    end.0 - t.0
}

// Walking of a flat list of tasks and a gap.
#[tactic(auto, using(chain::proofs::CheckLaws::accepted_in, crate::proofs::Exits::span_refused, crate::proofs::Exits::span_tick, crate::proofs::Exits::in_range, crate::proofs::Exits::span_known))]
pub fn delay_on(tasks: &[u64], gap: u64, t: Tick) -> Result<u64, Refusal>
    ensures { result ≡ delay_in gap (given_in tasks.now) t.0 }
{
    chain::check_on(tasks, gap)?;
    check_tick(t, warm_tick(tasks, gap))?;
    Ok(delay_ticks(tasks, gap, t))
}

// Document 01's walking: the delay of a press at tick t; refusals 8, 5, 7, 12, 13.
#[tactic(auto, using(chain::proofs::Filling::lent, crate::specs::Standing::delay_stands))]
pub fn delay(c: Chain, t: Tick) -> Result<u64, Refusal>
    ensures { result ≡ delay_of c t.0 }
{
    let tasks = chain::flat(c);
    let n = chain::flat_length(c.places);
    delay_on(&tasks[..n], c.gap, t)
}

// ---- age

// The first tick that has an age: the write of Wn.
fn first_aged(tasks: &[u64], gap: u64) -> Tick
    requires { Sound (tasks_in gap tasks.now) }
    ensures { result.0 ≡ first_aged (tasks_in gap tasks.now) }
{
    let n = tasks.len() / 3 - 1;
    let last = chain::task_at(tasks, gap, n);
    last.write(warm_last(tasks, gap))
}

// The age at tick z of a list that passes 8 and 5.
#[tactic(auto, using(chain::specs::Flat::in_last, crate::proofs::Whole::some_place, crate::proofs::Whole::last_inside, crate::proofs::Whole::last_place_small, crate::proofs::Whole::start_early, crate::proofs::Whole::age_is))]
fn age_ticks(tasks: &[u64], gap: u64, z: Tick) -> u64
    requires { (Sound (tasks_in gap tasks.now)) × (first_aged (tasks_in gap tasks.now) ≤ z.0) × (z.0 ≤ 1000000000000) }
    ensures { result ≡ age_at (tasks_in gap tasks.now) z.0 }
{
    let n = tasks.len() / 3 - 1;
    let last = chain::task_at(tasks, gap, n);
    let k = chain::job_of(last.latest_by(z));
    let j = chain::job_of(chain::backward_on(tasks, gap, 0, n, k));
    let first = chain::task_at(tasks, gap, 0);
    let start = first.read(j);
    z.0 - start.0
}

// Ageing of a flat list of tasks and a gap.
#[tactic(auto, using(chain::proofs::CheckLaws::accepted_in, crate::proofs::Exits::span_refused, crate::proofs::Exits::span_tick, crate::proofs::Exits::in_range, crate::proofs::Exits::span_known))]
pub fn age_on(tasks: &[u64], gap: u64, z: Tick) -> Result<u64, Refusal>
    ensures { result ≡ age_in gap (given_in tasks.now) z.0 }
{
    chain::check_on(tasks, gap)?;
    check_tick(z, first_aged(tasks, gap))?;
    Ok(age_ticks(tasks, gap, z))
}

// Document 01's ageing: the age at tick z; refusals 8, 5, 7, 12, 13.
#[tactic(auto, using(chain::proofs::Filling::lent, crate::specs::Standing::age_stands))]
pub fn age(c: Chain, z: Tick) -> Result<u64, Refusal>
    ensures { result ≡ age_of c z.0 }
{
    let tasks = chain::flat(c);
    let n = chain::flat_length(c.places);
    age_on(&tasks[..n], c.gap, z)
}
