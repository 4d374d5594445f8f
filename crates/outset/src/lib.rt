// What the step needs before its first turn, by division, once for each making: what stands for a division at each place, and the state at a job of the cut.
#![tactic(auto)]

ghost use Rattle.std.specs.Prelude.{◌≡◌, length, ◌+◌, ◌*◌, ◌≤◌, ◌<◌};
ghost use Rattle.chain.specs.Checks.{Sound};
ghost use Rattle.chain.specs.Flat.{tasks_in};
ghost use Rattle.stepping.specs.Reciprocal.{Reciprocal};
ghost use Rattle.stepping.specs.Standing.{StandsFrom, Reciprocals};
ghost use Rattle.outset.specs.Outset.{Given, Put, Cut, First, States};

use partition::Partition;
use task::{Job, Place, Tick};

// A product with the factor, shifted, stands for a division.
#[derive(Clone, Copy)]
pub struct Scale {
    pub factor: u64,
    pub shift: u64,
}

// The scale of a period. One power of two for all does not serve: 2^44 would make a product of 68 bits at period 1, and 2^34 is too coarse above 1,024.
fn scale_of(t: u64) -> Scale
    requires { (1 ≤ t) × (t ≤ 1000000) }
    ensures { Reciprocal t result.factor result.shift }
{
    if t <= 1024 {
        return Scale {
            factor: 17179869184 / t + 1,
            shift: 34,
        };
    }
    Scale {
        factor: 17592186044416 / t + 1,
        shift: 44,
    }
}

// The three numbers of place i, of period t.
fn give(reciprocals: &mut [u64], i: usize, t: u64)
    requires { (1 ≤ t) × (t ≤ 1000000) × (i < 12) × (3 * i + 3 ≤ length reciprocals.old) }
    ensures { Given i t reciprocals.old reciprocals.new }
{
    let k = 3 * i;
    let s = scale_of(t);
    reciprocals[k] = t;
    reciprocals[k + 1] = s.factor;
    reciprocals[k + 2] = s.shift;
}

// The numbers of every place.
pub fn reciprocals_of(tasks: &[u64], gap: u64, n: usize, reciprocals: &mut [u64])
    requires { (Sound (tasks_in gap tasks.now)) × (n ≡ length (tasks_in gap tasks.now)) × (3 * n ≤ length reciprocals.old) }
    ensures { Reciprocals (tasks_in gap tasks.now) reciprocals.new }
{
    for i in 0..n {
        let a = chain::task_at(tasks, gap, i);
        give(reciprocals, i, a.period);
    }
}

// z ticks of period t as a job and a rest at place i; answers the job.
fn put(state: &mut [u64], i: usize, z: u64, t: u64) -> u64
    requires { (1 ≤ t) × (i < 12) × (2 * i + 2 ≤ length state.old) }
    ensures { Put i z t state.old state.new result }
{
    let j = 2 * i;
    let q = z / t;
    state[j] = q;
    state[j + 1] = z % t;
    q
}

// The state of the places before the cut, on the way back from job m.
fn first_back(tasks: &[u64], gap: u64, p: usize, m: Job, state: &mut [u64])
    requires { (Cut (tasks_in gap tasks.now) p m.0) × (2 * (p + 1) ≤ length state.old) × (StandsFrom (tasks_in gap tasks.now) p m.0 p (p + 1) state.old) }
    ensures { States (tasks_in gap tasks.now) p m.0 0 (p + 1) state.old state.new }
{
    let mut j = m;
    let mut b = chain::task_at(tasks, gap, p);
    for i in (0..p).rev() {
        let a = chain::task_at(tasks, gap, i);
        let t = b.read(j);
        j = Job(put(state, i, t.0 - a.phase - a.duration - a.gap, a.period));
        b = a;
    }
}

// The state of the places after the cut, on the way on from job m + 1.
fn first_on(tasks: &[u64], gap: u64, n: usize, p: usize, m: Job, state: &mut [u64])
    requires { (Cut (tasks_in gap tasks.now) p m.0) × (n ≡ length (tasks_in gap tasks.now)) × (2 * n ≤ length state.old) × (StandsFrom (tasks_in gap tasks.now) p m.0 0 (p + 1) state.old) }
    ensures { States (tasks_in gap tasks.now) p m.0 0 n state.old state.new }
{
    let mut j = Job(m.0 + 1);
    let mut a = chain::task_at(tasks, gap, p);
    for i in p + 1..n {
        let b = chain::task_at(tasks, gap, i);
        let w = a.readable(j);
        j = Job(put(state, i, w.0 - b.phase + (b.period - 1), b.period));
        a = b;
    }
}

// The state at job m of place p, and that job's partition.
pub fn first(tasks: &[u64], gap: u64, n: usize, p: usize, m: Job, state: &mut [u64]) -> Partition
    requires { (Cut (tasks_in gap tasks.now) p m.0) × (n ≡ length (tasks_in gap tasks.now)) × (2 * n ≤ length state.old) }
    ensures { First (tasks_in gap tasks.now) p m.0 state.new result }
{
    state[2 * p] = m.0;
    first_back(tasks, gap, p, m, state);
    first_on(tasks, gap, n, p, m, state);
    stepping::here(tasks, gap, n, p, state)
}
