// A chain of tasks: its checks, its hyperperiod, and the ways forward and backward along its places.
// A chain is a value; what walks it takes its tasks as a flat list of numbers, which is lent and not copied, and the gap of its links. One or two numbers left at the end of such a list are no task.
// `check` and `check_on` are entry points: they take any chain, any list and any gap. The ways are for the crates above, on lists that passed 8 and 5; they count places from 0.
#![tactic(auto)]

ghost use Rattle.std.specs.Prelude.{◌≡◌, ◌+◌, ◌*◌, ◌-◌, ◌≤◌, ◌<◌, length, get_or};
ghost use Rattle.task.specs.Jobs.{read_of, write_of};
ghost use Rattle.chain.specs.Chains.{zero_task, at, forward_by, backward_by, job_of};
ghost use Rattle.chain.specs.Hyperperiod.{hyper_of, UpToLimit};
ghost use Rattle.chain.specs.Checks.{found, first_fault, hyper_verdict, verdict_of, verdict_in, Sound};
ghost use Rattle.chain.specs.Flat.{flat_chain, flat_length, given_in, tasks_in};

use refusal::{Reason, Refusal};
use task::{Job, Place, Task};

// Document 01: one chain of 1 to 12 places; a task may fill several. Entries of `tasks` from `places` on are no part of the chain.
// Order 5 of document 02: the gap of every link, 0 to 1,000 ticks.
#[derive(Clone, Copy, PartialEq, Eq, Default, Debug)]
pub struct Chain {
    pub tasks: [Task; 12],
    pub places: usize,
    pub gap: u64,
}

// ---- the tasks as a flat list

// The tasks of a chain as the flat list T, D, F, T, D, F, .. Its first 3 * places numbers are those of the places.
pub fn flat(c: Chain) -> [u64; 36]
    ensures { result ≡ flat_chain c.tasks }
{
    let mut list = [0u64; 36];
    for (i, a) in c.tasks.iter().enumerate() {
        list[3 * i] = a.period;
        list[3 * i + 1] = a.duration;
        list[3 * i + 2] = a.phase;
    }
    list
}

// How many numbers of a chain's flat list are lent to the calls that take such a list. Of a chain of more than 12 places it is none, since an empty list is refused with 8 as well.
pub fn flat_length(places: usize) -> usize
    ensures { result ≡ flat_length places }
{
    if 12 < places { 0 } else { 3 * places }
}

// Task i of a flat list.
fn given_at(tasks: &[u64], i: usize) -> Task
    requires { (i < length (given_in tasks.now)) × (i < 12) }
    ensures { result ≡ get_or (given_in tasks.now) i zero_task }
{
    let k = 3 * i;
    Task {
        period: tasks[k],
        duration: tasks[k + 1],
        phase: tasks[k + 2],
    }
}

// Place i of a flat list.
pub fn task_at(tasks: &[u64], gap: u64, i: usize) -> Place
    requires { (i < length (tasks_in gap tasks.now)) × (i < 12) }
    ensures { result ≡ at (tasks_in gap tasks.now) i }
{
    let a = given_at(tasks, i);
    Place {
        period: a.period,
        duration: a.duration,
        phase: a.phase,
        gap,
    }
}

// ---- the checks

// The lowest position whose task has a value outside its limits, counted from 1.
fn first_fault(tasks: &[u64]) -> Option<usize>
    requires { length (given_in tasks.now) ≤ 12 }
    ensures { result ≡ found (first_fault 1 (given_in tasks.now)) }
{
    for i in 0..tasks.len() / 3 {
        if !given_at(tasks, i).within_limits() {
            return Some(i + 1);
        }
    }
    None
}

// The hyperperiod of a list that passed 8 and 5, for the crates above; where it is above the limit, some number above the limit: the multiple only grows, so the first value
// above it decides. The gap is that of the places, of which H is; it has no part in H.
pub fn hyperperiod_on(tasks: &[u64], gap: u64) -> u64
    requires { Sound (tasks_in gap tasks.now) }
    ensures { UpToLimit (hyper_of (tasks_in gap tasks.now)) result }
{
    let mut h = 1;
    for i in 0..tasks.len() / 3 {
        let a = task_at(tasks, gap, i);
        h = euclid::lcm(h, a.period);
        if 60000000 < h {
            return h;
        }
    }
    h
}

// Accepted with the hyperperiod, or 7.
fn hyper_verdict(tasks: &[u64], gap: u64) -> Result<u64, Refusal>
    requires { Sound (tasks_in gap tasks.now) }
    ensures { result ≡ hyper_verdict (tasks_in gap tasks.now) }
{
    let h = hyperperiod_on(tasks, gap);
    if h <= 60000000 {
        return Ok(h);
    }
    Err(Refusal::HYPERPERIOD_TOO_LONG)
}

// The checks of a flat list of tasks, one for each place, and of the gap.
pub fn check_on(tasks: &[u64], gap: u64) -> Result<u64, Refusal>
    ensures { result ≡ verdict_in gap (given_in tasks.now) }
{
    let n = tasks.len() / 3;
    if !(1..=12).contains(&n) {
        return Err(Refusal::PLACES_OUTSIDE_LIMITS);
    }
    if let Some(p) = first_fault(tasks) {
        return Err(Refusal {
            number: Reason::TaskOutsideLimits as u64,
            place: p,
        });
    }
    if 1000 < gap {
        return Err(Refusal::TASK_OUTSIDE_LIMITS);
    }
    hyper_verdict(tasks, gap)
}

// The checks of a chain to be analysed, in the documents' order: 8; 5, of the gap after the tasks; 7.
pub fn check(c: Chain) -> Result<u64, Refusal>
    ensures { result ≡ verdict_of c }
{
    let tasks = flat(c);
    let n = flat_length(c.places);
    check_on(&tasks[..n], c.gap)
}

// ---- the ways along the tasks of a chain that passes 8 and 5, as a flat list

// From job j at place p forward to place q.
pub fn forward_on(tasks: &[u64], gap: u64, p: usize, q: usize, j: Job) -> Job
    requires { (Sound (tasks_in gap tasks.now)) × (p ≤ q) × (q < length (tasks_in gap tasks.now)) × (write_of (at (tasks_in gap tasks.now) p) j.0 ≤ 1500000000000) }
    ensures { result.0 ≡ forward_by (tasks_in gap tasks.now) p (q - p) j.0 }
{
    let mut k = j;
    let mut a = task_at(tasks, gap, p);
    for i in p..q {
        let b = task_at(tasks, gap, i + 1);
        k = a.forward_to(b, k);
        a = b;
    }
    k
}

// From job m at place q backward to place p; there may be none.
pub fn backward_on(tasks: &[u64], gap: u64, p: usize, q: usize, m: Job) -> Option<Job>
    requires { (Sound (tasks_in gap tasks.now)) × (p ≤ q) × (q < length (tasks_in gap tasks.now)) × (read_of (at (tasks_in gap tasks.now) q) m.0 ≤ 1500000000000) }
    ensures { result ≡ backward_by (tasks_in gap tasks.now) p (q - p) m.0 }
{
    let mut k = m;
    let mut b = task_at(tasks, gap, q);
    for i in (p..q).rev() {
        let a = task_at(tasks, gap, i);
        let found = b.backward_to(a, k);
        match found {
            Some(j) => {
                k = j;
                b = a;
            }
            None => {
                return None;
            }
        }
    }
    Some(k)
}

// The job found, and 0 where there is none.
pub fn job_of(found: Option<Job>) -> Job
    ensures { result.0 ≡ job_of found }
{
    match found {
        Some(j) => j,
        None => Job(0),
    }
}
