// The smallest phase of a task with which a chain of a schedule keeps a bound (order 9 of document 02).
// `smallest_phase` is the entry point: it takes any schedule and any numbers. The other functions work on the flat list of the chain's tasks, whose phases they change, and on the numbers of the tasks at
// its places; they count places from 0.
// Phases are tried from 0 on, and a try ends at its first partition above the bound. Three things keep the tries few and short. Only the phases below the greatest common divisor of the task's period and the
// periods of the chain's other tasks are tried, since after them the chain is the same at another time. A try begins where a partition above the bound is likely: from phase to phase those often stay where they
// are, or move on by the same number of jobs each time. And no try works out a warm-up: every walk goes where all phases are warm.
#![tactic(auto)]

ghost use Rattle.std.specs.Prelude.{◌≡◌, length, take, get_or, ◌+◌, ◌-◌, ◌*◌, ◌/◌, ◌≤◌, ◌<◌};
ghost use Rattle.chain.specs.Chains.{given_of, zero_task};
ghost use Rattle.chain.specs.Hyperperiod.{hyper_of};
ghost use Rattle.chain.specs.Flat.{given_in, tasks_in};
ghost use Rattle.latency.specs.LongestPlace.{longest_period};
ghost use Rattle.phase.specs.Phases.{phase_from};
ghost use Rattle.phase.specs.MovedTasks.{moved_at};
ghost use Rattle.phase.specs.InList.{AcceptedList, Filled, OthersDivide, Begun, Finds, judged_in, phase_in};

use chain::Chain;
use latency::Greatest;
use refusal::Refusal;
use schedule::{Route, Schedule};
use task::{Job, Place};

// Where a search of phases ended, at the number of phases where none keeps the bound, and how many partitions were walked in all.
#[derive(Clone, Copy)]
pub struct Tried {
    pub phase: u64,
    pub walked: u64,
}

// Gives this phase to every place of the task with this number.
fn put_phase(tasks: &mut [u64], places: &[u64], number: u64, phase: u64)
    requires { (length places.now ≤ 12) × (length places.now ≡ length (given_in tasks.old)) }
    ensures { given_in tasks.new ≡ moved_at number phase places.now (given_in tasks.old) }
{
    for (i, place) in places.iter().enumerate() {
        if *place == number {
            tasks[3 * i + 2] = phase;
        }
    }
}

// A multiple of the periods of all tasks but the one with this number. It is the least, 1 where there are none, so that few phases are tried; that it is a multiple is all that the search needs.
fn others_multiple(tasks: &[u64], gap: u64, places: &[u64], number: u64) -> u64
    requires { AcceptedList gap places.now (given_in tasks.now) }
    ensures { OthersDivide number places.now (given_in tasks.now) result }
{
    let mut multiple: u64 = 1;
    for (i, place) in places.iter().enumerate() {
        if *place != number {
            let a = chain::task_at(tasks, gap, i);
            multiple = euclid::lcm(multiple, a.period);
        }
    }
    multiple
}

// A number below 2 n as one below n, n less where it is not. It says where a walk begins, so that it is below n is all that the search needs.
fn turned(x: u64, n: u64) -> u64
    requires { x < n + n }
    ensures { result < n }
{
    if x < n { x } else { x - n }
}

// Tries the phases below `phases`, each with a walk round the range of place p, n partitions. The third walk and each later one begins as far after the end of the one before as that one ended after the end of the one before it.
fn try_phases(
    tasks: &mut [u64],
    gap: u64,
    places: &[u64],
    number: u64,
    phases: u64,
    p: usize,
    n: u64,
    from: u64,
    bound: u64,
    reciprocals: &[u64],
) -> Tried
    requires { (Begun gap places.now (given_in tasks.old) p n from reciprocals.now) × (phases ≤ 10000) }
    ensures { Finds gap places.now (given_in tasks.old) number bound phases (phases * n) result }
{
    let mut at: u64 = 0;
    let mut stride: u64 = 0;
    let mut walked: u64 = 0;
    for phase in 0..phases {
        put_phase(tasks, places, number, phase);
        let start = turned(at + stride, n);
        let found = latency::walk_range_from(
            tasks,
            gap,
            places.len(),
            p,
            Job(from + start),
            n,
            bound,
            reciprocals,
        );
        walked += found.walked;
        if found.latency <= bound {
            return Tried { phase, walked };
        }
        let end = turned(start + (found.walked - 1), n);
        stride = turned(end + (n - at), n);
        at = end;
    }
    Tried {
        phase: phases,
        walked,
    }
}

// The same at the place of the longest period, h being the hyperperiod. No warm-up job reads after tick 60,011,000, whatever the phases are.
fn search(
    tasks: &mut [u64],
    gap: u64,
    places: &[u64],
    number: u64,
    phases: u64,
    h: u64,
    bound: u64,
) -> Tried
    requires { (AcceptedList gap places.now (given_in tasks.old)) × (h ≡ hyper_of (tasks_in gap tasks.old)) × (phases ≤ 10000) }
    ensures { Finds gap places.now (given_in tasks.old) number bound phases (phases * (h / longest_period (tasks_in gap tasks.old))) result }
{
    let p = latency::longest_place(tasks, gap) - 1;
    let t = chain::task_at(tasks, gap, p);
    let from = 60011000 / t.period + 1;
    let mut reciprocals = [0u64; 36];
    outset::reciprocals_of(tasks, gap, places.len(), &mut reciprocals);
    try_phases(
        tasks,
        gap,
        places,
        number,
        phases,
        p,
        h / t.period,
        from,
        bound,
        &reciprocals,
    )
}

// All phases of the task at place `at`: the smallest that keeps the bound, or its period where none does. No more than h partitions are walked in all.
fn search_period(
    tasks: &mut [u64],
    gap: u64,
    places: &[u64],
    at: usize,
    h: u64,
    bound: u64,
) -> Tried
    requires { (AcceptedList gap places.now (given_in tasks.old)) × (Filled places.now (given_in tasks.old)) × (h ≡ hyper_of (tasks_in gap tasks.old)) × (at < length places.now) × ((get_or (given_in tasks.old) at zero_task).period ≤ 10000) }
    ensures { Finds gap places.now (given_in tasks.old) (get_or places.now at 0) bound (get_or (given_in tasks.old) at zero_task).period h result }
{
    let number = places[at];
    let t = chain::task_at(tasks, gap, at);
    let phases = euclid::gcd(t.period, others_multiple(tasks, gap, places, number));
    let found = search(tasks, gap, places, number, phases, h, bound);
    if found.phase < phases {
        return found;
    }
    Tried {
        phase: t.period,
        walked: found.walked,
    }
}

// 19, a task that is not in the chain; 20, a period above 10,000; then the search.
fn judged(
    tasks: &mut [u64],
    gap: u64,
    places: &[u64],
    number: u64,
    h: u64,
    bound: u64,
) -> Result<Option<u64>, Refusal>
    requires { (AcceptedList gap places.now (given_in tasks.old)) × (Filled places.now (given_in tasks.old)) × (h ≡ hyper_of (tasks_in gap tasks.old)) }
    ensures { result ≡ judged_in gap places.now (given_in tasks.old) number bound }
{
    let Some(at) = schedule::find(places, number) else {
        return Err(Refusal::TASK_NOT_IN_CHAIN);
    };
    let t = chain::task_at(tasks, gap, at);
    if 10000 < t.period {
        return Err(Refusal::PERIOD_TOO_LONG);
    }
    let found = search_period(tasks, gap, places, at, h, bound);
    if found.phase < t.period {
        return Ok(Some(found.phase));
    }
    Ok(None)
}

// The list's own checks first.
fn phase_on(
    tasks: &mut [u64],
    gap: u64,
    places: &[u64],
    number: u64,
    bound: u64,
) -> Result<Option<u64>, Refusal>
    requires { Filled places.now (given_in tasks.old) }
    ensures { result ≡ phase_in gap places.now (given_in tasks.old) number bound }
{
    let h = chain::check_on(tasks, gap)?;
    judged(tasks, gap, places, number, h, bound)
}

// Of a chain by value, and the numbers of the tasks at its places.
fn phase_in(c: Chain, places: [u64; 12], number: u64, bound: u64) -> Result<Option<u64>, Refusal>
    requires { (c.places ≤ 12) × Filled (take c.places places) (given_of c) }
    ensures { result ≡ phase_in c.gap (take c.places places) (given_of c) number bound }
{
    let mut tasks = chain::flat(c);
    let count = c.places;
    let n = 3 * count;
    phase_on(&mut tasks[..n], c.gap, &places[..count], number, bound)
}

// The smallest phase of the task with a number with which chain n, counted from 1, has no latency above the bound; refusals 8, 5, 6 and 16 of the schedule, then 7, 19 and 20.
pub fn smallest_phase(
    s: Schedule,
    n: usize,
    number: u64,
    bound: u64,
) -> Result<Option<u64>, Refusal>
    ensures { result ≡ phase_from s n number bound }
{
    let c = schedule_checks::chain_number(s, n)?;
    let route = s.routes[n - 1];
    phase_in(c, route.places, number, bound)
}
