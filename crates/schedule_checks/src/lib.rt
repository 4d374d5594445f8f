// The one judge of a schedule, and the one place where a chain is chosen by its number.
// `check` and `chain_number` take any schedule and any number; `chain_in` is for the crates above; the other functions make one check each.
#![tactic(auto)]

ghost use Rattle.std.specs.Prelude.{◌≡◌, true, map, ◌+◌, ◌≤◌, ◌<◌, length};
ghost use Rattle.refusal.specs.Refusals.{refusal};
ghost use Rattle.chain.specs.Checks.{found};
ghost use Rattle.schedule.specs.Schedules.{places_of};
ghost use Rattle.schedule_checks.specs.Checks.{count_right, places_right, counts_right, first_fault, first_unknown, unknown_place, fault_of, passed, chosen_of};

use chain::Chain;
use refusal::{Reason, Refusal};
use schedule::{NumberedTask, Route, Schedule};

// ---- 8

// Whether a count is from 1 to its limit.
#[tactic(auto, unfolding(crate::specs::Checks::count_right))]
fn count_right(n: usize, limit: usize) -> bool
    ensures { result ≡ count_right n limit }
{
    (1..=limit).contains(&n)
}

// Whether each of the routes has 1 to 12 places.
fn places_right(routes: &[Route]) -> bool
    ensures { result ≡ places_right routes.now }
{
    routes.iter().all(|route| count_right(route.count, 12))
}

// Whether the schedule's counts are inside their limits: its tasks, its chains, and the places of each chain.
#[tactic(auto, using(crate::proofs::SoundSchedule::count_right_holds), unfolding(crate::specs::Checks::counts_right))]
fn counts_right(s: Schedule) -> bool
    ensures { result ≡ counts_right s }
{
    count_right(s.count, 32) && count_right(s.chains, 4) && places_right(&s.routes[..s.chains])
}

// ---- 5

// The lowest position whose task has a number or a value outside its rule, counted from 1.
fn first_fault(tasks: &[NumberedTask]) -> Option<usize>
    ensures { result ≡ found (first_fault 1 0 tasks.now) }
{
    let mut before = 0;
    for (i, task) in tasks.iter().enumerate() {
        if !schedule::follows(before, *task) {
            return Some(i + 1);
        }
        before = task.number;
    }
    None
}

// ---- 6

// The lowest place of a chain whose number no task has, counted from 1.
fn first_unknown(chain: &[u64], numbers: &[u64]) -> Option<usize>
    ensures { result ≡ found (first_unknown 1 numbers.now chain.now) }
{
    for (i, number) in chain.iter().enumerate() {
        if schedule::find(numbers, *number).is_none() {
            return Some(i + 1);
        }
    }
    None
}

// The same chain by chain: the place in the first chain that has one.
fn unknown_place(routes: &[Route], numbers: &[u64]) -> Option<usize>
    requires { places_right routes.now ≡ true }
    ensures { result ≡ found (unknown_place numbers.now (map places_of routes.now)) }
{
    for route in routes {
        let unknown = first_unknown(&route.places[..route.count], numbers);
        if unknown.is_some() {
            return unknown;
        }
    }
    None
}

// ---- the judge

fn refused(number: u64, place: usize) -> Refusal
    ensures { result ≡ refusal number place }
{
    Refusal { number, place }
}

// The checks of a schedule: 8; 5, of the gap after the tasks; 6.
#[inline(never)]
pub fn check(s: Schedule) -> Result<(), Refusal>
    ensures { result ≡ passed (fault_of s) }
{
    if !counts_right(s) {
        return Err(refused(Reason::PlacesOutsideLimits as u64, 0));
    }
    if let Some(p) = first_fault(&s.tasks[..s.count]) {
        return Err(refused(Reason::TaskOutsideLimits as u64, p));
    }
    if 1000 < s.gap {
        return Err(refused(Reason::TaskOutsideLimits as u64, 0));
    }
    let numbers = schedule::numbers_of(s.tasks);
    if let Some(p) = unknown_place(&s.routes[..s.chains], &numbers[..s.count]) {
        return Err(refused(Reason::TaskUnknown as u64, p));
    }
    Ok(())
}

// ---- the choice

// Chain n, counted from 1, of a schedule that passes `check`: 16 for a number that is not in it. For the crates above, which judge once and choose twice.
#[inline(never)]
#[tactic(auto, using(crate::proofs::SoundSchedule::count_right_holds, crate::proofs::Choice::chain_chosen, crate::proofs::Choice::number_refused))]
pub fn chain_in(s: Schedule, n: usize) -> Result<Chain, Refusal>
    requires { (fault_of s).number ≡ 0 }
    ensures { result ≡ chosen_of s n }
{
    if !count_right(n, s.chains) {
        return Err(refused(Reason::ChainUnknown as u64, 0));
    }
    Ok(schedule::chain_of(s, s.routes[n - 1]))
}

// Chain n of any schedule: 8, 5, 6 of the schedule, then 16.
pub fn chain_number(s: Schedule, n: usize) -> Result<Chain, Refusal>
    ensures { result ≡ chosen_of s n }
{
    check(s)?;
    chain_in(s, n)
}
