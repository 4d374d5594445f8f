// A schedule as C and hosts give it and get it: lists of numbers and their counts, and the gap.
// `tasks` is the flat list number, T, D, F, number, T, D, F, .. with its count; `chains` has the task numbers of chain c, c from 0, from entry 12 c on;
// `places` has the number of places of each chain, with the count of chains. Every call here takes any lists and any numbers.
#![tactic(auto)]

ghost use Rattle.std.specs.Prelude.{◌≡◌, ◌+◌, ◌*◌, ◌≤◌, ◌<◌};
ghost use Rattle.capi_schedule.specs.FlatSchedule.{numbered_at, tasks_from, count_from, held_from, places_from, route_from, routes_from, schedule_from, flat_tasks, flat_routes, route_counts};

use schedule::{NumberedTask, Route, Schedule};
use std::array;
use task::Task;

// ---- a schedule from lists

// Task i of a flat list; zeros where the list does not hold it whole.
#[tactic(auto, using(crate::proofs::Flat::zero_task_is), unfolding(crate::specs::FlatSchedule::numbered_at))]
fn numbered_at(list: &[u64], i: usize) -> NumberedTask
    requires { i < 32 }
    ensures { result ≡ numbered_at list.now i }
{
    let at = 4 * i;
    if list.len() < at + 4 {
        return NumberedTask::default();
    }
    NumberedTask {
        number: list[at],
        task: Task {
            period: list[at + 1],
            duration: list[at + 2],
            phase: list[at + 3],
        },
    }
}

// The tasks of a flat list, as an array.
fn tasks_from(list: &[u64]) -> [NumberedTask; 32]
    ensures { result ≡ tasks_from list.now }
{
    array::from_fn(|i| numbered_at(list, i))
}

// The number of tasks, or 0 where the list does not hold that many.
#[tactic(auto, unfolding(crate::specs::FlatSchedule::count_from))]
fn count_from(long: usize, count: usize) -> usize
    ensures { result ≡ count_from long count }
{
    if long % 4 != 0 {
        return 0;
    }
    if long / 4 < count {
        return 0;
    }
    count
}

// A count, or 0 where a list of so many entries does not hold that many.
#[tactic(auto, unfolding(crate::specs::FlatSchedule::held_from))]
fn held_from(long: usize, count: usize) -> usize
    ensures { result ≡ held_from long count }
{
    if long < count {
        return 0;
    }
    count
}

// The places of a chain whose numbers stand from entry `from` on, as an array.
fn places_from(list: &[u64], from: usize) -> [u64; 12]
    requires { from ≤ 36 }
    ensures { result ≡ places_from list.now from }
{
    array::from_fn(|i| list.get(from + i).copied().unwrap_or(0))
}

// Chain c of the lists.
#[tactic(auto, using(crate::proofs::Flat::none_counted, crate::proofs::Flat::none_held))]
fn route_from(chains: &[u64], places: &[u64], c: usize) -> Route
    requires { c < 4 }
    ensures { result ≡ route_from chains.now places.now c }
{
    let numbers = places_from(chains, 12 * c);
    if places.len() <= c {
        return Route {
            places: numbers,
            count: 0,
        };
    }
    if chains.len() < 12 * c {
        return Route {
            places: numbers,
            count: 0,
        };
    }
    Route {
        places: numbers,
        count: held_from(chains.len() - 12 * c, places[c] as usize),
    }
}

// The chains of the lists, as an array.
fn routes_from(chains: &[u64], places: &[u64]) -> [Route; 4]
    ensures { result ≡ routes_from chains.now places.now }
{
    array::from_fn(|c| route_from(chains, places, c))
}

// The schedule of the lists, their counts and the gap.
pub fn schedule_from(
    tasks: &[u64],
    count: usize,
    chains: &[u64],
    places: &[u64],
    total: usize,
    gap: u64,
) -> Schedule
    ensures { result ≡ schedule_from tasks.now count chains.now places.now total gap }
{
    let all = tasks_from(tasks);
    let routes = routes_from(chains, places);
    Schedule {
        tasks: all,
        routes,
        count: count_from(tasks.len(), count),
        chains: held_from(places.len(), total),
        gap,
    }
}

// ---- lists from a schedule

// Tasks as the flat list number, T, D, F, ..
pub fn flat_tasks(tasks: [NumberedTask; 32]) -> [u64; 128]
    ensures { result ≡ flat_tasks tasks }
{
    let mut flat = [0; 128];
    for (i, t) in tasks.iter().enumerate() {
        flat[4 * i] = t.number;
        flat[4 * i + 1] = t.task.period;
        flat[4 * i + 2] = t.task.duration;
        flat[4 * i + 3] = t.task.phase;
    }
    flat
}

// The task numbers of chains, twelve entries each.
pub fn flat_routes(routes: [Route; 4]) -> [u64; 48]
    ensures { result ≡ flat_routes routes }
{
    array::from_fn(|i| routes[i / 12].places[i % 12])
}

// The numbers of places of chains.
pub fn route_counts(routes: [Route; 4]) -> [u64; 4]
    ensures { result ≡ route_counts routes }
{
    routes.map(|route| route.count as u64)
}
