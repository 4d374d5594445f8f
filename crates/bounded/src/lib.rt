// A schedule with a bound for each of its chains, by value (order 10 of document 02): the same with zeros past its counts, and whether two are the same.
// Every function takes any values.
#![tactic(auto, using(crate::proofs::Zeros::bounded_zero, crate::proofs::Zeros::rest_filled, crate::proofs::Derived::bounded_same))]

ghost use Rattle.std.specs.Prelude.{◌≡◌, map, length, take};
ghost use Rattle.schedule.specs.Schedules.{padded, zero_numbered, empty_route};
ghost use Rattle.bounded.specs.Bounded.{cleared_route, cleared_schedule, cleared, zero_bounded, same_bounded};

use schedule::{NumberedTask, Route, Schedule};

// A schedule and the bound of each chain, in their order. Bounds past the count of chains are no part of it, nor is any entry of the schedule past a count.
#[repr(C)]
#[derive(Clone, Copy, PartialEq, Eq, Default, Debug)]
pub struct Bounded {
    pub schedule: Schedule,
    pub bounds: [u64; 4],
}

// ---- zeros

// A schedule of zeros with bounds of zeros.
pub fn zero_bounded() -> Bounded
    ensures { result ≡ zero_bounded }
{
    Bounded::default()
}

// ---- zeros past the counts

fn cleared_tasks(tasks: [NumberedTask; 32], count: usize) -> [NumberedTask; 32]
    ensures { result ≡ padded 32 zero_numbered (take count tasks) }
{
    let mut out = tasks;
    out[count.min(32)..].fill(NumberedTask::default());
    out
}

// Zeros in a list of numbers from an entry on.
fn clear_from(list: &mut [u64], from: usize)
    ensures { list.new ≡ padded (length list.old) 0 (take from list.old) }
{
    let start = from.min(list.len());
    list[start..].fill(0);
}

fn cleared_route(r: Route) -> Route
    ensures { result ≡ cleared_route r }
{
    let mut places = r.places;
    clear_from(&mut places, r.count);
    Route { places, ..r }
}

fn cleared_routes(routes: [Route; 4], chains: usize) -> [Route; 4]
    ensures { result ≡ padded 4 empty_route (map cleared_route (take chains routes)) }
{
    let mut out = routes.map(cleared_route);
    out[chains.min(4)..].fill(Route::default());
    out
}

// The schedule with zeros past its counts. The counts stay, also where they are above what the arrays hold.
fn cleared_schedule(s: Schedule) -> Schedule
    ensures { result ≡ cleared_schedule s }
{
    Schedule {
        tasks: cleared_tasks(s.tasks, s.count),
        routes: cleared_routes(s.routes, s.chains),
        ..s
    }
}

// The same with zeros past the counts, of the bounds too.
#[inline(never)]
pub fn cleared_of(b: Bounded) -> Bounded
    ensures { result ≡ cleared b }
{
    let mut bounds = b.bounds;
    clear_from(&mut bounds, b.schedule.chains);
    Bounded {
        schedule: cleared_schedule(b.schedule),
        bounds,
    }
}

// ---- comparison

// Whether the two are the same, every entry and every bound.
#[inline(never)]
pub fn same(a: Bounded, b: Bounded) -> bool
    ensures { result ≡ same_bounded a b }
{
    a == b
}
