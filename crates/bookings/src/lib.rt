// Two chains side by side (order 1 of document 02): when a press is booked by each, how far the two bookings lie apart, and the greatest such difference.
// Its calls `pair` and `pair_on` take any values: two chains, or two flat lists T, D, F, T, D, F, .. of tasks, one for each place, which are lent and not copied, with a gap each.
#![tactic(auto)]

ghost use Rattle.std.specs.Prelude.{◌≡◌, ◌-◌, ◌≤◌};
ghost use Rattle.chain.specs.Checks.{Sound};
ghost use Rattle.chain.specs.Flat.{given_in, tasks_in};
ghost use Rattle.ranges.specs.Largest.{largest};
ghost use Rattle.bookings.specs.Bookings.{apart_at, pair_verdict, bookings_in, bookings_of};
ghost use Rattle.bookings.specs.Stretches.{stretch_at, stretch_on};

use chain::Chain;
use refusal::Refusal;
use task::Tick;

// The later and the earlier of two bookings of one press, their difference, and the greatest difference over all presses.
#[derive(Clone, Copy, PartialEq, Eq, Debug)]
pub struct Bookings {
    pub later: Tick,
    pub earlier: Tick,
    pub difference: u64,
    pub greatest: u64,
}

// When a press is booked, and the tick from which on a press is booked later.
#[derive(Clone, Copy)]
pub struct Stretch {
    pub booking: Tick,
    pub until: Tick,
}

// ---- stretches

// The booking of a press at t, and how long it stands: forward to the last write, and back to the first place's latest job that is written as early.
#[tactic(auto, using(timing::proofs::Whole::some_place, timing::proofs::Whole::last_inside, timing::proofs::Whole::last_place_small))]
fn stretch_at(tasks: &[u64], gap: u64, t: Tick) -> Stretch
    requires { (Sound (tasks_in gap tasks.now)) × (t.0 ≤ 1000000000000) }
    ensures { result ≡ stretch_at (tasks_in gap tasks.now) t.0 }
{
    let n = tasks.len() / 3 - 1;
    let first = chain::task_at(tasks, gap, 0);
    let i = first.earliest_after(t);
    let k = chain::forward_on(tasks, gap, 0, n, i);
    let last = chain::task_at(tasks, gap, n);
    let booking = last.write(k);
    let j = chain::job_of(chain::backward_on(tasks, gap, 0, n, k));
    let until = first.read(j);
    Stretch { booking, until }
}

// The stretch in hand while it lasts, else the one at t.
#[tactic(auto, using(crate::proofs::Whole::on_kept, crate::proofs::Whole::on_anew))]
fn stretch_on(tasks: &[u64], gap: u64, s: Stretch, t: Tick) -> Stretch
    requires { (Sound (tasks_in gap tasks.now)) × (t.0 ≤ 1000000000000) }
    ensures { result ≡ stretch_on (tasks_in gap tasks.now) s t.0 }
{
    if t.0 < s.until.0 {
        return s;
    }
    stretch_at(tasks, gap, t)
}

// The greatest difference at the ticks from `from` to below `end`, from stretch to stretch: between two of their ends nothing changes.
fn greatest_apart(first: &[u64], gap1: u64, second: &[u64], gap2: u64, from: Tick, end: Tick) -> u64
    requires { (Sound (tasks_in gap1 first.now)) × (Sound (tasks_in gap2 second.now)) × (from.0 ≤ end.0) × (end.0 ≤ 900000000000) }
    ensures { result ≡ largest (apart_at (tasks_in gap1 first.now) (tasks_in gap2 second.now)) from.0 (end.0 - from.0) }
{
    let mut t = from;
    let mut a = stretch_at(first, gap1, t);
    let mut b = stretch_at(second, gap2, t);
    let mut most: u64 = 0;
    while t.0 < end.0 {
        most = most.max(a.booking.0.abs_diff(b.booking.0));
        t = Tick(a.until.0.min(b.until.0));
        a = stretch_on(first, gap1, a, t);
        b = stretch_on(second, gap2, b, t);
    }
    most
}

// ---- the call

// The checks of the first chain, then of the second, then 7 for their common hyperperiod; accepted with it.
#[tactic(auto, using(crate::proofs::Exits::pair_first, crate::proofs::Exits::pair_second))]
fn check_pair(first: &[u64], gap1: u64, second: &[u64], gap2: u64) -> Result<u64, Refusal>
    ensures { result ≡ pair_verdict gap1 (given_in first.now) gap2 (given_in second.now) }
{
    let h = chain::check_on(first, gap1)?;
    let k = chain::check_on(second, gap2)?;
    let both = euclid::lcm(h, k);
    if 60000000 < both {
        return Err(Refusal::HYPERPERIOD_TOO_LONG);
    }
    Ok(both)
}

// The bookings of a press at tick t by two chains, as flat lists of tasks, each with the gap of its links.
#[tactic(auto, using(crate::proofs::Exits::paired, crate::proofs::Exits::pair_warm_holds, crate::proofs::Exits::range_fits, crate::proofs::Exits::tick_top))]
pub fn pair_on(
    first: &[u64],
    gap1: u64,
    second: &[u64],
    gap2: u64,
    t: Tick,
) -> Result<Bookings, Refusal>
    ensures { result ≡ bookings_in gap1 (given_in first.now) gap2 (given_in second.now) t.0 }
{
    let h = check_pair(first, gap1, second, gap2)?;
    let warm1 = timing::warm_tick(first, gap1);
    let warm2 = timing::warm_tick(second, gap2);
    let from = Tick(warm1.0.max(warm2.0));
    timing::check_tick(t, from)?;
    let a = stretch_at(first, gap1, t);
    let b = stretch_at(second, gap2, t);
    let greatest = greatest_apart(first, gap1, second, gap2, from, Tick(from.0 + h));
    let (one, two) = (a.booking.0, b.booking.0);
    let late = one.max(two);
    let early = one.min(two);
    let difference = one.abs_diff(two);
    Ok(Bookings {
        later: Tick(late),
        earlier: Tick(early),
        difference,
        greatest,
    })
}

// Document 02's bookings of two chains, for a press at tick t; refusals 8, 5, 7 of the first, then of the second, 7 of their common hyperperiod, 12, 13.
pub fn pair(first: Chain, second: Chain, t: Tick) -> Result<Bookings, Refusal>
    ensures { result ≡ bookings_of first second t.0 }
{
    let one = chain::flat(first);
    let n = chain::flat_length(first.places);
    let two = chain::flat(second);
    let m = chain::flat_length(second.places);
    pair_on(&one[..n], first.gap, &two[..m], second.gap, t)
}
