// Two chains of a schedule (order 1 of document 02) for C and for hosts: plain numbers and lists of numbers. include/meshorchard.h declares the call and says how to use it.
// A schedule is given as the lists of `capi_schedule`.
#![tactic(auto)]

ghost use Rattle.capi_schedule.specs.FlatSchedule.{schedule_from};
ghost use Rattle.capi_bookings.specs.Calls.{GivesBookings};

use task::Tick;

// The bookings of a press at tick t by chains `first` and `second`, counted from 1: the later, the earlier, their difference, and the greatest difference.
#[unsafe(no_mangle)]
pub extern "C" fn mo_bookings(
    tasks: &[u64],
    count: usize,
    chains: &[u64],
    places: &[u64],
    total: usize,
    gap: u64,
    first: usize,
    second: usize,
    t: u64,
    figures: &mut [u64; 4],
) -> u64
    ensures { GivesBookings (schedule_from tasks.now count chains.now places.now total gap) first second t result figures.new }
{
    let s = capi_schedule::schedule_from(tasks, count, chains, places, total, gap);
    let b = from_schedule::pair_of(s, first, second, Tick(t));
    match b {
        Ok(both) => {
            *figures = [both.later.0, both.earlier.0, both.difference, both.greatest];
            0
        }
        Err(r) => {
            *figures = [0, 0, 0, 0];
            r.code()
        }
    }
}
