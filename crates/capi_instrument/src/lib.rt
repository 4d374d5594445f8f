// The instrument's state and its calls (order 10 of document 02) for C and for hosts: structs by value. include/meshorchard.h declares them and says how to use them.
// A schedule with bounds is a struct; `mo_bounded_schedule` makes one of the lists that mo_read_file gives.
#![tactic(auto)]

ghost use Rattle.std.specs.Prelude.{◌≡◌};
ghost use Rattle.capi_schedule.specs.FlatSchedule.{schedule_from};
ghost use Rattle.bounded.specs.Bounded.{cleared};
ghost use Rattle.instrument.specs.Instrument.{make_of, ask_of, commit_of};
ghost use Rattle.capi_instrument.specs.Calls.{bounded_from};

use bounded::Bounded;
use instrument::{Asked, Committed, MadeState, State};

// The schedule of the lists, their counts and the gap, with these bounds. Nothing is judged here.
#[unsafe(no_mangle)]
pub extern "C" fn mo_bounded_schedule(
    tasks: &[u64],
    count: usize,
    chains: &[u64],
    places: &[u64],
    total: usize,
    gap: u64,
    bounds: &[u64; 4],
) -> Bounded
    ensures { result ≡ bounded_from (schedule_from tasks.now count chains.now places.now total gap) bounds.now }
{
    let schedule = capi_schedule::schedule_from(tasks, count, chains, places, total, gap);
    let all = *bounds;
    Bounded {
        schedule,
        bounds: all,
    }
}

// A state in which a schedule with bounds runs.
#[unsafe(no_mangle)]
pub extern "C" fn mo_make_state(b: Bounded) -> MadeState
    ensures { result ≡ make_of (cleared b) }
{
    instrument::make_state(b)
}

// Tries a schedule with bounds.
#[unsafe(no_mangle)]
pub extern "C" fn mo_ask(s: State, b: Bounded) -> Asked
    ensures { result ≡ ask_of s (cleared b) }
{
    instrument::ask(s, b)
}

// Makes the proposal run, which is named again.
#[unsafe(no_mangle)]
pub extern "C" fn mo_commit(s: State, b: Bounded) -> Committed
    ensures { result ≡ commit_of s (cleared b) }
{
    instrument::commit(s, b)
}
