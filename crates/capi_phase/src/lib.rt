// The smallest phase that keeps a bound (order 9 of document 02) for C and for hosts: plain numbers and lists of numbers. include/meshorchard.h declares the call and says how to use it.
// A schedule is given as the lists of `capi_schedule`.
#![tactic(auto)]

ghost use Rattle.capi_schedule.specs.FlatSchedule.{schedule_from};
ghost use Rattle.capi_phase.specs.Calls.{GivesPhase};

// The smallest phase of the task with a number with which chain `chain`, counted from 1, has no latency above the bound; or `none` 1.
#[unsafe(no_mangle)]
pub extern "C" fn mo_smallest_phase(
    tasks: &[u64],
    count: usize,
    chains: &[u64],
    places: &[u64],
    total: usize,
    gap: u64,
    chain: usize,
    number: u64,
    bound: u64,
    phase: &mut u64,
    none: &mut u64,
) -> u64
    ensures { GivesPhase (schedule_from tasks.now count chains.now places.now total gap) chain number bound result phase.new none.new }
{
    let s = capi_schedule::schedule_from(tasks, count, chains, places, total, gap);
    let a = phase::smallest_phase(s, chain, number, bound);
    match a {
        Ok(found) => match found {
            Some(f) => {
                *phase = f;
                *none = 0;
                0
            }
            None => {
                *phase = 0;
                *none = 1;
                0
            }
        },
        Err(r) => {
            *phase = 0;
            *none = 0;
            r.code()
        }
    }
}
