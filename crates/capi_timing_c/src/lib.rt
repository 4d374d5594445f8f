// The exports of `capi_timing` for C: each calls the function of its name there, with the same clauses. include/meshorchard.h declares them.
#![tactic(auto)]

ghost use Rattle.capi_chain.specs.FlatChain.{chain_from};
ghost use Rattle.timing.specs.Answers.{warm_up_of};
ghost use Rattle.capi_timing.specs.Calls.{GivesCheck, GivesDelay, GivesAge, GivesWarmUp};

// The checks of a chain, 8, 5 and 7, and its hyperperiod.
#[unsafe(no_mangle)]
pub extern "C" fn mo_check(tasks: &[u64], places: usize, gap: u64, hyperperiod: &mut u64) -> u64
    ensures { GivesCheck (chain_from tasks.now places gap) result hyperperiod.new }
{
    capi_timing::mo_check(tasks, places, gap, hyperperiod)
}

// Warm-up: W1 to Wn, and zeros past them, the warm-up tick x0 and the hyperperiod.
#[unsafe(no_mangle)]
pub extern "C" fn mo_warm_up(
    tasks: &[u64],
    places: usize,
    gap: u64,
    jobs: &mut [u64; 12],
    tick: &mut u64,
    hyperperiod: &mut u64,
) -> u64
    ensures { GivesWarmUp (warm_up_of (chain_from tasks.now places gap)) result jobs.new tick.new hyperperiod.new }
{
    capi_timing::mo_warm_up(tasks, places, gap, jobs, tick, hyperperiod)
}

// Walking: the delay of a press at tick t.
#[unsafe(no_mangle)]
pub extern "C" fn mo_delay(tasks: &[u64], places: usize, gap: u64, t: u64, delay: &mut u64) -> u64
    ensures { GivesDelay (chain_from tasks.now places gap) t result delay.new }
{
    capi_timing::mo_delay(tasks, places, gap, t, delay)
}

// Ageing: the age at tick z.
#[unsafe(no_mangle)]
pub extern "C" fn mo_age(tasks: &[u64], places: usize, gap: u64, z: u64, age: &mut u64) -> u64
    ensures { GivesAge (chain_from tasks.now places gap) z result age.new }
{
    capi_timing::mo_age(tasks, places, gap, z, age)
}
