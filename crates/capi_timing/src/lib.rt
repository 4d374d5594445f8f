// The calls for C and for hosts: plain numbers and lists of numbers. include/meshorchard.h declares them and says how to use them.
// A call answers 0, or its refusal as one number: the refusal's number and 256 times its place. What it gives else goes to the numbers that are lent to it.
#![tactic(auto)]

ghost use Rattle.std.specs.Prelude.{◌≡◌, map, ◌+◌, ◌*◌, ◌<◌};
ghost use Rattle.capi_chain.specs.FlatChain.{chain_from};
ghost use Rattle.timing.specs.Answers.{warm_up_of};
ghost use Rattle.capi_timing.specs.Calls.{span_code, span_ticks, job_number, GivesCheck, GivesDelay, GivesAge, GivesWarmUp, SmallSpan};

use refusal::Refusal;
use task::{Job, Tick};

// Gives a span of ticks: its code, and its ticks to the number lent.
fn give(s: Result<u64, Refusal>, out: &mut u64) -> u64
    requires { SmallSpan s }
    ensures { (result ≡ span_code s) × (out.new ≡ span_ticks s) }
{
    match s {
        Ok(n) => {
            *out = n;
            0
        }
        Err(r) => {
            *out = 0;
            r.code()
        }
    }
}

// The numbers of twelve jobs.
fn job_numbers(all: [Job; 12]) -> [u64; 12]
    ensures { result ≡ map job_number all }
{
    all.map(|job| job.0)
}

// The checks of a chain, 8, 5 and 7, and its hyperperiod.
pub fn mo_check(tasks: &[u64], places: usize, gap: u64, hyperperiod: &mut u64) -> u64
    ensures { GivesCheck (chain_from tasks.now places gap) result hyperperiod.new }
{
    let n = capi_chain::flat_length(tasks.len(), places);
    let v = chain::check_on(&tasks[..n], gap);
    match v {
        Ok(h) => {
            *hyperperiod = h;
            0
        }
        Err(r) => {
            *hyperperiod = 0;
            r.code()
        }
    }
}

// Warm-up: W1 to Wn, and zeros past them, the warm-up tick x0 and the hyperperiod.
pub fn mo_warm_up(
    tasks: &[u64],
    places: usize,
    gap: u64,
    jobs: &mut [u64; 12],
    tick: &mut u64,
    hyperperiod: &mut u64,
) -> u64
    ensures { GivesWarmUp (warm_up_of (chain_from tasks.now places gap)) result jobs.new tick.new hyperperiod.new }
{
    let n = capi_chain::flat_length(tasks.len(), places);
    match timing::warm_up_on(&tasks[..n], gap) {
        Ok(w) => {
            *jobs = job_numbers(w.jobs);
            *tick = w.tick.0;
            *hyperperiod = w.hyperperiod;
            0
        }
        Err(r) => {
            *jobs = [0; 12];
            *tick = 0;
            *hyperperiod = 0;
            r.code()
        }
    }
}

// Walking: the delay of a press at tick t.
pub fn mo_delay(tasks: &[u64], places: usize, gap: u64, t: u64, delay: &mut u64) -> u64
    ensures { GivesDelay (chain_from tasks.now places gap) t result delay.new }
{
    let n = capi_chain::flat_length(tasks.len(), places);
    give(timing::delay_on(&tasks[..n], gap, Tick(t)), delay)
}

// Ageing: the age at tick z.
pub fn mo_age(tasks: &[u64], places: usize, gap: u64, z: u64, age: &mut u64) -> u64
    ensures { GivesAge (chain_from tasks.now places gap) z result age.new }
{
    let n = capi_chain::flat_length(tasks.len(), places);
    give(timing::age_on(&tasks[..n], gap, Tick(z)), age)
}
