// A made-up chain for C and for hosts, as plain numbers. include/meshorchard.h declares the call and says how to use it.
#![tactic(auto)]

ghost use Rattle.capi_load.specs.Calls.{GivesLoad};

// T, D, F of each place of the chain that a seed and a number of places make, with zeros past them.
pub fn mo_load(seed: u64, places: usize, tasks: &mut [u64; 36]) -> u64
    ensures { GivesLoad seed places result tasks.new }
{
    match load::make_load(seed, places) {
        Ok(c) => {
            *tasks = chain::flat(c);
            0
        }
        Err(r) => {
            *tasks = [0; 36];
            r.code()
        }
    }
}
