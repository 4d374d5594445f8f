// The exports of `capi_load` for C: each calls the function of its name there, with the same clauses. include/meshorchard.h declares them.
#![tactic(auto)]

ghost use Rattle.capi_load.specs.Calls.{GivesLoad};

// T, D, F of each place of the chain that a seed and a number of places make, with zeros past them.
#[unsafe(no_mangle)]
pub extern "C" fn mo_load(seed: u64, places: usize, tasks: &mut [u64; 36]) -> u64
    ensures { GivesLoad seed places result tasks.new }
{
    capi_load::mo_load(seed, places, tasks)
}
