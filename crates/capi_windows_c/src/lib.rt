// The exports of `capi_windows` for C: each calls the function of its name there, with the same clauses. include/meshorchard.h declares them.
#![tactic(auto)]

ghost use Rattle.capi_chain.specs.FlatChain.{chain_from};
ghost use Rattle.capi_windows.specs.Calls.{GivesWindows};

// The largest number of misses of b in k successive jobs of the first place, and the earliest starting job whose window has as many.
#[unsafe(no_mangle)]
pub extern "C" fn mo_windows(
    tasks: &[u64],
    places: usize,
    gap: u64,
    b: u64,
    k: u64,
    misses: &mut u64,
    first: &mut u64,
) -> u64
    ensures { GivesWindows (chain_from tasks.now places gap) b k result misses.new first.new }
{
    capi_windows::mo_windows(tasks, places, gap, b, k, misses, first)
}
