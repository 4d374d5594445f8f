// Windows of jobs for C and for hosts: plain numbers and lists of numbers. include/meshorchard.h declares the call and says how to use it.
#![tactic(auto)]

ghost use Rattle.capi_chain.specs.FlatChain.{chain_from};
ghost use Rattle.capi_windows.specs.Calls.{GivesWindows};

// The largest number of misses of b in k successive jobs of the first place, and the earliest starting job whose window has as many.
pub fn mo_windows(
    tasks: &[u64],
    places: usize,
    gap: u64,
    b: u64,
    k: u64,
    misses: &mut u64,
    first: &mut u64,
) -> u64
    ensures { GivesWindows (chain_from tasks.now places gap) b k result misses.new first.new }
{
    let n = capi_chain::flat_length(tasks.len(), places);
    match windows::most_misses_on(&tasks[..n], gap, b, k) {
        Ok(w) => {
            *misses = w.most;
            *first = w.first.0;
            0
        }
        Err(r) => {
            *misses = 0;
            *first = 0;
            r.code()
        }
    }
}
