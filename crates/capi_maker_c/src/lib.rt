// The exports of `capi_maker` for C: each calls the function of its name there, with the same clauses. include/meshorchard.h declares them.
#![tactic(auto)]

ghost use Rattle.capi_chain.specs.FlatChain.{chain_from};
ghost use Rattle.capi_maker.specs.Calls.{GivesTable};

// Makes the table of a chain cut at place p, p counted from 1.
#[unsafe(no_mangle)]
pub extern "C" fn mo_make_table(
    tasks: &[u64],
    places: usize,
    gap: u64,
    p: usize,
    starts: &mut [u64],
    latencies: &mut [u64],
    figures: &mut [u64; 4],
) -> u64
    ensures { GivesTable (chain_from tasks.now places gap) p starts.old latencies.old result starts.new latencies.new figures.new }
{
    capi_maker::mo_make_table(tasks, places, gap, p, starts, latencies, figures)
}
