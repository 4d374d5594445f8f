// The exports of `capi_sections` for C: each calls the function of its name there, with the same clauses. include/meshorchard.h declares them.
#![tactic(auto)]

ghost use Rattle.capi_chain.specs.FlatChain.{chain_from};
ghost use Rattle.capi_sections.specs.Calls.{GivesSections};

// The greatest latency of each section of a chain that is cut, with zeros past them, the number of sections, and the sum with one gap for each cut.
#[unsafe(no_mangle)]
pub extern "C" fn mo_sections(
    tasks: &[u64],
    places: usize,
    gap: u64,
    cuts: &[u64],
    latencies: &mut [u64; 12],
    count: &mut u64,
    sum: &mut u64,
) -> u64
    ensures { GivesSections (chain_from tasks.now places gap) cuts.now result latencies.new count.new sum.new }
{
    capi_sections::mo_sections(tasks, places, gap, cuts, latencies, count, sum)
}
