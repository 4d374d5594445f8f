// Sections of a chain for C and for hosts: plain numbers and lists of numbers. include/meshorchard.h declares the call and says how to use it.
#![tactic(auto)]

ghost use Rattle.capi_chain.specs.FlatChain.{chain_from};
ghost use Rattle.capi_sections.specs.Calls.{GivesSections};

// The greatest latency of each section of a chain that is cut, with zeros past them, the number of sections, and the sum with one gap for each cut.
pub fn mo_sections(
    tasks: &[u64],
    places: usize,
    gap: u64,
    cuts: &[u64],
    latencies: &mut [u64; 12],
    count: &mut u64,
    sum: &mut u64,
) -> u64
    ensures { GivesSections (chain_from tasks.now places gap) cuts.now result latencies.new count.new sum.new }
{
    let n = capi_chain::flat_length(tasks.len(), places);
    match sections::section_latencies_on(&tasks[..n], gap, cuts) {
        Ok(s) => {
            let all = s.latencies;
            *latencies = all;
            *count = s.count as u64;
            *sum = s.sum;
            0
        }
        Err(r) => {
            *latencies = [0; 12];
            *count = 0;
            *sum = 0;
            r.code()
        }
    }
}
