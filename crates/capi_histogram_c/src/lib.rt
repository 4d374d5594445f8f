// The exports of `capi_histogram` for C: each calls the function of its name there, with the same clauses. include/meshorchard.h declares them.
#![tactic(auto)]

ghost use Rattle.capi_histogram.specs.Calls.{GivesHistogram};

// Entry i of `counts` gets the ticks with a delay from i × width up to below (i + 1) × width, `rest` those beyond the list.
#[unsafe(no_mangle)]
pub extern "C" fn mo_histogram(
    starts: &[u64],
    latencies: &[u64],
    g: u64,
    h: u64,
    width: u64,
    counts: &mut [u64],
    rest: &mut u64,
) -> u64
    ensures { GivesHistogram starts.now latencies.now g h width counts.old counts.new result rest.new }
{
    capi_histogram::mo_histogram(starts, latencies, g, h, width, counts, rest)
}
