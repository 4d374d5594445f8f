// The exports of `capi_figures` for C: each calls the function of its name there, with the same clauses. include/meshorchard.h declares them.
#![tactic(auto)]

ghost use Rattle.std.specs.Prelude.{◌≡◌, [], ◌∷◌};
ghost use Rattle.figures.specs.Figures.{low_of, throughput_of, exceedance_of};
ghost use Rattle.capi_figures.specs.Calls.{GivesGreatest, low_numbers, GivesMean, throughput_numbers, exceedance_numbers};

// The greatest latency.
#[unsafe(no_mangle)]
pub extern "C" fn mo_greatest(
    starts: &[u64],
    latencies: &[u64],
    g: u64,
    h: u64,
    latency: &mut u64,
) -> u64
    ensures { GivesGreatest starts.now latencies.now g h result latency.new }
{
    capi_figures::mo_greatest(starts, latencies, g, h, latency)
}

// The limit that the delay nears and never reaches.
#[unsafe(no_mangle)]
pub extern "C" fn mo_low(starts: &[u64], latencies: &[u64], g: u64, h: u64, low: &mut u64) -> u64
    ensures { (result ∷ low.new ∷ []) ≡ low_numbers (low_of starts.now latencies.now g h) }
{
    capi_figures::mo_low(starts, latencies, g, h, low)
}

// The mean delay, doubled_area / doubled_ticks: the area under the delay over one hyperperiod and its ticks, both doubled.
#[unsafe(no_mangle)]
pub extern "C" fn mo_mean(
    starts: &[u64],
    latencies: &[u64],
    g: u64,
    h: u64,
    doubled_area: &mut u64,
    doubled_ticks: &mut u64,
) -> u64
    ensures { GivesMean starts.now latencies.now g h result doubled_area.new doubled_ticks.new }
{
    capi_figures::mo_mean(starts, latencies, g, h, doubled_area, doubled_ticks)
}

// The throughput: anchors in the ticks of one hyperperiod.
#[unsafe(no_mangle)]
pub extern "C" fn mo_throughput(
    starts: &[u64],
    latencies: &[u64],
    g: u64,
    h: u64,
    anchors: &mut u64,
    ticks: &mut u64,
) -> u64
    ensures { (result ∷ anchors.new ∷ ticks.new ∷ []) ≡ throughput_numbers (throughput_of starts.now latencies.now g h) }
{
    capi_figures::mo_throughput(starts, latencies, g, h, anchors, ticks)
}

// The longest exceedance of b: its run of ticks, or `endless` 1.
#[unsafe(no_mangle)]
pub extern "C" fn mo_exceedance(
    starts: &[u64],
    latencies: &[u64],
    g: u64,
    h: u64,
    b: u64,
    run: &mut u64,
    endless: &mut u64,
) -> u64
    ensures { (result ∷ run.new ∷ endless.new ∷ []) ≡ exceedance_numbers (exceedance_of starts.now latencies.now g h b) }
{
    capi_figures::mo_exceedance(starts, latencies, g, h, b, run, endless)
}
