// The calls for C and for hosts on a table's figures: plain numbers and lists of numbers. include/meshorchard.h declares them and says how to use them.
// A call answers 0, or its refusal as one number: the refusal's number and 256 times its place. The figures go to the numbers that are lent to it.
#![tactic(auto)]

ghost use Rattle.std.specs.Prelude.{◌≡◌, [], ◌∷◌};
ghost use Rattle.figures.specs.Figures.{low_of, throughput_of, exceedance_of};
ghost use Rattle.capi_figures.specs.Calls.{GivesGreatest, low_numbers, GivesMean, throughput_numbers, exceedance_numbers};

use figures::Exceedance;
use table::Table;

// The greatest latency.
pub fn mo_greatest(starts: &[u64], latencies: &[u64], g: u64, h: u64, latency: &mut u64) -> u64
    ensures { GivesGreatest starts.now latencies.now g h result latency.new }
{
    let t = Table {
        starts,
        latencies,
        anchors: g as usize,
        hyperperiod: h,
    };
    let a = figures::greatest_of(t);
    match a {
        Ok(v) => {
            *latency = v;
            0
        }
        Err(f) => {
            *latency = 0;
            f.code()
        }
    }
}

// The limit that the delay nears and never reaches.
pub fn mo_low(starts: &[u64], latencies: &[u64], g: u64, h: u64, low: &mut u64) -> u64
    ensures { (result ∷ low.new ∷ []) ≡ low_numbers (low_of starts.now latencies.now g h) }
{
    let t = Table {
        starts,
        latencies,
        anchors: g as usize,
        hyperperiod: h,
    };
    let a = figures::low_of(t);
    match a {
        Ok(v) => {
            *low = v;
            0
        }
        Err(f) => {
            *low = 0;
            f.code()
        }
    }
}

// The mean delay, doubled_area / doubled_ticks: the area under the delay over one hyperperiod and its ticks, both doubled.
pub fn mo_mean(
    starts: &[u64],
    latencies: &[u64],
    g: u64,
    h: u64,
    doubled_area: &mut u64,
    doubled_ticks: &mut u64,
) -> u64
    ensures { GivesMean starts.now latencies.now g h result doubled_area.new doubled_ticks.new }
{
    let t = Table {
        starts,
        latencies,
        anchors: g as usize,
        hyperperiod: h,
    };
    let a = figures::mean_of(t);
    match a {
        Ok(m) => {
            *doubled_area = m.doubled_area;
            *doubled_ticks = m.doubled_ticks;
            0
        }
        Err(f) => {
            *doubled_area = 0;
            *doubled_ticks = 0;
            f.code()
        }
    }
}

// The throughput: anchors in the ticks of one hyperperiod.
pub fn mo_throughput(
    starts: &[u64],
    latencies: &[u64],
    g: u64,
    h: u64,
    anchors: &mut u64,
    ticks: &mut u64,
) -> u64
    ensures { (result ∷ anchors.new ∷ ticks.new ∷ []) ≡ throughput_numbers (throughput_of starts.now latencies.now g h) }
{
    let t = Table {
        starts,
        latencies,
        anchors: g as usize,
        hyperperiod: h,
    };
    let a = figures::throughput_of(t);
    match a {
        Ok(r) => {
            *anchors = r.anchors as u64;
            *ticks = r.ticks;
            0
        }
        Err(f) => {
            *anchors = 0;
            *ticks = 0;
            f.code()
        }
    }
}

// The longest exceedance of b: its run of ticks, or `endless` 1.
pub fn mo_exceedance(
    starts: &[u64],
    latencies: &[u64],
    g: u64,
    h: u64,
    b: u64,
    run: &mut u64,
    endless: &mut u64,
) -> u64
    ensures { (result ∷ run.new ∷ endless.new ∷ []) ≡ exceedance_numbers (exceedance_of starts.now latencies.now g h b) }
{
    let t = Table {
        starts,
        latencies,
        anchors: g as usize,
        hyperperiod: h,
    };
    let a = figures::exceedance_of(t, b);
    match a {
        Ok(found) => match found {
            Exceedance::Run(n) => {
                *run = n;
                *endless = 0;
                0
            }
            Exceedance::Endless => {
                *run = 0;
                *endless = 1;
                0
            }
        },
        Err(f) => {
            *run = 0;
            *endless = 0;
            f.code()
        }
    }
}
