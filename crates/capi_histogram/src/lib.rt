// How often each delay of a table occurs, for C and for hosts: plain numbers and lists of numbers. include/meshorchard.h declares the call and says how to use it.
#![tactic(auto)]

ghost use Rattle.capi_histogram.specs.Calls.{GivesHistogram};

use table::Table;

// Entry i of `counts` gets the ticks with a delay from i × width up to below (i + 1) × width, `rest` those beyond the list.
pub fn mo_histogram(
    starts: &[u64],
    latencies: &[u64],
    g: u64,
    h: u64,
    width: u64,
    counts: &mut [u64],
    rest: &mut u64,
) -> u64
    ensures { GivesHistogram starts.now latencies.now g h width counts.old counts.new result rest.new }
{
    let t = Table {
        starts,
        latencies,
        anchors: g as usize,
        hyperperiod: h,
    };
    let a = histogram::histogram_of(t, width, counts);
    match a {
        Ok(n) => {
            *rest = n;
            0
        }
        Err(f) => {
            *rest = 0;
            f.code()
        }
    }
}
