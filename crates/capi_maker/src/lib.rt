// Making a table, for C and for hosts: plain numbers and lists of numbers. include/meshorchard.h declares it and says how to use it.
#![tactic(auto)]

ghost use Rattle.std.specs.Prelude.{◌≡◌, ◌*◌};
ghost use Rattle.capi_chain.specs.FlatChain.{chain_from};
ghost use Rattle.capi_maker.specs.Calls.{figure_numbers, GivesTable};

use maker::{Figures, Unmade};

// The figures as four numbers: g, x0, H and the number of partitions walked.
fn numbers_of(f: Figures) -> [u64; 4]
    ensures { result ≡ figure_numbers f }
{
    let from = f.tick;
    [f.anchors as u64, from.0, f.hyperperiod, f.walked]
}

// Makes the table of a chain cut at place p, p counted from 1.
pub fn mo_make_table(
    tasks: &[u64],
    places: usize,
    gap: u64,
    p: usize,
    starts: &mut [u64],
    latencies: &mut [u64],
    figures: &mut [u64; 4],
) -> u64
    ensures { GivesTable (chain_from tasks.now places gap) p starts.old latencies.old result starts.new latencies.new figures.new }
{
    let n = capi_chain::flat_length(tasks.len(), places);
    let m = maker::make_table_on(&tasks[..n], gap, p, starts, latencies);
    match m {
        Ok(f) => {
            *figures = numbers_of(f);
            0
        }
        Err(Unmade::Short(f)) => {
            *figures = numbers_of(f);
            11
        }
        Err(Unmade::Refused(r)) => {
            *figures = [0, 0, 0, 0];
            r.code()
        }
    }
}
