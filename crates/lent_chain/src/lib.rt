// Making a table of a chain whose tasks are lent as a list of task records, with the gap of its links.
// `make_table_of` takes any list, any gap, any place and any two lists.
#![tactic(auto)]

ghost use Rattle.std.specs.Prelude.{◌≡◌};
ghost use Rattle.maker.specs.Making.{Makes};
ghost use Rattle.lent_chain.specs.LentList.{chain_of_list};

use chain::Chain;
use maker::{Figures, Unmade};
use task::Task;

// The chain of the list and the gap. Its places are as many as the list has records; the first twelve are copied, with zeros past them.
fn chain_of(tasks: &[Task], gap: u64) -> Chain
    ensures { result ≡ chain_of_list gap tasks.now }
{
    let mut first = [Task::default(); 12];
    for i in 0..tasks.len().min(12) {
        first[i] = tasks[i];
    }
    Chain {
        tasks: first,
        places: tasks.len(),
        gap,
    }
}

// Makes the table of the lent list's chain, cut at place p, p counted from 1. A list of no record or of more than twelve is refused with 8.
pub fn make_table_of(
    tasks: &[Task],
    gap: u64,
    p: usize,
    starts: &mut [u64],
    latencies: &mut [u64],
) -> Result<Figures, Unmade>
    ensures { Makes (chain_of_list gap tasks.now) p starts.old latencies.old starts.new latencies.new result }
{
    let c = chain_of(tasks, gap);
    maker::make_table(c, p, starts, latencies)
}
