// A program that lends the two tasks of document 01's chain A as a list of records, and makes its table, cut at place 1: A1, A2 and A3.
#![tactic(auto)]

ghost use Rattle.std.specs.Prelude.{◌≡◌, [], ◌∷◌};
ghost use Rattle.maker.specs.Making.{told, Makes};
ghost use Rattle.lent_chain.specs.LentList.{chain_of_list};

use maker::{Figures, Unmade};
use task::Task;

// Lends two tasks as a list, without a gap.
fn made_of(
    a: Task,
    b: Task,
    p: usize,
    starts: &mut [u64],
    latencies: &mut [u64],
) -> Result<Figures, Unmade>
    ensures { Makes (chain_of_list 0 (a ∷ b ∷ [])) p starts.old latencies.old starts.new latencies.new result }
{
    let tasks = [a, b];
    lent_chain::make_table_of(&tasks, 0, p, starts, latencies)
}

// The number of partitions walked; 0 in a refusal.
fn walked_of(m: Result<Figures, Unmade>) -> u64
    ensures { result ≡ (told m).walked }
{
    match m {
        Ok(f) => f.walked,
        Err(Unmade::Short(f)) => f.walked,
        Err(Unmade::Refused(_)) => 0,
    }
}

fn main() {
    let sample = Task {
        period: 4,
        duration: 4,
        phase: 0,
    };
    let filter = Task {
        period: 6,
        duration: 6,
        phase: 0,
    };
    let mut starts = [7u64; 3];
    let mut latencies = [9u64; 3];
    let m = made_of(sample, filter, 1, &mut starts, &mut latencies);
    check::expect(walked_of(m) == 3);
    check::expect(starts[0] == 0);
    check::expect(starts[1] == 8);
    check::expect(starts[2] == 7);
    check::expect(latencies[0] == 18);
    check::expect(latencies[1] == 16);
    check::expect(latencies[2] == 9);
}
