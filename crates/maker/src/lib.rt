// Making a table of anchors: one pass over the partitions of a hyperperiod, which writes the anchors into two lent lists.
// `make_table` takes any chain, any place and any two lists; `make_table_on` any flat list of tasks and any gap.
#![tactic(auto)]

ghost use Rattle.std.specs.Prelude.{◌≡◌, set, ◌≤◌};
ghost use Rattle.chain.specs.Flat.{given_in, tasks_in};
ghost use Rattle.stepping.specs.Standing.{Reciprocals};
ghost use Rattle.maker.specs.Turn.{last_end, Added, Filled, Fills, Begins, Walked};
ghost use Rattle.maker.specs.Making.{after_checks, Makes, MakesFor};
ghost use Rattle.maker.specs.declared.Unmade.TheVariants.{Refused};

use chain::Chain;
use partition::Partition;
use refusal::Refusal;
use task::{Job, Place, Tick};

// The anchor count g, the warm-up tick x0, the hyperperiod H and the number of partitions walked.
#[derive(Clone, Copy, PartialEq, Eq, Debug)]
pub struct Figures {
    pub anchors: usize,
    pub tick: Tick,
    pub hyperperiod: u64,
    pub walked: u64,
}

// Why a table is not whole. Short: refusal 11, the lists hold the first anchors that fit. Refused: the lists are as they were.
#[derive(Clone, Copy, PartialEq, Eq, Debug)]
pub enum Unmade {
    Short(Figures),
    Refused(Refusal),
}

impl From<Refusal> for Unmade {
    ghost from_gives = { λ r u. u ≡ Refused r };

    fn from(r: Refusal) -> Unmade {
        Unmade::Refused(r)
    }
}

// What `fill` counts.
#[derive(Clone, Copy)]
pub struct Count {
    pub anchors: usize,
    pub walked: u64,
}

// Stores v at i where the list is long enough.
fn store(list: &mut [u64], i: usize, v: u64)
    ensures { list.new ≡ set list.old i v }
{
    if i < list.len() {
        list[i] = v;
    }
}

// One turn: adds the anchor of a partition that is kept and not dropped, and answers the count. `after` is the start of the next partition.
fn add_anchor(
    here: Partition,
    after: Tick,
    last: Tick,
    g: usize,
    starts: &mut [u64],
    latencies: &mut [u64],
) -> usize
    requires { (here.start.0 ≤ here.end.0) × (g ≤ 60000000) }
    ensures { Added here after.0 last.0 g starts.old latencies.old starts.new latencies.new result }
{
    let start = here.start;
    let end = here.end;
    if after.0 == start.0 {
        return g;
    }
    if end.0 == last.0 {
        return g;
    }
    store(starts, g, start.0);
    store(latencies, g, end.0 - start.0);
    g + 1
}

// The end of the kept partition before the next one, which starts at `after`.
fn last_end(here: Partition, after: Tick, last: Tick) -> Tick
    ensures { result.0 ≡ last_end here after.0 last.0 }
{
    let start = here.start;
    if after.0 == start.0 {
        return last;
    }
    here.end
}

// Walks the n partitions from `first` on, n - 1 steps, and writes the anchors that fit. Of the partition after them only the start counts, `after`, so no step is taken to it.
fn walk(
    tasks: &[u64],
    gap: u64,
    places: usize,
    p: usize,
    n: u64,
    first: Partition,
    after: Tick,
    reciprocals: &[u64],
    state: &mut [u64],
    starts: &mut [u64],
    latencies: &mut [u64],
) -> Count
    requires { (Begins (tasks_in gap tasks.now) places p n first after.0 state.old) × Reciprocals (tasks_in gap tasks.now) reciprocals.now }
    ensures { (Filled (tasks_in gap tasks.now) p first.job.0 n starts.old latencies.old starts.new latencies.new result) × Walked (tasks_in gap tasks.now) p first.job.0 n state.old state.new }
{
    let mut walked = 1;
    let mut g = 0;
    let mut last = Tick(0);
    let mut here = first;
    while walked < n {
        let next = stepping::next(tasks, gap, places, p, reciprocals, state);
        let start = next.start;
        g = add_anchor(here, start, last, g, starts, latencies);
        last = last_end(here, start, last);
        here = next;
        walked += 1;
    }
    g = add_anchor(here, after, last, g, starts, latencies);
    Count { anchors: g, walked }
}

// The same, with what stands for the divisions of the steps made first.
fn walk_by_steps(
    tasks: &[u64],
    gap: u64,
    places: usize,
    p: usize,
    n: u64,
    first: Partition,
    after: Tick,
    state: &mut [u64],
    starts: &mut [u64],
    latencies: &mut [u64],
) -> Count
    requires { Begins (tasks_in gap tasks.now) places p n first after.0 state.old }
    ensures { (Filled (tasks_in gap tasks.now) p first.job.0 n starts.old latencies.old starts.new latencies.new result) × Walked (tasks_in gap tasks.now) p first.job.0 n state.old state.new }
{
    let mut reciprocals = [0u64; 36];
    outset::reciprocals_of(tasks, gap, places, &mut reciprocals);
    walk(
        tasks,
        gap,
        places,
        p,
        n,
        first,
        after,
        &reciprocals,
        state,
        starts,
        latencies,
    )
}

// Walks the n partitions from a job on, and writes the anchors that fit; a single one, as every harmonic chain has at its longest period, needs no step. `tasks` is the flat list of the chain's tasks, which is not copied; `after` is the start of the partition after the last one.
fn fill(
    tasks: &[u64],
    gap: u64,
    places: usize,
    p: usize,
    from: Job,
    n: u64,
    after: Tick,
    starts: &mut [u64],
    latencies: &mut [u64],
) -> Count
    requires { Fills (tasks_in gap tasks.now) places p from.0 n after.0 }
    ensures { Filled (tasks_in gap tasks.now) p from.0 n starts.old latencies.old starts.new latencies.new result }
{
    let mut state = [0u64; 24];
    let first = outset::first(tasks, gap, places, p, from, &mut state);
    if n < 2 {
        Count {
            anchors: add_anchor(first, after, Tick(0), 0, starts, latencies),
            walked: 1,
        }
    } else {
        walk_by_steps(
            tasks, gap, places, p, n, first, after, &mut state, starts, latencies,
        )
    }
}

// The checks of making after the chain's own: 9 and 10. a and b are the lists' lengths.
fn judge(
    v: Result<u64, Refusal>,
    places: usize,
    p: usize,
    a: usize,
    b: usize,
) -> Result<u64, Refusal>
    ensures { result ≡ after_checks v places p a b }
{
    let h = v?;
    if p < 1 || places < p {
        return Err(Refusal::CUT_OUTSIDE_PLACES);
    }
    if a != b {
        return Err(Refusal::LISTS_UNEQUAL);
    }
    Ok(h)
}

// Making on a flat list of tasks, one for each place, which is lent and not copied, with the gap of their links.
pub fn make_table_on(
    tasks: &[u64],
    gap: u64,
    p: usize,
    starts: &mut [u64],
    latencies: &mut [u64],
) -> Result<Figures, Unmade>
    ensures { MakesFor gap (given_in tasks.now) p starts.old latencies.old starts.new latencies.new result }
{
    let a = starts.len();
    let places = tasks.len() / 3;
    let h = judge(chain::check_on(tasks, gap), places, p, a, latencies.len())?;
    let q = p - 1;
    let jobs = timing::warm_jobs(tasks, gap);
    let from = jobs[q];
    let w = jobs[0];
    let first = chain::task_at(tasks, gap, 0);
    let tick = first.read(w);
    let t = chain::task_at(tasks, gap, q);
    let after = Tick(tick.0 + h);
    let f = fill(
        tasks,
        gap,
        places,
        q,
        from,
        h / t.period,
        after,
        starts,
        latencies,
    );
    let figures = Figures {
        anchors: f.anchors,
        tick,
        hyperperiod: h,
        walked: f.walked,
    };
    if f.anchors <= a {
        return Ok(figures);
    }
    Err(Unmade::Short(figures))
}

// Document 01's making: the table of chain c cut at place p, p counted from 1; refusals 8, 5, 7, 9, 10, 11.
pub fn make_table(
    c: Chain,
    p: usize,
    starts: &mut [u64],
    latencies: &mut [u64],
) -> Result<Figures, Unmade>
    ensures { Makes c p starts.old latencies.old starts.new latencies.new result }
{
    let tasks = chain::flat(c);
    let n = chain::flat_length(c.places);
    make_table_on(&tasks[..n], c.gap, p, starts, latencies)
}
