// The figures of a table: greatest latency, low, mean, throughput and longest exceedance.
#![tactic(auto)]

ghost use Rattle.std.specs.Prelude.{◌≡◌, ◌*◌, ◌≤◌, ◌<◌};
ghost use Rattle.table.specs.OnTable.{of_table, anchors_of, IsWellFormed};
ghost use Rattle.table.specs.WellFormed.{hyper_limit, latency_limit};
ghost use Rattle.figures.specs.Figures.{greatest_of, low_of, mean_of, throughput_of, exceedance_of};
ghost use Rattle.figures.specs.Exceeding.{stretch, round};
ghost use Rattle.figures.specs.Gathering.{with_anchor, Gathers};

use refusal::Refusal;
use table::Table;

// The mean delay is area / ticks: the area under the delay over one hyperperiod and its ticks, both doubled, so that the area is a whole number.
#[derive(Clone, Copy, PartialEq, Eq, Debug)]
pub struct Mean {
    pub doubled_area: u64,
    pub doubled_ticks: u64,
}

// Anchors in the ticks of one hyperperiod.
#[derive(Clone, Copy, PartialEq, Eq, Debug)]
pub struct Throughput {
    pub anchors: usize,
    pub ticks: u64,
}

// The longest run of ticks with a delay above a bound. Endless: every delay is above it.
#[derive(Clone, Copy, PartialEq, Eq, Debug)]
pub enum Exceedance {
    Run(u64),
    Endless,
}

// What a pass over the anchors gathers; the area is doubled.
#[derive(Clone, Copy)]
struct Gathered {
    greatest: u64,
    low: u64,
    area: u64,
}

// One anchor more: latency v over d ticks, in which the delay falls from v and nears v - d. Twice the area under the delay is added.
fn with_anchor(m: Gathered, d: u64, v: u64) -> Gathered
    requires { (d < v) × (v ≤ latency_limit) × (m.area ≤ hyper_limit * (2 * latency_limit)) }
    ensures { result ≡ with_anchor m d v }
{
    let limit = v - d;
    Gathered {
        greatest: m.greatest.max(v),
        low: m.low.min(limit),
        area: m.area + d * (v + limit),
    }
}

// The figures of a well-formed table, in one pass.
#[tactic(auto, using(crate::proofs::Folds::gather_small))]
fn gather(t: Table) -> Gathered
    requires { IsWellFormed t }
    ensures { Gathers t.entry.hyperperiod (anchors_of t.entry) result }
{
    let end = t.starts[0] + t.hyperperiod;
    let mut m = Gathered {
        greatest: 0,
        low: t.latencies[0],
        area: 0,
    };
    for i in 0..t.anchors {
        m = with_anchor(m, t.distance_at(end, i), t.latencies[i]);
    }
    m
}

// The largest of the anchors' latencies.
#[tactic(auto, using(table::specs::BothWays::checked_true, table::specs::BothWays::checked_well, table::specs::BothWays::checked_refused), unfolding(crate::specs::Figures::greatest_of))]
pub fn greatest_of(t: Table) -> Result<u64, Refusal>
    ensures { result ≡ of_table greatest_of t.entry }
{
    t.check()?;
    let m = gather(t);
    Ok(m.greatest)
}

// The least of latency less distance to the next start.
#[tactic(auto, using(table::specs::BothWays::checked_true, table::specs::BothWays::checked_well, table::specs::BothWays::checked_refused), unfolding(crate::specs::Figures::low_of))]
pub fn low_of(t: Table) -> Result<u64, Refusal>
    ensures { result ≡ of_table low_of t.entry }
{
    t.check()?;
    let m = gather(t);
    Ok(m.low)
}

// The mean delay, by area, as two numbers.
#[tactic(auto, using(table::specs::BothWays::checked_true, table::specs::BothWays::checked_well, table::specs::BothWays::checked_refused), unfolding(crate::specs::Figures::mean_of))]
pub fn mean_of(t: Table) -> Result<Mean, Refusal>
    ensures { result ≡ of_table mean_of t.entry }
{
    t.check()?;
    let m = gather(t);
    Ok(Mean {
        doubled_area: m.area,
        doubled_ticks: 2 * t.hyperperiod,
    })
}

// The anchors in the ticks of one hyperperiod.
#[tactic(auto, using(table::specs::BothWays::checked_true, table::specs::BothWays::checked_refused), unfolding(crate::specs::Figures::throughput_of))]
pub fn throughput_of(t: Table) -> Result<Throughput, Refusal>
    ensures { result ≡ of_table throughput_of t.entry }
{
    t.check()?;
    Ok(Throughput {
        anchors: t.anchors,
        ticks: t.hyperperiod,
    })
}

// A scan of successive ticks: the run above a bound that ends here, and the longest so far.
#[derive(Clone, Copy)]
struct Scan {
    run: u64,
    best: u64,
}

// One anchor more, with latency v over d ticks: all of them have a delay above b, or the first v - b.
#[tactic(auto, unfolding(crate::specs::Exceeding::stretch))]
fn with_stretch(z: Scan, b: u64, d: u64, v: u64) -> Scan
    requires { (z.run ≤ 2 * hyper_limit) × (d < v) × (v ≤ latency_limit) }
    ensures { result ≡ stretch b z d v }
{
    // How far v lies above b; 0 where it does not.
    let above = v.saturating_sub(b);
    if d <= above {
        let run = z.run + d;
        Scan {
            run,
            best: z.best.max(run),
        }
    } else {
        Scan {
            run: 0,
            best: z.best.max(z.run + above),
        }
    }
}

// One round over the anchors of a well-formed table, from a scan on.
#[tactic(auto, using(crate::proofs::Folds::round_small))]
fn scan_round(t: Table, b: u64, z: Scan) -> Scan
    requires { (IsWellFormed t) × (z.run ≤ z.best) × (z.best ≤ hyper_limit) }
    ensures { result ≡ round b t.entry.hyperperiod (anchors_of t.entry) z }
{
    let end = t.starts[0] + t.hyperperiod;
    let mut s = z;
    for i in 0..t.anchors {
        s = with_stretch(s, b, t.distance_at(end, i), t.latencies[i]);
    }
    s
}

// The longest exceedance of b. A run may cross into the next hyperperiod, so two rounds; it has no end where the first round is one run.
#[tactic(auto, using(table::specs::BothWays::checked_well, table::specs::BothWays::checked_refused, crate::proofs::Exits::once_bounded, crate::proofs::Exits::exceed_endless, crate::proofs::Exits::exceed_run), unfolding(crate::specs::Figures::exceedance_of))]
pub fn exceedance_of(t: Table, b: u64) -> Result<Exceedance, Refusal>
    ensures { result ≡ of_table exceedance_of t.entry b }
{
    t.check()?;
    let none = Scan { run: 0, best: 0 };
    let once = scan_round(t, b, none);
    if t.hyperperiod <= once.run {
        return Ok(Exceedance::Endless);
    }
    let twice = scan_round(t, b, once);
    Ok(Exceedance::Run(twice.best))
}
