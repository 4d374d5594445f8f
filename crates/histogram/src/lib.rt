// How often each delay of a table occurs (order 7 of document 02).
// An anchor's delays fall by one from its latency, so they are a range. Each range changes four differences of neighbouring entries, however many entries it covers; the sums of
// the differences are then the entries. So a histogram takes two passes over the anchors, of which one judges the table, and two over the list, and never a walk over ticks.
#![tactic(auto)]

ghost use Rattle.std.specs.Prelude.{◌≡◌, ◌+◌, ◌%◌, ◌≤◌, length, replicate, slice_index};
ghost use Rattle.ranges.specs.Entries.{entries, sum};
ghost use Rattle.table.specs.OnTable.{anchors_of, IsWellFormed};
ghost use Rattle.figures.specs.ByAnchors.{segments};
ghost use Rattle.histogram.specs.Histogram.{Gives};
ghost use Rattle.histogram.specs.Differences.{modulus, added_at, opposite, shifted, with_range, with_anchor, up_to};
ghost use Rattle.histogram.specs.Entries.{widest};

use refusal::Refusal;
use table::Table;

// One more than the greatest latency that a table may have. No delay reaches it, so a greater width counts the same.
const WIDEST: u64 = 60011001;

// More at one place, modulo 2^64, where the list has it.
#[tactic(auto, using(std::proofs::lemmas::List::set_past), unfolding(crate::specs::Differences::added_at))]
fn add_at(counts: &mut [u64], at: usize, more: u64)
    ensures { counts.new ≡ added_at at more counts.old }
{
    if at < counts.len() {
        counts[at] = counts[at].wrapping_add(more);
    }
}

// Every entry from `at` on is greater by `here`, and those after it by `next` too.
fn shift(counts: &mut [u64], at: usize, here: u64, next: u64)
    requires { at ≤ widest }
    ensures { counts.new ≡ shifted at here next counts.old }
{
    add_at(counts, at, here);
    add_at(counts, at + 1, next);
}

// The delays from `low` up to below `end` come in; those from `end` on are taken off again, modulo 2^64.
#[tactic(auto, unfolding(crate::specs::Differences::with_range))]
fn add_range(counts: &mut [u64], width: u64, low: u64, end: u64)
    requires { (1 ≤ width) × (low ≤ widest) × (end ≤ widest) }
    ensures { counts.new ≡ with_range width low end counts.old }
{
    let up = low % width;
    shift(counts, (low / width) as usize, width - up, up);
    let down = end % width;
    shift(
        counts,
        (end / width) as usize,
        (width - down).wrapping_neg(),
        down.wrapping_neg(),
    );
}

// The ranges of all anchors of a well-formed table.
#[tactic(auto, using(figures::proofs::Folds::fold_on))]
fn add_anchors(t: Table, width: u64, counts: &mut [u64])
    requires { (IsWellFormed t) × (1 ≤ width) }
    ensures { counts.new ≡ segments (with_anchor width) (slice_index t.entry.starts.now 0 + t.entry.hyperperiod) (anchors_of t.entry) counts.old }
{
    let end = t.starts[0] + t.hyperperiod;
    for i in 0..t.anchors {
        let d = t.distance_at(end, i);
        let past = t.latencies[i] + 1;
        add_range(counts, width, past - d, past);
    }
}

// From differences to entries; what is left of `whole` after all of them.
fn sum_up(counts: &mut [u64], whole: u64) -> u64
    ensures { (counts.new ≡ entries (λ i. up_to counts.old i % modulus) 0 (length counts.old)) × ((result + sum counts.new) % modulus ≡ whole % modulus) }
{
    let mut left = whole;
    let mut entry: u64 = 0;
    for count in counts.iter_mut() {
        entry = entry.wrapping_add(*count);
        *count = entry;
        left = left.wrapping_sub(entry);
    }
    left
}

// Counts the delays, and answers the ticks with a delay beyond the list: entry i of `counts` gets those from i × width up to below (i + 1) × width; refusals 14, 18.
#[tactic(auto, using(table::specs::BothWays::checked_true, table::specs::BothWays::checked_well, table::specs::BothWays::checked_refused), unfolding(crate::specs::Histogram::histogram_of, crate::specs::Histogram::counts_of))]
pub fn histogram_of(t: Table, width: u64, counts: &mut [u64]) -> Result<u64, Refusal>
    ensures { Gives t.entry.starts.now t.entry.latencies.now t.entry.anchors t.entry.hyperperiod width counts.old counts.new result }
{
    t.check()?;
    if width < 1 {
        return Err(Refusal::WIDTH_ZERO);
    }
    // Every difference is 0 at first.
    counts.fill(0);
    add_anchors(t, width.min(WIDEST), counts);
    Ok(sum_up(counts, t.hyperperiod))
}
