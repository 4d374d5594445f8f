// Tables of anchors: well-formed, and reading at a tick.
#![tactic(auto)]

ghost use Rattle.std.specs.Prelude.{◌≡◌, ◌-◌, ◌≤◌, ◌<◌, length, get_or};
ghost use Rattle.table.specs.OnTable.{of_table, anchors_of};
ghost use Rattle.table.specs.WellFormed.{fitting, measured, next_start, spaced, well_formed};
ghost use Rattle.table.specs.Reading.{reading, checked, GivesWord};
ghost use Rattle.table.specs.Delays.{LastStart};

use refusal::Refusal;

const HYPER_LIMIT: u64 = 60000000;

const LATENCY_LIMIT: u64 = 60011000;

const FIRST_START_LIMIT: u64 = 1000000000;

const UPPER_TICK: u64 = 1000000000000;

// The numbers beside the lists: equal lengths, g from 1 to the length, h within its limits.
fn is_measured(n: usize, m: usize, g: usize, h: u64) -> bool
    ensures { result ≡ measured n m g h }
{
    n == m && 1 <= g && g <= n && 1 <= h && h <= HYPER_LIMIT
}

// One anchor: its start before the next, its latency within its limit and greater than the distance.
fn is_fitting(start: u64, next: u64, latency: u64) -> bool
    ensures { result ≡ fitting start next latency }
{
    if next <= start || LATENCY_LIMIT < latency {
        return false;
    }
    next - start < latency
}

// A table: two lists of numbers, of which the first `anchors` entries are the anchors' starts and latencies, and the ticks after which it repeats.
#[derive(Clone, Copy)]
pub struct Table<'a> {
    pub starts: &'a [u64],
    pub latencies: &'a [u64],
    pub anchors: usize,
    pub hyperperiod: u64,
}

impl<'a> Table<'a> {
    // All anchors, up to `end`, which is first start + H.
    #[tactic(auto, using(crate::proofs::Exits::spaced_stop, crate::proofs::Exits::spaced_on, crate::proofs::Exits::spaced_last))]
    fn is_spaced(self, end: u64) -> bool
        requires { (1 ≤ self.anchors) × (self.anchors ≤ length self.starts.now) × (length self.starts.now ≡ length self.latencies.now) }
        ensures { result ≡ spaced end (anchors_of self.entry) }
    {
        let last = self.anchors - 1;
        for i in 0..last {
            if !is_fitting(self.starts[i], self.starts[i + 1], self.latencies[i]) {
                return false;
            }
        }
        is_fitting(self.starts[last], end, self.latencies[last])
    }

    // Document 01's well-formed table, in one pass.
    #[tactic(auto, using(crate::proofs::Exits::formed_sizes, crate::proofs::Exits::formed_late, crate::proofs::Exits::formed_rest))]
    pub fn is_well_formed(self) -> bool
        ensures { result ≡ of_table well_formed self.entry }
    {
        if !is_measured(
            self.starts.len(),
            self.latencies.len(),
            self.anchors,
            self.hyperperiod,
        ) {
            return false;
        }
        let first = self.starts[0];
        if FIRST_START_LIMIT < first {
            return false;
        }
        self.is_spaced(first + self.hyperperiod)
    }

    // The check with which the calls on a table begin.
    pub fn check(self) -> Result<(), Refusal>
        ensures { result ≡ of_table checked self.entry }
    {
        if self.is_well_formed() {
            Ok(())
        } else {
            Err(Refusal::TABLE_NOT_WELL_FORMED)
        }
    }

    // The ticks from the start at place i to the next start, which is `end` after the last place. The loops over anchors that call it, in the crates above, know that the starts rise.
    pub fn distance_at(self, end: u64, i: usize) -> u64
        requires { (i < self.anchors) × (self.anchors ≤ length self.starts.now) × (get_or self.starts.now i 0 ≤ next_start self.starts.now self.anchors end i) }
        ensures { result ≡ next_start self.entry.starts.now self.entry.anchors end i - get_or self.entry.starts.now i 0 }
    {
        let start = self.starts[i];
        let next = i + 1;
        if next < self.anchors {
            return self.starts[next] - start;
        }
        end - start
    }

    // The delay that the table gives at tick t.
    #[tactic(auto, using(crate::specs::BothWays::checked_well, crate::proofs::Exits::read_unformed, crate::proofs::Exits::read_early, crate::proofs::Exits::read_late))]
    pub fn read_at(self, t: u64) -> Result<u64, Refusal>
        ensures { result ≡ of_table reading self.entry t }
    {
        self.check()?;
        let first = self.starts[0];
        if t < first {
            return Err(Refusal::TICK_TOO_EARLY);
        }
        if UPPER_TICK < t {
            return Err(Refusal::TICK_TOO_LATE);
        }
        let u = first + (t - first) % self.hyperperiod;
        // Starts rise strictly, so the anchor that speaks at u is the last whose start is at most u.
        let i = self.starts[..self.anchors].partition_point(|start| *start <= u) - 1;
        Ok(self.latencies[i] - (u - self.starts[i]))
    }
}

// Reading for C, one number: the delay, which lies below 2^32, or 2^32 + the refusal's number.
#[tactic(auto, using(crate::specs::Words::number_small))]
pub fn mo_read_table(starts: &[u64], latencies: &[u64], g: u64, h: u64, t: u64) -> u64
    ensures { GivesWord starts.now latencies.now g h t result }
{
    let table = Table {
        starts,
        latencies,
        anchors: g as usize,
        hyperperiod: h,
    };
    match table.read_at(t) {
        Ok(d) => d,
        Err(f) => 4294967296 + f.number,
    }
}
