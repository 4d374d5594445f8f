// Tasks, the places of a chain, their jobs and ticks: when a job reads and writes, when the next place can read what it wrote, and which job reads or writes around a tick.
// `within_limits` takes any task; what the other methods require is proved by the crates that call them.
// A job number is never used as a tick: `Job` becomes `Tick` only by a place's read, write and gap, `Tick` becomes `Job` only by their inverses.
#![tactic(auto)]

ghost use Rattle.std.specs.Prelude.{◌≡◌, ◌+◌, ◌*◌, ◌≤◌, ◌<◌};
ghost use Rattle.task.specs.Jobs.{read_of, write_of, readable_of, within_limits};
ghost use Rattle.task.specs.Links.{earliest_from, earliest_after, latest_over, latest_by, forward_link, backward_link};

// Document 01: period T, duration D and phase F.
#[repr(C)]
#[derive(Clone, Copy, PartialEq, Eq, Default, Debug)]
pub struct Task {
    pub period: u64,
    pub duration: u64,
    pub phase: u64,
}

// A place of a chain: the values of its task, and the gap of order 5, the ticks after a write until the next place can read it.
#[derive(Clone, Copy, PartialEq, Eq, Default, Debug)]
pub struct Place {
    pub period: u64,
    pub duration: u64,
    pub phase: u64,
    pub gap: u64,
}

// A job's number, counted from 0.
#[derive(Clone, Copy, PartialEq, Eq, Default, Debug)]
pub struct Job(pub u64);

// A point in time, in whole ticks.
#[derive(Clone, Copy, PartialEq, Eq, Default, Debug)]
pub struct Tick(pub u64);

impl Task {
    // Whether period, duration and phase are inside document 01's limits.
    #[tactic(auto, unfolding(crate::specs::Jobs::within_limits))]
    pub fn within_limits(self) -> bool
        ensures { result ≡ within_limits self }
    {
        (1..=1000000).contains(&self.period)
            && (1..=4000000).contains(&self.duration)
            && self.phase <= 1000000
    }
}

impl Place {
    // The tick at which job j reads.
    pub fn read(self, j: Job) -> Tick
        requires { read_of self j.0 ≤ 2000000000000 }
        ensures { result.0 ≡ read_of self j.0 }
    {
        Tick(self.phase + j.0 * self.period)
    }

    // The tick at which job j writes.
    pub fn write(self, j: Job) -> Tick
        requires { write_of self j.0 ≤ 2000000000000 }
        ensures { result.0 ≡ write_of self j.0 }
    {
        Tick(self.phase + j.0 * self.period + self.duration)
    }

    // The tick from which on the next place can read what job j wrote.
    pub fn readable(self, j: Job) -> Tick
        requires { readable_of self j.0 ≤ 2000000000000 }
        ensures { result.0 ≡ readable_of self j.0 }
    {
        Tick(self.phase + j.0 * self.period + self.duration + self.gap)
    }

    // The earliest job that reads at or after tick w.
    #[tactic(auto, using(crate::proofs::Closed::earliest_zero, crate::proofs::Closed::earliest_past))]
    pub fn earliest_from(self, w: Tick) -> Job
        requires { 1 ≤ self.period }
        ensures { result.0 ≡ earliest_from self w.0 }
    {
        if w.0 <= self.phase {
            return Job(0);
        }
        Job((w.0 - self.phase - 1) / self.period + 1)
    }

    // The earliest job that reads strictly after tick t.
    #[tactic(auto, using(crate::proofs::Closed::earliest_zero, crate::proofs::Closed::earliest_past))]
    pub fn earliest_after(self, t: Tick) -> Job
        requires { (1 ≤ self.period) × (t.0 ≤ 2000000000000) }
        ensures { result.0 ≡ earliest_after self t.0 }
    {
        if t.0 < self.phase {
            return Job(0);
        }
        Job((t.0 - self.phase) / self.period + 1)
    }

    // The latest job whose read is `ticks` ticks or more before tick z; there may be none.
    #[tactic(auto, using(crate::proofs::Closed::latest_none, crate::proofs::Closed::latest_some))]
    fn latest_over(self, ticks: u64, z: Tick) -> Option<Job>
        requires { 1 ≤ self.period }
        ensures { result ≡ latest_over self ticks z.0 }
    {
        if z.0 < self.phase {
            return None;
        }
        if z.0 - self.phase < ticks {
            return None;
        }
        Some(Job((z.0 - self.phase - ticks) / self.period))
    }

    // The latest job that writes at or before tick z; there may be none.
    pub fn latest_by(self, z: Tick) -> Option<Job>
        requires { 1 ≤ self.period }
        ensures { result ≡ latest_by self z.0 }
    {
        self.latest_over(self.duration, z)
    }

    // Forward over one link: the next place's earliest job that reads at or after job j's write and the gap.
    #[tactic(auto, unfolding(crate::specs::Links::forward_link))]
    pub fn forward_to(self, next: Place, j: Job) -> Job
        requires { (1 ≤ next.period) × (readable_of self j.0 ≤ 2000000000000) }
        ensures { result.0 ≡ forward_link self next j.0 }
    {
        next.earliest_from(self.readable(j))
    }

    // Backward over one link: the previous place's latest job whose write and the gap are over by job k's read; there may be none.
    #[tactic(auto, unfolding(crate::specs::Links::backward_link))]
    pub fn backward_to(self, previous: Place, k: Job) -> Option<Job>
        requires { (1 ≤ previous.period) × (read_of self k.0 ≤ 2000000000000) × (previous.duration + previous.gap ≤ 2000000000000) }
        ensures { result ≡ backward_link previous self k.0 }
    {
        previous.latest_over(previous.duration + previous.gap, self.read(k))
    }
}
