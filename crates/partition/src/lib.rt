// The partitions of a chain that is cut at a place: each from the read of a job of the first place to the write of a job of the last.
// How the code goes from one to the next is in `stepping`, how it comes to the first in `outset`.
#![tactic(auto)]

use task::{Job, Tick};

// The partition of a job: the read at its start and the write at its end.
#[derive(Clone, Copy)]
pub struct Partition {
    pub job: Job,
    pub start: Tick,
    pub end: Tick,
}
