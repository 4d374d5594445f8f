// The instrument's state, by value, and the calls on it (order 10 of document 02): a state is made of a schedule with bounds, which runs; an ask tries another and keeps it as the proposal; a commit makes the proposal run.
// `make_state`, `ask` and `commit` take any values, also a state that no list of calls leaves. What a caller names gets zeros past its counts before it is judged, compared or kept, so no entry past a count of it is ever seen
// again.
#![tactic(auto)]

ghost use Rattle.std.specs.Prelude.{◌≡◌};
ghost use Rattle.bounded.specs.Bounded.{cleared};
ghost use Rattle.instrument.specs.Instrument.{no_proposal, runs, proposes, zero_state, make_of, ask_of, commit_of, commit_refused};

use bounded::Bounded;
use refusal::{Reason, Refusal};

// A party's proposal, zeros where none stands, and whether one stands: 0 means no, every other number yes.
#[repr(C)]
#[derive(Clone, Copy)]
pub struct Side {
    pub proposal: Bounded,
    pub stands: u64,
}

// What runs, and the firmware's proposal.
#[repr(C)]
#[derive(Clone, Copy)]
pub struct State {
    pub running: Bounded,
    pub firmware: Side,
}

// A state that was made. The refusal is number 0 at place 0 in a success; in a refusal the state is zeros.
#[repr(C)]
#[derive(Clone, Copy)]
pub struct MadeState {
    pub state: State,
    pub refusal: Refusal,
}

// What an ask answers: the state that follows, and the greatest latency of each chain, 0 past the chains. A refusal gives the state back as it was, and latencies of 0.
#[repr(C)]
#[derive(Clone, Copy)]
pub struct Asked {
    pub state: State,
    pub refusal: Refusal,
    pub latencies: [u64; 4],
}

// What a commit answers: the state that follows; in a refusal the state as it was.
#[repr(C)]
#[derive(Clone, Copy)]
pub struct Committed {
    pub state: State,
    pub refusal: Refusal,
}

fn no_proposal() -> Side
    ensures { result ≡ no_proposal }
{
    Side {
        proposal: bounded::zero_bounded(),
        stands: 0,
    }
}

// The state in which this runs and no proposal stands.
fn running_state(b: Bounded) -> State
    ensures { result ≡ runs b }
{
    State {
        running: b,
        firmware: no_proposal(),
    }
}

// The state with this as its proposal.
fn proposed(s: State, b: Bounded) -> State
    ensures { result ≡ proposes s b }
{
    let running = s.running;
    State {
        running,
        firmware: Side {
            proposal: b,
            stands: 1,
        },
    }
}

fn zero_state() -> State
    ensures { result ≡ zero_state }
{
    running_state(bounded::zero_bounded())
}

// A state in which a schedule with bounds runs: refused as an ask would refuse it.
pub fn make_state(b: Bounded) -> MadeState
    ensures { result ≡ make_of (cleared b) }
{
    let p = bounded::cleared_of(b);
    match promises::judge(p) {
        Ok(_) => MadeState {
            state: running_state(p),
            refusal: Refusal::NONE,
        },
        Err(refusal) => MadeState {
            state: zero_state(),
            refusal,
        },
    }
}

// Tries a schedule with bounds: 8, 5 and 6 of the schedule, 7 chain by chain, 21; else its greatest latencies, and it is the proposal from then on.
pub fn ask(s: State, b: Bounded) -> Asked
    ensures { result ≡ ask_of s (cleared b) }
{
    let p = bounded::cleared_of(b);
    match promises::judge(p) {
        Ok(latencies) => Asked {
            state: proposed(s, p),
            refusal: Refusal::NONE,
            latencies,
        },
        Err(refusal) => Asked {
            state: s,
            refusal,
            latencies: [0; 4],
        },
    }
}

fn commit_refused(s: State, number: u64) -> Committed
    ensures { result ≡ commit_refused s number }
{
    Committed {
        state: s,
        refusal: Refusal { number, place: 0 },
    }
}

// Makes the proposal run, which is named again: 22 where none stands, 23 where what is named differs from it. No other checks are made.
pub fn commit(s: State, b: Bounded) -> Committed
    ensures { result ≡ commit_of s (cleared b) }
{
    let mine = s.firmware;
    if mine.stands == 0 {
        return commit_refused(s, Reason::NoProposal as u64);
    }
    let p = bounded::cleared_of(b);
    let kept = mine.proposal;
    if bounded::same(p, kept) {
        return Committed {
            state: running_state(p),
            refusal: Refusal::NONE,
        };
    }
    commit_refused(s, Reason::OtherProposal as u64)
}
