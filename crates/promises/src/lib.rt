// Whether a schedule keeps the bounds that go with it (order 10 of document 02): the checks of the schedule and of each of its chains, the greatest latency of each, and whether one is above its bound.
// `judge` is the entry point: it takes any schedule with any bounds. The other functions are its steps.
// All hyperperiods are looked at before any chain is walked, so that a schedule with a chain that 7 refuses costs no walk.
#![tactic(auto)]

ghost use Rattle.std.specs.Prelude.{◌≡◌, leb, length, ◌<◌};
ghost use Rattle.chain.specs.Chains.{tasks_of};
ghost use Rattle.chain.specs.Hyperperiod.{hyper_of};
ghost use Rattle.chain.specs.Checks.{verdict_of};
ghost use Rattle.schedule_checks.specs.Checks.{fault_of, passed};
ghost use Rattle.latency.specs.Latency.{greatest_latency};
ghost use Rattle.bounded.specs.Bounded.{pairwise};
ghost use Rattle.promises.specs.Promises.{chains_of, hyper_refusal, checks_of, latencies_of, answered, judged_of};

use bounded::Bounded;
use chain::Chain;
use refusal::Refusal;
use schedule::Schedule;

// ---- the checks

// 7 chain by chain, of a schedule that passed its own checks.
fn check_hyperperiods(s: Schedule) -> Result<(), Refusal>
    requires { (fault_of s).number ≡ 0 }
    ensures { result ≡ passed (hyper_refusal (chains_of s)) }
{
    for i in 0..s.chains {
        let c = schedule::chain_of(s, s.routes[i]);
        chain::check(c)?;
    }
    Ok(())
}

// 8, 5 and 6 of the schedule, then 7 chain by chain.
#[tactic(auto, using(crate::proofs::Turns::fault_first, crate::proofs::Turns::then_hyper))]
fn check(s: Schedule) -> Result<(), Refusal>
    ensures { result ≡ passed (checks_of s) }
{
    schedule_checks::check(s)?;
    check_hyperperiods(s)
}

// ---- the latencies

// The greatest latency of a chain that passed its checks.
fn latency_of(c: Chain) -> u64
    requires { verdict_of c ≡ Ok (hyper_of (tasks_of c)) }
    ensures { result ≡ greatest_latency (tasks_of c) }
{
    let tasks = chain::flat(c);
    let n = chain::flat_length(c.places);
    latency::greatest_of(&tasks[..n], c.gap)
}

// The greatest latency of each chain of a schedule that passed all checks, and 0 past the chains.
fn latencies_of(s: Schedule) -> [u64; 4]
    requires { (checks_of s).number ≡ 0 }
    ensures { result ≡ latencies_of s }
{
    let mut latencies = [0u64; 4];
    for i in 0..s.chains {
        let c = schedule::chain_of(s, s.routes[i]);
        latencies[i] = latency_of(c);
    }
    latencies
}

// Whether each number is at most the one beside it.
fn at_most_each(numbers: &[u64], limits: &[u64]) -> bool
    requires { length numbers.now ≡ length limits.now }
    ensures { result ≡ pairwise leb numbers.now limits.now }
{
    numbers
        .iter()
        .zip(limits)
        .all(|(number, limit)| number <= limit)
}

// ---- the judge

// The greatest latency of each chain, in their order, with 0 past the chains; or what is refused: 8, 5 and 6 of the schedule, 7 chain by chain, 21 where a latency is above its bound.
pub fn judge(b: Bounded) -> Result<[u64; 4], Refusal>
    ensures { result ≡ answered (judged_of b) }
{
    check(b.schedule)?;
    let latencies = latencies_of(b.schedule);
    if at_most_each(&latencies, &b.bounds) {
        return Ok(latencies);
    }
    Err(Refusal::ABOVE_BOUND)
}
