// Every analysis from a schedule (order 1 of document 02): it takes a chain number, counted from 1, and answers as the analysis of that chain does.
// Each call takes any schedule and any numbers. Its refusals are 8, 5 and 6 of the schedule, 16 of the chain number, then the chain's own, then the call's.
#![tactic(auto)]

ghost use Rattle.std.specs.Prelude.{◌≡◌};
ghost use Rattle.from_schedule.specs.Answers.{warm_up_from, delay_from, age_from, MakesFrom, windows_from, bookings_from, sections_from};

use bookings::Bookings;
use maker::{Figures, Unmade};
use refusal::Refusal;
use schedule::Schedule;
use sections::Sections;
use task::Tick;
use timing::WarmUp;
use windows::Windows;

// Warm-up of chain n.
pub fn warm_up_of(s: Schedule, n: usize) -> Result<WarmUp, Refusal>
    ensures { result ≡ warm_up_from s n }
{
    let c = schedule_checks::chain_number(s, n)?;
    timing::warm_up(c)
}

// Walking: the delay of chain n at tick t.
pub fn delay_of(s: Schedule, n: usize, t: Tick) -> Result<u64, Refusal>
    ensures { result ≡ delay_from s n t.0 }
{
    let c = schedule_checks::chain_number(s, n)?;
    timing::delay(c, t)
}

// Ageing: the age of chain n at tick z.
pub fn age_of(s: Schedule, n: usize, z: Tick) -> Result<u64, Refusal>
    ensures { result ≡ age_from s n z.0 }
{
    let c = schedule_checks::chain_number(s, n)?;
    timing::age(c, z)
}

// Making the table of chain n, cut at place p.
pub fn make_table_of(
    s: Schedule,
    n: usize,
    p: usize,
    starts: &mut [u64],
    latencies: &mut [u64],
) -> Result<Figures, Unmade>
    ensures { MakesFrom s n p starts.old latencies.old starts.new latencies.new result }
{
    let c = schedule_checks::chain_number(s, n)?;
    maker::make_table(c, p, starts, latencies)
}

// Windows of k jobs of chain n.
pub fn most_misses_of(s: Schedule, n: usize, b: u64, k: u64) -> Result<Windows, Refusal>
    ensures { result ≡ windows_from s n b k }
{
    let c = schedule_checks::chain_number(s, n)?;
    windows::most_misses(c, b, k)
}

// Two chains: the bookings of a press at tick t by chain `first` and by chain `second`.
pub fn pair_of(s: Schedule, first: usize, second: usize, t: Tick) -> Result<Bookings, Refusal>
    ensures { result ≡ bookings_from s first second t.0 }
{
    schedule_checks::check(s)?;
    let c = schedule_checks::chain_in(s, first)?;
    let d = schedule_checks::chain_in(s, second)?;
    bookings::pair(c, d, t)
}

// Sections of chain n, cut at these cuts.
pub fn section_latencies_of(s: Schedule, n: usize, cuts: &[u64]) -> Result<Sections, Refusal>
    ensures { result ≡ sections_from s n cuts.now }
{
    let c = schedule_checks::chain_number(s, n)?;
    sections::section_latencies(c, cuts)
}
