// Sections of a chain that is cut: the greatest latency of each, as a chain of its own, and their sum with one gap for each cut (order 6 of document 02).
// `section_latencies` takes any chain and any cuts; `section_latencies_on` any flat list of tasks and any gap. A section is a part of the flat list, which is lent and not copied.
#![tactic(auto)]

ghost use Rattle.std.specs.Prelude.{◌≡◌, true, length, take, drop, ◌-◌, ◌≤◌, ◌<◌};
ghost use Rattle.chain.specs.Flat.{given_in, tasks_in};
ghost use Rattle.latency.specs.Latency.{greatest_latency};
ghost use Rattle.sections.specs.Uniform.{Cuttable};
ghost use Rattle.sections.specs.Sections.{rises_to, answered, after_cuts, sections_answer, sections_in};

use chain::Chain;
use refusal::Refusal;

// The sections' greatest latencies in order, with 0 past them, their number, and the sum with one gap for each cut.
#[derive(Clone, Copy)]
pub struct Sections {
    pub latencies: [u64; 12],
    pub count: usize,
    pub sum: u64,
}

// Whether the cuts rise strictly and lie in 1 to places - 1.
#[tactic(auto, using(crate::proofs::Exits::turn_low, crate::proofs::Exits::turn_high, crate::proofs::Exits::turn_on, crate::proofs::Exits::turn_end))]
fn rises(cuts: &[u64], places: usize) -> bool
    ensures { result ≡ rises_to places 0 cuts.now }
{
    let n = places as u64;
    let mut from: u64 = 0;
    for &cut in cuts {
        if cut <= from || n <= cut {
            return false;
        }
        from = cut;
    }
    true
}

// The greatest latency of the section after place a up to place e. It needs no checks: it is a part of what passed them, and its hyperperiod divides that of the whole.
fn section_latency(tasks: &[u64], gap: u64, a: usize, e: usize) -> u64
    requires { (Cuttable gap (tasks_in gap tasks.now)) × (a < e) × (e ≤ length (tasks_in gap tasks.now)) }
    ensures { result ≡ greatest_latency (take (e - a) (drop a (tasks_in gap tasks.now))) }
{
    let from = 3 * a;
    let to = 3 * e;
    latency::greatest_of(&tasks[from..to], gap)
}

// The sections of an accepted list and of cuts that rise inside it.
fn measure(tasks: &[u64], gap: u64, cuts: &[u64]) -> Sections
    requires { (Cuttable gap (tasks_in gap tasks.now)) × (rises_to (length (tasks_in gap tasks.now)) 0 cuts.now ≡ true) }
    ensures { result ≡ answered gap (tasks_in gap tasks.now) cuts.now }
{
    let mut latencies = [0u64; 12];
    let mut sum: u64 = 0;
    let mut from: usize = 0;
    for (i, cut) in cuts.iter().enumerate() {
        let to = *cut as usize;
        let latency = section_latency(tasks, gap, from, to);
        latencies[i] = latency;
        sum += latency + gap;
        from = to;
    }
    let latency = section_latency(tasks, gap, from, tasks.len() / 3);
    latencies[cuts.len()] = latency;
    Sections {
        latencies,
        count: cuts.len() + 1,
        sum: sum + latency,
    }
}

// The check of the cuts after the chain's own: 17.
fn judge(v: Result<u64, Refusal>, places: usize, cuts: &[u64]) -> Result<u64, Refusal>
    ensures { result ≡ after_cuts places cuts.now v }
{
    let h = v?;
    if rises(cuts, places) {
        return Ok(h);
    }
    Err(Refusal::CUTS_NOT_RISING)
}

// Sections of a flat list of tasks, one for each place, with the gap of their links.
#[tactic(auto, using(chain::specs::Flat::in_count), unfolding(crate::specs::Sections::sections_after))]
pub fn section_latencies_on(tasks: &[u64], gap: u64, cuts: &[u64]) -> Result<Sections, Refusal>
    ensures { result ≡ sections_in gap (given_in tasks.now) cuts.now }
{
    judge(chain::check_on(tasks, gap), tasks.len() / 3, cuts)?;
    Ok(measure(tasks, gap, cuts))
}

// Sections of a chain: each section's greatest latency, and the sum with one gap for each cut; refusals 8, 5, 7, 17.
pub fn section_latencies(c: Chain, cuts: &[u64]) -> Result<Sections, Refusal>
    ensures { result ≡ sections_answer c cuts.now }
{
    let tasks = chain::flat(c);
    let n = chain::flat_length(c.places);
    section_latencies_on(&tasks[..n], c.gap, cuts)
}
