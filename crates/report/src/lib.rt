// The report of a schedule file: each chain's table and figures as text, or its refusal, under a line `chain N`; or the refusal of the file; in lent bytes.
// `report` takes any bytes and any lent bytes; the text of a table and the line of a refusal are those of `table_text`.
#![tactic(auto)]

ghost use Rattle.std.specs.Prelude.{◌≡◌, ◌+◌, ◌≤◌, length};
ghost use Rattle.text.specs.Text.{Puts};
ghost use Rattle.table_text.specs.TableText.{longest_table};
ghost use Rattle.report.specs.Report.{chain_text, part_text, schedule_text, Reports};

use chain::Chain;
use maker::Unmade;
use refusal::Refusal;
use schedule::Schedule;

// The text of a chain, cut at the longest period and made in two lists of 1,024 slots.
fn put_chain(
    out: &mut [u8],
    at: usize,
    c: Chain,
    starts: &mut [u64],
    latencies: &mut [u64],
) -> usize
    requires { (length starts.old ≡ 1024) × (length latencies.old ≡ 1024) × (at ≤ 92000) }
    ensures { (Puts (chain_text 1024 c) at out.old out.new result) × (result ≤ at + longest_table) }
{
    let tasks = chain::flat(c);
    let n = chain::flat_length(c.places);
    let p = latency::longest_place(&tasks[..n], c.gap);
    let m = maker::make_table_on(&tasks[..n], c.gap, p, starts, latencies);
    match m {
        Err(Unmade::Refused(r)) => table_text::put_refusal(out, at, r),
        Err(Unmade::Short(_)) => table_text::put_refusal(out, at, Refusal::LISTS_TOO_SHORT),
        Ok(f) => table_text::put_table(out, at, f, starts, latencies),
    }
}

// The line `chain N` and the text of chain N.
fn put_part(
    out: &mut [u8],
    at: usize,
    n: u64,
    c: Chain,
    starts: &mut [u64],
    latencies: &mut [u64],
) -> usize
    requires { (length starts.old ≡ 1024) × (length latencies.old ≡ 1024) × (at ≤ 90000) }
    ensures { (Puts (part_text 1024 n c) at out.old out.new result) × (result ≤ at + 23000) }
{
    let a = text::put_line(out, at, b"chain", n);
    put_chain(out, a, c, starts, latencies)
}

// The text of a schedule, chain by chain. The two lists serve every chain: a text says what making wrote, whatever the lists held before.
fn put_schedule(out: &mut [u8], s: Schedule, starts: &mut [u64], latencies: &mut [u64]) -> usize
    requires { (s.chains ≤ 4) × (length starts.old ≡ 1024) × (length latencies.old ≡ 1024) }
    ensures { (Puts (schedule_text 1024 s) 0 out.old out.new result) × (result ≤ 92000) }
{
    let mut at: usize = 0;
    for i in 0..s.chains {
        let c = schedule::chain_of(s, s.routes[i]);
        at = put_part(out, at, i as u64 + 1, c, starts, latencies);
    }
    at
}

// The report of a schedule file. The answer is the length of the text; the lent bytes hold the first bytes of it that fit, and past it what was there.
// No text is longer than 92,000 bytes, so that many lent bytes hold every report.
pub fn report(bytes: &[u8], out: &mut [u8]) -> usize
    ensures { Reports bytes.now out.old out.new result }
{
    let s = match file_reader::read_file(bytes) {
        Ok(s) => s,
        Err(r) => return table_text::put_refusal(out, 0, r),
    };
    let mut starts = [0u64; 1024];
    let mut latencies = [0u64; 1024];
    put_schedule(out, s, &mut starts, &mut latencies)
}
