// The text of a completed table, and the line of a refusal, in lent bytes. Each function writes a part of the text, from an offset on, and answers the offset after it.
// They are for the crates above: an offset is at most 92,000, by which four tables end, and `put_table` takes a table as making completes it.
#![tactic(auto)]

ghost use Rattle.std.specs.Prelude.{◌≡◌, true, ◌+◌, ◌*◌, ◌≤◌, ◌<◌, length};
ghost use Rattle.table.specs.Anchors.{anchors};
ghost use Rattle.table.specs.OnTable.{of_table, anchors_of};
ghost use Rattle.table.specs.WellFormed.{well_formed};
ghost use Rattle.table.specs.Figures.{greatest, low};
ghost use Rattle.text.specs.Text.{Puts};
ghost use Rattle.table_text.specs.TableText.{refused_text, anchor_lines, head_text, mean_text, figures_text, text_of_table, longest_table};
ghost use Rattle.table_text.specs.Widths.{FewDigits};

use maker::Figures;
use refusal::Refusal;
use table::Table;

// ---- lines

// The one line of a refusal.
pub fn put_refusal(out: &mut [u8], at: usize, r: Refusal) -> usize
    requires { at ≤ 92000 }
    ensures { (Puts (refused_text r) at out.old out.new result) × (result ≤ at + 50) }
{
    text::put_pair(out, at, b"refused", r.number, r.place as u64)
}

// The lines before the anchors.
fn put_head(out: &mut [u8], at: usize, f: Figures) -> usize
    requires { at ≤ 92000 }
    ensures { (Puts (head_text f) at out.old out.new result) × (result ≤ at + 82) }
{
    let tick = f.tick;
    let a = text::put_line(out, at, b"warm", tick.0);
    let b = text::put_line(out, a, b"hyper", f.hyperperiod);
    text::put_line(out, b, b"anchors", f.anchors as u64)
}

// The lines of the anchors, each of at most 22 bytes.
fn put_anchors(out: &mut [u8], at: usize, t: Table) -> usize
    requires { (t.anchors ≤ length t.starts.now) × (t.anchors ≤ length t.latencies.now) × (at + 22 * t.anchors ≤ 120000) × FewDigits t.starts.now t.latencies.now t.anchors }
    ensures { (Puts (anchor_lines (anchors_of t.entry)) at out.old out.new result) × (result ≤ at + 22 * t.entry.anchors) }
{
    let mut end = at;
    for (start, latency) in t.starts[..t.anchors].iter().zip(&t.latencies[..t.anchors]) {
        end = text::put_pair(out, end, b"a", *start, *latency);
    }
    end
}

// ---- the figures of a well-formed table, which `figures` does not refuse

fn greatest_of(t: Table) -> u64
    requires { of_table well_formed t ≡ true }
    ensures { result ≡ greatest (anchors_of t.entry) }
{
    let v = figures::greatest_of(t);
    match v {
        Ok(x) => x,
        Err(_) => 0,
    }
}

fn low_of(t: Table) -> u64
    requires { of_table well_formed t ≡ true }
    ensures { result ≡ low t.entry.hyperperiod (anchors_of t.entry) }
{
    let v = figures::low_of(t);
    match v {
        Ok(x) => x,
        Err(_) => 0,
    }
}

// The line of the mean, with its two numbers.
fn put_mean(out: &mut [u8], at: usize, t: Table) -> usize
    requires { (of_table well_formed t ≡ true) × (at ≤ 121000) }
    ensures { (Puts (mean_text t.entry.hyperperiod (anchors_of t.entry)) at out.old out.new result) × (result ≤ at + 47) }
{
    let v = figures::mean_of(t);
    match v {
        Ok(m) => text::put_pair(out, at, b"mean", m.doubled_area, m.doubled_ticks),
        Err(_) => at,
    }
}

// The lines of greatest, low and mean.
fn put_figures(out: &mut [u8], at: usize, t: Table) -> usize
    requires { (of_table well_formed t ≡ true) × (at ≤ 120000) }
    ensures { (Puts (figures_text t.entry.hyperperiod (anchors_of t.entry)) at out.old out.new result) × (result ≤ at + 97) }
{
    let a = text::put_line(out, at, b"max", greatest_of(t));
    let b = text::put_line(out, a, b"low", low_of(t));
    put_mean(out, b, t)
}

// The text of a completed table.
pub fn put_table(out: &mut [u8], at: usize, f: Figures, starts: &[u64], latencies: &[u64]) -> usize
    requires { (well_formed starts.now latencies.now f.anchors f.hyperperiod ≡ true) × (length starts.now ≡ 1024) × (length latencies.now ≡ 1024) × (f.anchors ≤ 1024) × (at ≤ 92000) }
    ensures { (Puts (text_of_table f (anchors starts.now latencies.now f.anchors)) at out.old out.new result) × (result ≤ at + longest_table) }
{
    let t = Table {
        starts,
        latencies,
        anchors: f.anchors,
        hyperperiod: f.hyperperiod,
    };
    let a = put_head(out, at, f);
    let b = put_anchors(out, a, t);
    let c = put_figures(out, b, t);
    text::put_line(out, c, b"walked", f.walked)
}
