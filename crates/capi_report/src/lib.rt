// The report of a schedule file for C and for hosts. include/meshorchard.h declares the call and says how to use it.
#![tactic(auto)]

ghost use Rattle.report.specs.Report.{Reports};

// Writes the report of a schedule file's bytes as text, and answers its length. The lent bytes hold the first bytes of it that fit.
#[unsafe(no_mangle)]
pub extern "C" fn mo_report(bytes: &[u8], out: &mut [u8]) -> u64
    ensures { Reports bytes.now out.old out.new result }
{
    report::report(bytes, out) as u64
}
