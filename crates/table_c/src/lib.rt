// The exports of `table` for C: each calls the function of its name there, with the same clauses. include/meshorchard.h declares them.
#![tactic(auto)]

ghost use Rattle.table.specs.Reading.{GivesWord};

// Reading for C, one number: the delay, which lies below 2^32, or 2^32 + the refusal's number.
#[unsafe(no_mangle)]
pub extern "C" fn mo_read_table(starts: &[u64], latencies: &[u64], g: u64, h: u64, t: u64) -> u64
    ensures { GivesWord starts.now latencies.now g h t result }
{
    table::mo_read_table(starts, latencies, g, h, t)
}
