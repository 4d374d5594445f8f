// The exports of `capi_file` for C: each calls the function of its name there, with the same clauses. include/meshorchard.h declares them.
#![tactic(auto)]

ghost use Rattle.file_reader.specs.Reading.{read_file};
ghost use Rattle.capi_schedule.specs.FlatSchedule.{schedule_from};
ghost use Rattle.capi_file.specs.Calls.{GivesSchedule, GivesFile, GivesChain};

// Reads a schedule file: its tasks, its chains and their numbers of places, zeros past them, the two counts and the gap.
#[unsafe(no_mangle)]
pub extern "C" fn mo_read_file(
    bytes: &[u8],
    tasks: &mut [u64; 128],
    chains: &mut [u64; 48],
    places: &mut [u64; 4],
    counts: &mut [u64; 3],
) -> u64
    ensures { GivesSchedule (read_file bytes.now) result tasks.new chains.new places.new counts.new }
{
    capi_file::mo_read_file(bytes, tasks, chains, places, counts)
}

// Writes a schedule file into lent bytes, and gives its length.
#[unsafe(no_mangle)]
pub extern "C" fn mo_write_file(
    tasks: &[u64],
    count: usize,
    chains: &[u64],
    places: &[u64],
    total: usize,
    gap: u64,
    out: &mut [u8],
    length: &mut u64,
) -> u64
    ensures { GivesFile (schedule_from tasks.now count chains.now places.now total gap) out.old result out.new length.new }
{
    capi_file::mo_write_file(tasks, count, chains, places, total, gap, out, length)
}

// Chain `number` of a schedule, counted from 1: its tasks as the flat list T, D, F, .., zeros past them, and its number of places.
#[unsafe(no_mangle)]
pub extern "C" fn mo_chain_of_schedule(
    tasks: &[u64],
    count: usize,
    chains: &[u64],
    places: &[u64],
    total: usize,
    gap: u64,
    number: usize,
    flat: &mut [u64; 36],
    held: &mut u64,
) -> u64
    ensures { GivesChain (schedule_from tasks.now count chains.now places.now total gap) number result flat.new held.new }
{
    capi_file::mo_chain_of_schedule(tasks, count, chains, places, total, gap, number, flat, held)
}
