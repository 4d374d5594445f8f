// Schedule files for C and for hosts: bytes, plain numbers and lists of numbers. include/meshorchard.h declares the calls and says how to use them.
// A schedule is given and got as the lists of `capi_schedule`.
#![tactic(auto)]

ghost use Rattle.file_reader.specs.Reading.{read_file};
ghost use Rattle.capi_schedule.specs.FlatSchedule.{schedule_from};
ghost use Rattle.capi_file.specs.Calls.{GivesSchedule, GivesFile, GivesChain};

// Reads a schedule file: its tasks, its chains and their numbers of places, zeros past them, the two counts and the gap.
pub fn mo_read_file(
    bytes: &[u8],
    tasks: &mut [u64; 128],
    chains: &mut [u64; 48],
    places: &mut [u64; 4],
    counts: &mut [u64; 3],
) -> u64
    ensures { GivesSchedule (read_file bytes.now) result tasks.new chains.new places.new counts.new }
{
    match file_reader::read_file(bytes) {
        Ok(s) => {
            *tasks = capi_schedule::flat_tasks(s.tasks);
            *chains = capi_schedule::flat_routes(s.routes);
            *places = capi_schedule::route_counts(s.routes);
            *counts = [s.count as u64, s.chains as u64, s.gap];
            0
        }
        Err(r) => {
            *tasks = [0; 128];
            *chains = [0; 48];
            *places = [0; 4];
            *counts = [0; 3];
            r.code()
        }
    }
}

// Writes a schedule file into lent bytes, and gives its length.
pub fn mo_write_file(
    tasks: &[u64],
    count: usize,
    chains: &[u64],
    places: &[u64],
    total: usize,
    gap: u64,
    out: &mut [u8],
    length: &mut u64,
) -> u64
    ensures { GivesFile (schedule_from tasks.now count chains.now places.now total gap) out.old result out.new length.new }
{
    let s = capi_schedule::schedule_from(tasks, count, chains, places, total, gap);
    match file_writer::write_file(s, out) {
        Ok(n) => {
            *length = n as u64;
            0
        }
        Err(r) => {
            *length = 0;
            r.code()
        }
    }
}

// Chain `number` of a schedule, counted from 1: its tasks as the flat list T, D, F, .., zeros past them, and its number of places.
pub fn mo_chain_of_schedule(
    tasks: &[u64],
    count: usize,
    chains: &[u64],
    places: &[u64],
    total: usize,
    gap: u64,
    number: usize,
    flat: &mut [u64; 36],
    held: &mut u64,
) -> u64
    ensures { GivesChain (schedule_from tasks.now count chains.now places.now total gap) number result flat.new held.new }
{
    let s = capi_schedule::schedule_from(tasks, count, chains, places, total, gap);
    match schedule_checks::chain_number(s, number) {
        Ok(c) => {
            *flat = chain::flat(c);
            *held = c.places as u64;
            0
        }
        Err(r) => {
            *flat = [0; 36];
            *held = 0;
            r.code()
        }
    }
}
