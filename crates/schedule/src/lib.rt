// A schedule by value: its tasks with their numbers, its chains as the task numbers at their places, their counts, and the gap of the chains' links.
// `chain_of` takes any schedule and any route. `follows` takes any task, `numbers_of` and `find` any values.
#![tactic(auto)]

ghost use Rattle.std.specs.Prelude.{◌≡◌, map, ◌+◌, ◌≤◌, ◌<◌, eqb, position};
ghost use Rattle.schedule.specs.Schedules.{number_of, tasks_in, task_rule, chain_of};

use chain::Chain;
use task::Task;

// A task and its number in the schedule.
#[repr(C)]
#[derive(Clone, Copy, PartialEq, Eq, Default, Debug)]
pub struct NumberedTask {
    pub number: u64,
    pub task: Task,
}

// A chain of a schedule: the number of the task at each place, and how many places there are, 1 to 12.
#[repr(C)]
#[derive(Clone, Copy, PartialEq, Eq, Default, Debug)]
pub struct Route {
    pub places: [u64; 12],
    pub count: usize,
}

// Document 01 with order 1 of document 02: up to 32 tasks and 1 to 4 chains, numbered by their place from 1. Entries from a count on are no part of the schedule.
// Order 5: one gap, 0 to 1,000 ticks, for every link of every chain.
#[repr(C)]
#[derive(Clone, Copy, PartialEq, Eq, Default, Debug)]
pub struct Schedule {
    pub tasks: [NumberedTask; 32],
    pub routes: [Route; 4],
    pub count: usize,
    pub chains: usize,
    pub gap: u64,
}

// Whether a task may follow one with the number `before`: its number is above that one and at most 65,535, and its values are inside their limits.
#[tactic(auto, unfolding(crate::specs::Schedules::task_rule))]
pub fn follows(before: u64, t: NumberedTask) -> bool
    ensures { result ≡ task_rule before t }
{
    before < t.number && t.number <= 65535 && t.task.within_limits()
}

// The numbers of an array of tasks.
pub fn numbers_of(tasks: [NumberedTask; 32]) -> [u64; 32]
    ensures { result ≡ map number_of tasks }
{
    let mut numbers = [0; 32];
    for i in 0..32 {
        numbers[i] = tasks[i].number;
    }
    numbers
}

// Where number n stands first, counted from 0.
pub fn find(numbers: &[u64], n: u64) -> Option<usize>
    ensures { result ≡ position (λ m. eqb m n) numbers.now }
{
    numbers.iter().position(|number| *number == n)
}

// The chain of a route in a schedule: the tasks at its places, and the schedule's gap. A number that no task has gives a task of zeros, whose period is outside its limits.
pub fn chain_of(s: Schedule, r: Route) -> Chain
    ensures { result ≡ chain_of s.gap (tasks_in s) r }
{
    let numbers = numbers_of(s.tasks);
    let count = s.count.min(32);
    let places = r.count.min(12);
    let mut tasks = [Task::default(); 12];
    for i in 0..places {
        if let Some(at) = find(&numbers[..count], r.places[i]) {
            tasks[i] = s.tasks[at].task;
        }
    }
    Chain {
        tasks,
        places: r.count,
        gap: s.gap,
    }
}
