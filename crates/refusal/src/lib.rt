// A refusal as document 01 has it: its number and a place. Every call that can refuse answers one of these.
#![tactic(auto)]

ghost use Rattle.std.specs.Prelude.{◌≡◌, ◌+◌, ◌*◌, ◌≤◌, ◌<◌};
ghost use Rattle.refusal.specs.Refusals.{code_of};

// What is refused, with the numbers that the documents give it. The names are those of the header for C.
#[derive(Clone, Copy, PartialEq, Eq, Debug)]
pub enum Reason {
    FileEndsEarly = 1,
    RecordLengthWrong = 2,
    RecordKindUnknown = 3,
    RecordOutOfTurn = 4,
    TaskOutsideLimits = 5,
    TaskUnknown = 6,
    HyperperiodTooLong = 7,
    PlacesOutsideLimits = 8,
    CutOutsidePlaces = 9,
    ListsUnequal = 10,
    ListsTooShort = 11,
    TickTooEarly = 12,
    TickTooLate = 13,
    TableNotWellFormed = 14,
    WindowOutsideLimits = 15,
    ChainUnknown = 16,
    CutsNotRising = 17,
    WidthZero = 18,
    TaskNotInChain = 19,
    PeriodTooLong = 20,
    AboveBound = 21,
    NoProposal = 22,
    OtherProposal = 23,
}

#[repr(C)]
#[derive(Clone, Copy, PartialEq, Eq, Default, Debug)]
pub struct Refusal {
    pub number: u64,
    pub place: usize,
}

impl Refusal {
    // No refusal: what stands beside a success in the structs that C gets.
    pub const NONE: Refusal = Refusal {
        number: 0,
        place: 0,
    };

    // The refusals at place 0. Of a task outside its limits that is the gap.
    pub const TASK_OUTSIDE_LIMITS: Refusal = Refusal {
        number: Reason::TaskOutsideLimits as u64,
        place: 0,
    };

    pub const HYPERPERIOD_TOO_LONG: Refusal = Refusal {
        number: Reason::HyperperiodTooLong as u64,
        place: 0,
    };

    pub const PLACES_OUTSIDE_LIMITS: Refusal = Refusal {
        number: Reason::PlacesOutsideLimits as u64,
        place: 0,
    };

    pub const CUT_OUTSIDE_PLACES: Refusal = Refusal {
        number: Reason::CutOutsidePlaces as u64,
        place: 0,
    };

    pub const LISTS_UNEQUAL: Refusal = Refusal {
        number: Reason::ListsUnequal as u64,
        place: 0,
    };

    pub const LISTS_TOO_SHORT: Refusal = Refusal {
        number: Reason::ListsTooShort as u64,
        place: 0,
    };

    pub const TICK_TOO_EARLY: Refusal = Refusal {
        number: Reason::TickTooEarly as u64,
        place: 0,
    };

    pub const TICK_TOO_LATE: Refusal = Refusal {
        number: Reason::TickTooLate as u64,
        place: 0,
    };

    pub const TABLE_NOT_WELL_FORMED: Refusal = Refusal {
        number: Reason::TableNotWellFormed as u64,
        place: 0,
    };

    pub const WINDOW_OUTSIDE_LIMITS: Refusal = Refusal {
        number: Reason::WindowOutsideLimits as u64,
        place: 0,
    };

    pub const CUTS_NOT_RISING: Refusal = Refusal {
        number: Reason::CutsNotRising as u64,
        place: 0,
    };

    pub const WIDTH_ZERO: Refusal = Refusal {
        number: Reason::WidthZero as u64,
        place: 0,
    };

    pub const TASK_NOT_IN_CHAIN: Refusal = Refusal {
        number: Reason::TaskNotInChain as u64,
        place: 0,
    };

    pub const PERIOD_TOO_LONG: Refusal = Refusal {
        number: Reason::PeriodTooLong as u64,
        place: 0,
    };

    pub const ABOVE_BOUND: Refusal = Refusal {
        number: Reason::AboveBound as u64,
        place: 0,
    };

    // The refusal as one number, for C: its number and 256 times its place. The crates that call it prove that both are small.
    pub fn code(self) -> u64
        requires { (self.number < 256) × (self.place ≤ 1000000000) }
        ensures { result ≡ code_of self }
    {
        self.number + 256 * (self.place as u64)
    }
}
