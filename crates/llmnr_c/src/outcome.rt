// What a call comes to, as numbers.
ghost use Rattle.std.specs.Prelude.{◌≡◌};
ghost use Rattle.refusal.specs.Numbers.{report_of};
ghost use Rattle.host.specs.Outcomes.{result_of, told};
ghost use Rattle.lookup.specs.Outcomes.{result_of as lookup_result_of, told as lookup_told};
ghost use Rattle.llmnr_c.specs.Outcomes.{flat_refusal, flat_outcome, flat_lookup_outcome};

use refusal::Refusal;

/// The number of what a call says; with a refusal its number, and its offset if it has one; of a
/// response where its answers begin, and how many there are; the number of a name; the octets
/// written. What does not go with it is zero.
// Numbers and fields that are zero, and no enum: the C interface.
#[repr(C)]
#[derive(Clone, Copy, PartialEq, Eq, Debug, Default)]
pub struct FlatOutcome {
    pub what: u8,
    pub refusal: u8,
    pub answers: u16,
    pub at: usize,
    pub name: usize,
    pub len: usize,
}

// The numbers of what a call says in include/llmnr.h: the C interface.
impl FlatOutcome {
    pub const REFUSED: u8 = 0;

    pub const READY: u8 = 1;

    pub const QUIET: u8 = 2;

    pub const KEPT: u8 = 3;

    pub const QUERY: u8 = 4;

    pub const REPLY: u8 = 5;

    pub const UNIQUE: u8 = 6;

    pub const SHARED: u8 = 7;

    pub const STOPPED: u8 = 8;

    pub const PART: u8 = 9;

    pub const FOUND: u8 = 10;

    pub const COLLECTED: u8 = 11;

    pub const NO_SUCH_NAME: u8 = 12;
}

impl From<Refusal> for FlatOutcome {
    ghost from_gives = { λ refusal flat. flat ≡ flat_refusal (report_of refusal) };

    fn from(refusal: Refusal) -> FlatOutcome {
        let at = match refusal {
            Refusal::Table { at } => at,
            _ => 0,
        };
        FlatOutcome {
            what: FlatOutcome::REFUSED,
            refusal: refusal.number(),
            at,
            ..FlatOutcome::default()
        }
    }
}

impl From<host::Outcome> for FlatOutcome {
    ghost from_gives = { λ outcome flat. flat ≡ flat_outcome (result_of outcome) };

    fn from(outcome: host::Outcome) -> FlatOutcome {
        let (what, name, len) = match outcome {
            host::Outcome::Quiet => (FlatOutcome::QUIET, 0, 0),
            host::Outcome::Kept { name } => (FlatOutcome::KEPT, name, 0),
            host::Outcome::Query { name, len, .. } => (FlatOutcome::QUERY, name, len),
            host::Outcome::Reply { len, .. } => (FlatOutcome::REPLY, 0, len),
            host::Outcome::Unique { name } => (FlatOutcome::UNIQUE, name, 0),
            host::Outcome::Shared { name } => (FlatOutcome::SHARED, name, 0),
            host::Outcome::Stopped { name } => (FlatOutcome::STOPPED, name, 0),
        };
        FlatOutcome {
            what,
            name,
            len,
            ..FlatOutcome::default()
        }
    }
}

impl From<lookup::Outcome> for FlatOutcome {
    ghost from_gives = { λ outcome flat. flat ≡ flat_lookup_outcome (lookup_result_of outcome) };

    fn from(outcome: lookup::Outcome) -> FlatOutcome {
        let (what, at, answers, len) = match outcome {
            lookup::Outcome::Quiet => (FlatOutcome::QUIET, 0, 0, 0),
            lookup::Outcome::Query { len, .. } => (FlatOutcome::QUERY, 0, 0, len),
            lookup::Outcome::Part { at, answers } => (FlatOutcome::PART, at, answers, 0),
            lookup::Outcome::Found { at, answers } => (FlatOutcome::FOUND, at, answers, 0),
            lookup::Outcome::Collected => (FlatOutcome::COLLECTED, 0, 0, 0),
            lookup::Outcome::NoSuchName => (FlatOutcome::NO_SUCH_NAME, 0, 0, 0),
        };
        FlatOutcome {
            what,
            answers,
            at,
            len,
            ..FlatOutcome::default()
        }
    }
}

impl From<Result<lookup::Outcome, Refusal>> for FlatOutcome {
    ghost from_gives = { λ result flat. flat ≡ flat_lookup_outcome (lookup_told result) };

    fn from(came: Result<lookup::Outcome, Refusal>) -> FlatOutcome {
        match came {
            Ok(outcome) => FlatOutcome::from(outcome),
            Err(refusal) => FlatOutcome::from(refusal),
        }
    }
}
