// The state of a lookup as a flat struct, and back. Any flat value stands for some state.
ghost use Rattle.std.specs.Prelude.{◌≡◌};
ghost use Rattle.lookup.specs.Outcomes.{told, sent_to};
ghost use Rattle.llmnr_c.specs.FlatLookup.{lookup_of, phase_number, sends_in, due_in};
ghost use Rattle.llmnr_c.specs.FlatLookup.{flat_lookup, flat_start, flat_step};

use crate::outcome::FlatOutcome;
use host::Timer;
use lookup::{Lookup, Outcome, Phase};
use names::Name;
use octets::{Endpoint, Setting};
use querier::Sent;
use refusal::Refusal;

/// A lookup: the number of its phase, and of a phase with data these; what the phase does not use
/// is zero. Any number that no phase has counts as Ended.
// A number for the phase, and a name with a length beside it: the C interface.
#[repr(C)]
#[derive(Clone, Copy, PartialEq, Eq, Debug)]
pub struct FlatLookup {
    pub settings: [Setting; Setting::COUNT],
    pub interface: usize,
    pub name: [u8; Name::LONGEST],
    pub len: usize,
    pub qtype: u16,
    pub id: u16,
    pub clock: u64,
    pub phase: u8,
    pub sends: u8,
    pub due: u64,
}

// The numbers of the phases in include/llmnr.h: the C interface.
impl FlatLookup {
    pub const ENDED: u8 = 0;

    pub const ASKING: u8 = 1;

    pub const COLLECTING: u8 = 2;
}

/// What a start comes to.
// A flat struct beside FirstQuery: the C interface.
#[repr(C)]
#[derive(Clone, Copy, PartialEq, Eq, Debug)]
pub struct FlatLookupStart {
    pub lookup: FlatLookup,
    pub outcome: FlatOutcome,
    pub to: Endpoint,
}

/// What a later call comes to: the clock and the phase of the lookup after it.
// A number for the phase: the C interface.
#[repr(C)]
#[derive(Clone, Copy, PartialEq, Eq, Debug)]
pub struct FlatLookupStep {
    pub clock: u64,
    pub due: u64,
    pub outcome: FlatOutcome,
    pub to: Endpoint,
    pub phase: u8,
    pub sends: u8,
}

impl From<FlatLookup> for Lookup {
    ghost from_gives = { λ flat lookup. lookup ≡ lookup_of flat };

    fn from(flat: FlatLookup) -> Lookup {
        let FlatLookup {
            settings,
            interface,
            name,
            len,
            qtype,
            id,
            clock,
            phase,
            sends,
            due,
        } = flat;
        let timer = Timer { due };
        let phase = match phase {
            FlatLookup::ASKING => Phase::Asking { sends, timer },
            FlatLookup::COLLECTING => Phase::Collecting { timer },
            _ => Phase::Ended,
        };
        Lookup {
            settings,
            interface,
            name,
            len,
            qtype,
            id,
            clock,
            phase,
        }
    }
}

// A phase as its number, its sends, and when it is due.
fn numbers(phase: Phase) -> (u8, u8, u64)
    ensures { result ≡ (phase_number phase, sends_in phase, due_in phase) }
{
    match phase {
        Phase::Asking { sends, timer } => (FlatLookup::ASKING, sends, timer.due),
        Phase::Collecting { timer } => (FlatLookup::COLLECTING, 0, timer.due),
        Phase::Ended => (FlatLookup::ENDED, 0, 0),
    }
}

impl From<Lookup> for FlatLookup {
    ghost from_gives = { λ lookup flat. flat ≡ flat_lookup lookup };

    fn from(lookup: Lookup) -> FlatLookup {
        let Lookup {
            settings,
            interface,
            name,
            len,
            qtype,
            id,
            clock,
            phase,
        } = lookup;
        let (phase, sends, due) = numbers(phase);
        FlatLookup {
            settings,
            interface,
            name,
            len,
            qtype,
            id,
            clock,
            phase,
            sends,
            due,
        }
    }
}

// What a start has made of a lookup, and what it comes to.
pub(crate) fn start(lookup: &Lookup, came: Result<Sent, Refusal>) -> FlatLookupStart
    ensures { result ≡ flat_start lookup.now came }
{
    let (outcome, to) = match came {
        Ok(Sent { len, to }) => (FlatOutcome::from(Outcome::Query { len, to }), to),
        Err(refusal) => (FlatOutcome::from(refusal), host::nowhere()),
    };
    FlatLookupStart {
        lookup: FlatLookup::from(*lookup),
        outcome,
        to,
    }
}

// Where the octets that were written go; nowhere where none were.
// That of flat takes another enum: a trait for the two would be no plainer.
fn destination(came: Result<Outcome, Refusal>) -> Endpoint
    ensures { result ≡ sent_to came }
{
    match came {
        Ok(Outcome::Query { to, .. }) => to,
        _ => host::nowhere(),
    }
}

// What a call has left of a lookup, and what it comes to.
pub(crate) fn step(lookup: &Lookup, came: Result<Outcome, Refusal>) -> FlatLookupStep
    ensures { result ≡ flat_step lookup.now (told came) (sent_to came) }
{
    let (phase, sends, due) = numbers(lookup.phase);
    FlatLookupStep {
        clock: lookup.clock,
        due,
        outcome: FlatOutcome::from(came),
        to: destination(came),
        phase,
        sends,
    }
}
