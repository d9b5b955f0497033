// A lookup: what it asks for, how far it is, and what a call of it gives. What the calls do is defined in specs/; their code stands in the
// crate querier.
#![tactic(auto)]

ghost use Rattle.std.specs.Prelude.{◌≡◌};
ghost use Rattle.lookup.specs.State.{ended_lookup};

use host::Timer;
use names::Name;
use octets::{Endpoint, Setting};

/// How far a lookup is: it asks, it collects the responses of several hosts that share the name, or it is over.
#[derive(Clone, Copy, PartialEq, Eq, Debug)]
pub enum Phase {
    /// Its query was sent so many times; when the timer runs out, it is sent again or nobody has answered.
    Asking { sends: u8, timer: Timer },
    /// Until the timer runs out.
    Collecting { timer: Timer },
    Ended,
}

/// The settings of the host's interfaces and the number of the one that it asks on; the name, its octets, type and ID of its query; the
/// last accepted time.
// The name is an array with a length beside it, and no vector: `lookup_of` of llmnr_c makes a lookup of any length that a program in C
// gives, and `name_of` says what each means.
#[derive(Clone, Copy, PartialEq, Eq, Debug)]
pub struct Lookup {
    pub settings: [Setting; Setting::COUNT],
    pub interface: usize,
    pub name: [u8; Name::LONGEST],
    pub len: usize,
    pub qtype: u16,
    pub id: u16,
    pub clock: u64,
    pub phase: Phase,
}

/// What a lookup is to ask for: a name, with its zero octet, and a record type. Permission lets a name of several labels by.
#[derive(Clone, Copy, PartialEq, Eq, Debug)]
pub struct Asked<'a> {
    pub name: &'a [u8],
    pub qtype: u16,
    pub permission: bool,
}

/// What an accepted start gives: the lookup, how many octets of the buffer its query has, and where it is to be sent.
#[derive(Clone, Copy, PartialEq, Eq, Debug)]
pub struct FirstQuery {
    pub lookup: Lookup,
    pub len: usize,
    pub to: Endpoint,
}

/// What an accepted receive or tick comes to. With a query: how many octets of the buffer were written, and where they are to be sent. With
/// a response: the offset where its answers begin, and how many there are.
#[derive(Clone, Copy, PartialEq, Eq, Debug)]
pub enum Outcome {
    /// Nothing is due.
    Quiet,
    /// The query is to be sent again.
    Query { len: usize, to: Endpoint },
    /// One of several hosts that share the name has answered; the lookup goes on.
    Part { at: usize, answers: u16 },
    /// The owner of the name has answered; the lookup has ended.
    Found { at: usize, answers: u16 },
    /// No more responses are waited for; the lookup has ended with the parts told before.
    Collected,
    /// Nobody has answered; the lookup has ended.
    NoSuchName,
}

impl Lookup {
    /// A lookup that has ended, on an unused interface, all else zero: in place of one that was not started.
    // A value of zeros, and no Option: C gets it where a start is refused (rule A17 of docs/RULES.md).
    pub fn ended() -> Self
        ensures { result ≡ ended_lookup }
    {
        Lookup {
            settings: [Setting::default(); Setting::COUNT],
            interface: 0,
            name: [0; Name::LONGEST],
            len: 0,
            qtype: 0,
            id: 0,
            clock: 0,
            phase: Phase::Ended,
        }
    }
}
