// The host: what it may call itself on each interface, and what a call gives. What the calls do is defined in specs/; their code
// stands in the crate responder.
#![tactic(auto)]

ghost use Rattle.std.specs.Prelude.{◌≡◌};
ghost use Rattle.host.specs.State.{interval_of, four_settings};
ghost use Rattle.host.specs.Outcomes.{nowhere as zero_endpoint};
ghost use Rattle.host.specs.SetUp.{fresh_interface, fresh_host, zero_host};

use octets::{Address, Endpoint, Setting};

/// When a name's timer runs out, in milliseconds.
#[derive(Clone, Copy, PartialEq, Eq, Debug)]
pub struct Timer {
    pub due: u64,
}

impl Timer {
    /// The short one of the two repeat intervals, in milliseconds.
    pub const SHORT: u64 = 100;

    /// The long one, in milliseconds.
    pub const LONG: u64 = 1000;

    /// How often a query is sent.
    pub const SENDS: u8 = 3;

    /// Milliseconds of a second.
    pub const SECOND: u64 = 1000;

    /// How long, in milliseconds, a lost name is not tried again if no answer of the response that took it can be read.
    pub const REST: u64 = 30000;

    /// The interval of a setting: any but the short one counts as the long one.
    pub fn interval(setting: Setting) -> u64
        ensures { result ≡ interval_of setting }
    {
        match u64::from(setting.interval) {
            Timer::SHORT => Timer::SHORT,
            _ => Timer::LONG,
        }
    }
}

/// The state of a name on an interface. Off is the zero value. A name is checked while Verifying; to own a name is Unique or
/// Defending. A stopped name is not tried again until a time.
#[derive(Clone, Copy, PartialEq, Eq, Debug)]
pub enum NameState {
    Off,
    /// Asked for so many times with this ID; when the timer runs out, it is asked for again or is Unique.
    Verifying {
        sends: u8,
        id: u16,
        timer: Timer,
    },
    Unique,
    /// Unique before, and asked for once more with this ID, type and class, since a conflict was notified.
    Defending {
        id: u16,
        qtype: u16,
        qclass: u16,
        timer: Timer,
    },
    /// Another host has it; a start before this time, in milliseconds, is refused.
    Stopped {
        until: u64,
    },
    /// Used here, as other hosts may use it too.
    Shared,
}

/// An interface: its settings, and the state of each name of the table on it.
#[derive(Clone, Copy, PartialEq, Eq, Debug)]
pub struct Interface {
    pub setting: Setting,
    pub names: [NameState; Interface::NAMES],
}

/// A host: its interfaces, and the last accepted time in milliseconds.
#[derive(Clone, Copy, PartialEq, Eq, Debug)]
pub struct Host {
    pub interfaces: [Interface; Setting::COUNT],
    pub clock: u64,
}

/// What an accepted call comes to: the number of the name that it tells of, and of a query or a reply how many octets of the
/// buffer were written, and where they are to be sent.
#[derive(Clone, Copy, PartialEq, Eq, Debug)]
pub enum Outcome {
    /// No name is due.
    Quiet,
    /// A response that the name waited for changes nothing but the clock.
    Kept {
        name: usize,
    },
    /// A query for the name is to be sent: the first, a repeat, or a defence.
    Query {
        name: usize,
        len: usize,
        to: Endpoint,
    },
    /// A reply is to be sent.
    Reply {
        len: usize,
        to: Endpoint,
    },
    /// The host owns the name here.
    Unique {
        name: usize,
    },
    /// The host uses the shared name here.
    Shared {
        name: usize,
    },
    /// The host may no longer use the name here.
    Stopped {
        name: usize,
    },
}

/// A datagram as it comes in: the address and port that it is from, the address that it was sent to, and its octets.
#[derive(Clone, Copy, PartialEq, Eq, Debug)]
pub struct Arrival<'a> {
    pub from: Endpoint,
    pub to: Address,
    pub datagram: &'a [u8],
}

/// When a call is made, in milliseconds, and the ID of a query that it may begin.
#[derive(Clone, Copy, PartialEq, Eq, Debug)]
pub struct Moment {
    pub time: u64,
    pub id: u16,
}

/// Where nothing is sent: every field is zero.
// A value of zeros, and no Option: C gets it (rule C8 of docs/RULES.md), and `nowhere` of the definitions is this value.
pub fn nowhere() -> Endpoint
    ensures { result ≡ zero_endpoint }
{
    Endpoint::default()
}

impl Interface {
    /// Names of a table at the most.
    pub const NAMES: usize = 8;

    /// With its settings as given, and all names Off.
    pub fn fresh(setting: Setting) -> Self
        ensures { result ≡ fresh_interface setting }
    {
        Interface {
            setting,
            names: [NameState::Off; Interface::NAMES],
        }
    }

    /// The settings of all interfaces.
    pub fn settings(interfaces: &[Interface; Setting::COUNT]) -> [Setting; Setting::COUNT]
        ensures { result ≡ four_settings interfaces.now }
    {
        interfaces.each_ref().map(|interface| interface.setting)
    }
}

impl Host {
    /// The latest time, 2^48 - 1 milliseconds.
    pub const LATEST: u64 = 281474976710655;

    /// Octets of the output buffer that every call but set-up needs.
    pub const ROOM: usize = 512;

    /// Octets of a reply at the most.
    pub const REPLY: u16 = 512;

    /// Octets of a datagram at the most.
    pub const DATAGRAM: usize = 9194;

    /// The class that asks for any class.
    pub const ANY_CLASS: u16 = 255;

    /// With all names Off.
    pub fn fresh(settings: [Setting; Setting::COUNT], time: u64) -> Self
        ensures { result ≡ fresh_host settings time }
    {
        Host {
            interfaces: settings.map(Interface::fresh),
            clock: time,
        }
    }

    /// All interfaces unused, all else zero: the state of a host that was not set up.
    // A value of zeros, and no Option: C gets it where a set-up is refused (rule S5 of docs/RULES.md).
    pub fn zero() -> Self
        ensures { result ≡ zero_host }
    {
        Host::fresh([Setting::default(); Setting::COUNT], 0)
    }
}
