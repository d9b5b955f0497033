// The state of a host as flat structs, and back. Any flat value stands for some state.
ghost use Rattle.std.specs.Prelude.{◌≡◌};
ghost use Rattle.host.specs.Outcomes.{to_of};
ghost use Rattle.host.specs.SetUp.{set_up_after};
ghost use Rattle.llmnr_c.specs.FlatHost.{state_of, flat_state, flat_names, flat_host};
ghost use Rattle.llmnr_c.specs.FlatHost.{host_set_up, flat_served};

use crate::outcome::FlatOutcome;
use host::{Host, Interface, NameState, Outcome, Timer};
use octets::{Endpoint, Setting};
use refusal::Refusal;
use responder::served::Served;
use responder::turn::Waits;

/// A name: the number of its state, and of a state with data these; all else is zero. A stopped
/// name is due when it may be tried again. Any number that no state has counts as Off.
// A number for the state, and fields that are zero: the C interface.
#[repr(C)]
#[derive(Clone, Copy, PartialEq, Eq, Debug, Default)]
pub struct FlatName {
    pub state: u8,
    pub sends: u8,
    pub id: u16,
    pub qtype: u16,
    pub qclass: u16,
    pub due: u64,
}

// The numbers of the states in include/llmnr.h: the C interface.
impl FlatName {
    pub const OFF: u8 = 0;

    pub const VERIFYING: u8 = 1;

    pub const UNIQUE: u8 = 2;

    pub const DEFENDING: u8 = 3;

    pub const STOPPED: u8 = 4;

    pub const SHARED: u8 = 5;
}

/// The names of an interface, in the table's order.
// This and the next three repeat the host's types as flat structs: the C interface.
#[repr(C)]
#[derive(Clone, Copy, PartialEq, Eq, Debug)]
pub struct FlatNames {
    pub names: [FlatName; Interface::NAMES],
}

#[repr(C)]
#[derive(Clone, Copy, PartialEq, Eq, Debug)]
pub struct FlatSettings {
    pub interfaces: [Setting; Setting::COUNT],
}

#[repr(C)]
#[derive(Clone, Copy, PartialEq, Eq, Debug)]
pub struct FlatHost {
    pub settings: FlatSettings,
    pub interfaces: [FlatNames; Setting::COUNT],
    pub clock: u64,
}

#[repr(C)]
#[derive(Clone, Copy, PartialEq, Eq, Debug)]
pub struct FlatSetUp {
    pub host: FlatHost,
    pub outcome: FlatOutcome,
}

/// What a call comes to on an interface: the clock; the name that the outcome tells, if it has a
/// new state, else all zero; the outcome; where to send; and whether a name has a new state.
// A flag beside a name, and no Option: the C interface.
#[repr(C)]
#[derive(Clone, Copy, PartialEq, Eq, Debug)]
pub struct FlatStep {
    pub clock: u64,
    pub name: FlatName,
    pub outcome: FlatOutcome,
    pub to: Endpoint,
    pub changed: bool,
}

impl From<FlatName> for NameState {
    ghost from_gives = { λ flat state. state ≡ state_of flat };

    fn from(flat: FlatName) -> NameState {
        let FlatName {
            state,
            sends,
            id,
            qtype,
            qclass,
            due,
        } = flat;
        let timer = Timer { due };
        match state {
            FlatName::VERIFYING => NameState::Verifying { sends, id, timer },
            FlatName::UNIQUE => NameState::Unique,
            FlatName::DEFENDING => NameState::Defending {
                id,
                qtype,
                qclass,
                timer,
            },
            FlatName::STOPPED => NameState::Stopped { until: due },
            FlatName::SHARED => NameState::Shared,
            _ => NameState::Off,
        }
    }
}

impl From<NameState> for FlatName {
    ghost from_gives = { λ state flat. flat ≡ flat_state state };

    fn from(state: NameState) -> FlatName {
        let bare = FlatName::default();
        match state {
            NameState::Off => FlatName {
                state: FlatName::OFF,
                ..bare
            },
            NameState::Verifying { sends, id, timer } => FlatName {
                state: FlatName::VERIFYING,
                sends,
                id,
                due: timer.due,
                ..bare
            },
            NameState::Unique => FlatName {
                state: FlatName::UNIQUE,
                ..bare
            },
            NameState::Defending {
                id,
                qtype,
                qclass,
                timer,
            } => FlatName {
                state: FlatName::DEFENDING,
                id,
                qtype,
                qclass,
                due: timer.due,
                ..bare
            },
            NameState::Stopped { until } => FlatName {
                state: FlatName::STOPPED,
                due: until,
                ..bare
            },
            NameState::Shared => FlatName {
                state: FlatName::SHARED,
                ..bare
            },
        }
    }
}

impl From<Interface> for FlatNames {
    ghost from_gives = { λ interface flat. flat ≡ flat_names interface };

    fn from(interface: Interface) -> FlatNames {
        let names = interface.names.map(FlatName::from);
        FlatNames { names }
    }
}

impl From<Host> for FlatHost {
    ghost from_gives = { λ host flat. flat ≡ flat_host host };

    fn from(host: Host) -> FlatHost {
        // One by one: a call takes up to 2 KiB of stack, says include/llmnr.h, and `map` takes 3.
        let [a, b, c, d] = host.interfaces;
        let settings = [a.setting, b.setting, c.setting, d.setting];
        let interfaces = [a.into(), b.into(), c.into(), d.into()];
        FlatHost {
            settings: FlatSettings {
                interfaces: settings,
            },
            interfaces,
            clock: host.clock,
        }
    }
}

impl From<Result<Host, Refusal>> for FlatSetUp {
    ghost from_gives = { λ came flat. flat ≡ host_set_up (set_up_after came) };

    fn from(came: Result<Host, Refusal>) -> FlatSetUp {
        match came {
            Ok(host) => FlatSetUp {
                host: FlatHost::from(host),
                outcome: FlatOutcome {
                    what: FlatOutcome::READY,
                    ..FlatOutcome::default()
                },
            },
            Err(refusal) => FlatSetUp {
                host: FlatHost::from(Host::zero()),
                outcome: FlatOutcome::from(refusal),
            },
        }
    }
}

impl Waits for FlatName {
    ghost state = { λ flat. state_of flat };

    fn state(&self) -> NameState {
        NameState::from(*self)
    }

    // Of the numbers themselves: no state is made of a name that is not due.
    fn is_due(&self, time: u64) -> bool {
        matches!(self.state, FlatName::VERIFYING | FlatName::DEFENDING) && self.due <= time
    }
}

// Where the octets that were written go; nowhere where none were.
// That of flat_lookup takes another enum: a trait for the two would be no plainer.
fn destination(outcome: Outcome) -> Endpoint
    ensures { result ≡ to_of outcome }
{
    match outcome {
        Outcome::Query { to, .. } | Outcome::Reply { to, .. } => to,
        _ => host::nowhere(),
    }
}

impl FlatStep {
    // What a call at a time comes to, of a host whose clock stands at another.
    pub(crate) fn of_call(clock: u64, time: u64, came: Result<Served, Refusal>) -> FlatStep
        ensures { result ≡ flat_served clock time came }
    {
        match came {
            Ok(Served { outcome, change }) => FlatStep {
                clock: time,
                name: match change {
                    Some(named) => FlatName::from(named.state),
                    None => FlatName::default(),
                },
                outcome: FlatOutcome::from(outcome),
                to: destination(outcome),
                changed: change.is_some(),
            },
            Err(refusal) => FlatStep {
                clock,
                name: FlatName::default(),
                outcome: FlatOutcome::from(refusal),
                to: host::nowhere(),
                changed: false,
            },
        }
    }
}
