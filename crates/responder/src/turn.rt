// What a start or a tick makes of a name.
ghost use Rattle.std.specs.Prelude.{◌≡◌, ◌<◌, ◌≤◌, length, position, IfSome, get_or, map};
ghost use Rattle.host.specs.Bounds.{latest};
ghost use Rattle.host.specs.State.{timer_from, off_name};
ghost use Rattle.host.specs.Tick.{is_due as is_state_due};
ghost use Rattle.host.specs.declared.NameState.{NameState};
ghost use Rattle.responder.specs.Turn.{checked, first, again};
ghost use Rattle.responder.specs.Served.{due_found};

use crate::served::NamedState;
use host::{Interface, NameState, Timer};
use name_table::Kind;
use octets::Setting;
use refusal::Refusal;

// A timer that is started at a time. It stands in querier too: shared, it would be a public function
// with a `requires`, and no public function has one.
pub(crate) fn timer(setting: Setting, time: u64) -> Timer
    requires { time ≤ latest }
    ensures { result ≡ timer_from setting time }
{
    Timer {
        due: time + Timer::interval(setting),
    }
}

// The state of a name that is started: a shared one is Shared at once, of a unique one the check
// begins.
pub(crate) fn first_state(kind: Kind, id: u16, timer: Timer) -> NameState
    ensures { result ≡ first kind id timer }
{
    match kind {
        Kind::Shared => NameState::Shared,
        _ => NameState::Verifying {
            sends: 1,
            id,
            timer,
        },
    }
}

// The state of a name that was due: its query goes out again with its first ID, or it is Unique.
pub(crate) fn next_state(state: NameState, timer: Timer) -> NameState
    ensures { result ≡ again state timer }
{
    match state {
        NameState::Verifying { sends, id, .. } if sends < Timer::SENDS => NameState::Verifying {
            sends: sends + 1,
            id,
            timer,
        },
        _ => NameState::Unique,
    }
}

// Whether a name may be started at a time: it is Off, or has stopped until then at the latest.
pub(crate) fn check_start(state: NameState, time: u64) -> Result<(), Refusal>
    ensures { result ≡ checked state time }
{
    match state {
        NameState::Off => Ok(()),
        NameState::Stopped { until } if time < until => Err(Refusal::TooSoon),
        NameState::Stopped { .. } => Ok(()),
        _ => Err(Refusal::Busy),
    }
}

/// What may wait for a time: the state of a name, in the form that it is held in.
pub trait Waits {
    ghost state: { Self → NameState };

    /// The state that it stands for.
    fn state(&self) -> NameState
        ensures { result ≡ state self.now };

    /// Whether its timer has run out.
    fn is_due(&self, time: u64) -> bool
        ensures { result ≡ is_state_due (state self.now) time };
}

impl Waits for NameState {
    ghost state = { λ state. state };

    fn state(&self) -> NameState {
        *self
    }

    fn is_due(&self, time: u64) -> bool {
        match self {
            NameState::Verifying { timer, .. } | NameState::Defending { timer, .. } => {
                timer.due <= time
            }
            _ => false,
        }
    }
}

/// The state of the name with a number; Off where there is none.
pub fn state_at<T: Waits>(names: &[T], name: usize) -> NameState
    ensures { result ≡ get_or (map T.state names.now) name off_name }
{
    match names.get(name) {
        Some(held) => held.state(),
        None => NameState::Off,
    }
}

/// The number of the first that is due.
pub fn first_due<T: Waits>(waiting: &[T], time: u64) -> Option<usize>
    ensures first { result ≡ position (λ one. is_state_due (T.state one) time) waiting.now }
    ensures in_range { IfSome result (λ k. k < length waiting.now) }
{
    waiting.iter().position(|one| one.is_due(time))
}

/// The lowest-numbered of an interface's names that is due, and its state.
pub fn find_due<T: Waits>(names: &[T; Interface::NAMES], time: u64) -> Option<NamedState>
    ensures { result ≡ due_found (map T.state names.now) time }
{
    let name = first_due(names, time)?;
    Some(NamedState {
        name,
        state: names[name].state(),
    })
}
