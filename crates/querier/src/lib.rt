// The calls of a lookup: start, also in place, receive and tick. What each gives is defined in the crate lookup.
#![tactic(auto)]

ghost use Rattle.std.specs.Prelude.{◌≡◌, ◌≤◌, OnErr};
ghost use Rattle.host.specs.Bounds.{latest};
ghost use Rattle.host.specs.State.{timer_from};
ghost use Rattle.lookup.specs.Outcomes.{done_after, started_after};
ghost use Rattle.lookup.specs.Start.{start as start_of};
ghost use Rattle.lookup.specs.Receive.{receive as receive_of};
ghost use Rattle.lookup.specs.Tick.{tick as tick_of};
ghost use Rattle.querier.specs.Steps.{used_setting, opening, begun_after};

mod matching;
mod question;
mod several;

use host::{Arrival, Host, Moment, Timer};
use lookup::{Asked, FirstQuery, Lookup, Outcome, Phase};
use names::Name;
use octets::{Endpoint, Setting};
use refusal::Refusal;

/// How many octets of the buffer a query has, and where it is to be sent.
#[derive(Clone, Copy, PartialEq, Eq, Debug)]
pub struct Sent {
    pub len: usize,
    pub to: Endpoint,
}

// The settings of an interface; none where there is no such interface, or it is unused.
fn used_setting(settings: &[Setting; Setting::COUNT], interface: usize) -> Option<Setting>
    ensures { result ≡ used_setting settings.now interface }
{
    match settings.get(interface) {
        Some(setting) if octets::is_family(setting.family) => Some(*setting),
        _ => None,
    }
}

// The first two checks of start and receive, for a buffer of so many octets: the settings of the
// interface.
fn open(
    size: usize,
    settings: &[Setting; Setting::COUNT],
    interface: usize,
) -> Result<Setting, Refusal>
    ensures { result ≡ opening size settings.now interface }
{
    if size < Host::ROOM {
        return Err(Refusal::Room);
    }
    used_setting(settings, interface).ok_or(Refusal::Interface)
}

// A timer that is started at a time. It stands in responder too: shared, it would be a public
// function with a `requires`, and no public function has one.
fn timer_from(setting: Setting, time: u64) -> Timer
    requires { time ≤ latest }
    ensures { result ≡ timer_from setting time }
{
    Timer {
        due: time + Timer::interval(setting),
    }
}

/// Starts a lookup in place, on an interface of a host with these settings: its query goes out for
/// the first time. Nothing of the lookup that stood there before is left.
///
/// # Errors
///
/// `Room`, `Interface`, `Clock`, `Question` or `SeveralLabels`, in this order; the lookup and the
/// buffer stay as they are.
#[tactic(auto, unfolding(lookup::specs::Start::start, refusal::specs::Checks::verdict))]
pub fn begin(
    lookup: &mut Lookup,
    settings: &[Setting; Setting::COUNT],
    interface: usize,
    asked: Asked,
    moment: Moment,
    out: &mut [u8],
) -> Result<Sent, Refusal>
    ensures done { begun_after lookup.new result out.new ≡ start_of settings.now interface
        asked.entry.name.now asked.entry.qtype asked.entry.permission moment.time moment.id out.old }
    ensures refused { OnErr result (lookup.new ≡ lookup.old) }
    ensures unwritten { OnErr result (out.new ≡ out.old) }
{
    let setting = open(out.len(), settings, interface)?;
    if Host::LATEST < moment.time {
        return Err(Refusal::Clock);
    }
    question::check(asked)?;
    lookup.settings = *settings;
    lookup.interface = interface;
    lookup.name = [0; Name::LONGEST];
    octets::put_octets(&mut lookup.name, 0, asked.name);
    lookup.len = asked.name.len();
    lookup.qtype = asked.qtype;
    lookup.id = moment.id;
    lookup.clock = moment.time;
    lookup.phase = Phase::Asking {
        sends: 1,
        timer: timer_from(setting, moment.time),
    };
    let len = question::write(out, moment.id, asked.name, asked.qtype);
    Ok(Sent {
        len,
        to: octets::group_endpoint(setting.family),
    })
}

/// Starts a lookup on an interface of a host with these settings: its query goes out for the first
/// time.
///
/// # Errors
///
/// `Room`, `Interface`, `Clock`, `Question` or `SeveralLabels`, in this order; the buffer stays as
/// it is.
pub fn start(
    settings: [Setting; Setting::COUNT],
    interface: usize,
    asked: Asked,
    moment: Moment,
    out: &mut [u8],
) -> Result<FirstQuery, Refusal>
    ensures done { started_after result out.new ≡ start_of settings interface asked.entry.name.now
        asked.entry.qtype asked.entry.permission moment.time moment.id out.old }
    ensures unwritten { OnErr result (out.new ≡ out.old) }
{
    let mut lookup = Lookup::ended();
    let Sent { len, to } = begin(&mut lookup, &settings, interface, asked, moment, out)?;
    Ok(FirstQuery { lookup, len, to })
}

/// Takes a datagram: the response that the lookup waits for.
///
/// # Errors
///
/// `Room`, `Interface`, `Clock`, `Length`; for a query `Unmatched`; then `Address`, `Opcode`,
/// `Rcode`, `Counts`, `Question`, `Unmatched`, `Own`, `Tentative` or `Records`, in this order. The
/// lookup and the buffer stay as they are.
#[tactic(auto, unfolding(lookup::specs::Receive::receive, refusal::specs::Checks::verdict))]
pub fn receive(
    lookup: &mut Lookup,
    arrival: Arrival,
    moment: Moment,
    out: &mut [u8],
) -> Result<Outcome, Refusal>
    ensures done { done_after lookup.new result out.new ≡ receive_of lookup.old (record {
      from = arrival.entry.from;
      to = arrival.entry.to;
      datagram = arrival.entry.datagram.now;
      time = moment.time;
      id = moment.id;
      out = out.old;
    }) }
    ensures refused { OnErr result (lookup.new ≡ lookup.old) }
    ensures unwritten { OnErr result (out.new ≡ out.old) }
{
    let setting = open(out.len(), &lookup.settings, lookup.interface)?;
    if checks::bad_clock(lookup.clock, moment.time) {
        return Err(Refusal::Clock);
    }
    // Responses alone.
    let response = checks::read(true, setting.family, arrival)?;
    matching::check(lookup, &arrival, &response)?;
    let at = response.question.end;
    let answers = response.header.answers;
    lookup.clock = moment.time;
    if !response.header.conflict {
        lookup.phase = Phase::Ended;
        return Ok(Outcome::Found { at, answers });
    }
    if let Phase::Asking { timer, .. } = lookup.phase {
        lookup.phase = Phase::Collecting { timer };
    }
    Ok(Outcome::Part { at, answers })
}

/// Serves a lookup that is due: its query goes out again, or it ends. The moment's ID is not used:
/// a repeat carries the first one.
///
/// # Errors
///
/// `Room` or `Clock`, in this order; the lookup and the buffer stay as they are.
#[tactic(auto, unfolding(lookup::specs::Tick::tick, refusal::specs::Checks::verdict))]
pub fn tick(lookup: &mut Lookup, moment: Moment, out: &mut [u8]) -> Result<Outcome, Refusal>
    ensures done { done_after lookup.new result out.new ≡ tick_of lookup.old moment.time moment.id
        out.old }
    ensures refused { OnErr result (lookup.new ≡ lookup.old) }
    ensures unwritten { OnErr result (out.new ≡ out.old) }
{
    if out.len() < Host::ROOM {
        return Err(Refusal::Room);
    }
    let time = moment.time;
    if checks::bad_clock(lookup.clock, time) {
        return Err(Refusal::Clock);
    }
    lookup.clock = time;
    let Some(setting) = used_setting(&lookup.settings, lookup.interface) else {
        return Ok(Outcome::Quiet);
    };
    match lookup.phase {
        Phase::Asking { sends, timer } if timer.due <= time && sends < Timer::SENDS => {
            lookup.phase = Phase::Asking {
                sends: sends + 1,
                timer: timer_from(setting, time),
            };
            let len = question::write(out, lookup.id, question::name(lookup), lookup.qtype);
            Ok(Outcome::Query {
                len,
                to: octets::group_endpoint(setting.family),
            })
        }
        Phase::Asking { timer, .. } if timer.due <= time => {
            lookup.phase = Phase::Ended;
            Ok(Outcome::NoSuchName)
        }
        Phase::Collecting { timer } if timer.due <= time => {
            lookup.phase = Phase::Ended;
            Ok(Outcome::Collected)
        }
        _ => Ok(Outcome::Quiet),
    }
}
