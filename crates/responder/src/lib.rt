// The calls of a host: set-up, start, receive and tick. They change the host where it stands. What
// each gives is defined in the crate host.
#![tactic(auto)]

ghost use Rattle.std.specs.Prelude.{◌≡◌, List, ℕ, OnErr, Ok};
ghost use Rattle.host.specs.Outcomes.{done_after};
ghost use Rattle.host.specs.SetUp.{set_up, set_up_after};
ghost use Rattle.host.specs.Start.{start as start_of};
ghost use Rattle.host.specs.Receive.{receive as receive_of};
ghost use Rattle.host.specs.Tick.{tick as tick_of};
ghost use Rattle.responder.specs.Served.{served_by, IsWithin, site_on};

mod contest;
pub mod heard;
mod opening;
mod reply;
pub mod served;
mod settings;
mod stopping;
pub mod turn;

use heard::Call;
use host::{Arrival, Host, Interface, Moment, Outcome};
use name_table::Table;
use octets::Setting;
use refusal::Refusal;
use served::{Served, Site};

/// Sets a host up: every name is Off on every interface. It is lent no buffer, and no earlier time
/// counts.
///
/// # Errors
///
/// `Table`, `Clock` or `Settings`, in this order.
pub fn set_up(
    table: &[u8],
    settings: [Setting; Setting::COUNT],
    moment: Moment,
) -> Result<Host, Refusal>
    ensures { set_up_after result ≡ set_up table.now settings moment.time moment.id }
{
    Table::read(table)?;
    if Host::LATEST < moment.time {
        return Err(Refusal::Clock);
    }
    if settings::any_bad(&settings) {
        return Err(Refusal::Settings);
    }
    Ok(Host::fresh(settings, moment.time))
}

// What a call on an interface looks at of a host, beside names.
// That of llmnr_c is given parts of a host: one for both is no plainer.
fn site(host: &Host, interface: usize) -> Site
    ensures { result ≡ site_on host.now interface }
{
    Site {
        interface,
        setting: host.interfaces[checks::slot(interface)].setting,
        clock: host.clock,
    }
}

// The host takes what an accepted call on an interface has come to.
fn take(host: &mut Host, interface: usize, served: Served, time: u64) -> Outcome
    requires within { IsWithin (Ok served) interface }
    ensures { (out : List ℕ)
        → done_after host.new (Ok result) out
        ≡ served_by (Ok served) out host.old interface time }
{
    if let Some(change) = served.change {
        host.interfaces[interface].names[change.name] = change.state;
    }
    host.clock = time;
    served.outcome
}

/// Starts a name of the table on an interface, both by their numbers: a shared one is Shared at
/// once, of a unique one the check begins.
///
/// # Errors
///
/// `Room`, `Table`, `Interface`, `Clock`, `NotOurs`, `Busy` or `TooSoon`, in this order; the host
/// and the buffer stay as they are.
// Table, interface, moment and buffer come new with each call: a struct of them is no plainer.
pub fn start(
    host: &mut Host,
    table: &[u8],
    interface: usize,
    name: usize,
    moment: Moment,
    out: &mut [u8],
) -> Result<Outcome, Refusal>
    ensures done { done_after host.new result out.new
        ≡ start_of host.old table.now interface name moment.time moment.id out.old }
    ensures refused { OnErr result (host.new ≡ host.old) }
    ensures unwritten { OnErr result (out.new ≡ out.old) }
{
    let site = site(host, interface);
    let state = turn::state_at(&host.interfaces[checks::slot(interface)].names, name);
    let served = served::start(site, state, table, name, moment, out)?;
    Ok(take(host, interface, served, moment.time))
}

/// Takes a datagram that came to an interface: it is answered, or settles who has the name.
///
/// # Errors
///
/// The refusals 1 to 16, in the order of the rules; the host and the buffer stay as they are.
pub fn receive(
    host: &mut Host,
    table: &[u8],
    interface: usize,
    arrival: Arrival,
    moment: Moment,
    out: &mut [u8],
) -> Result<Outcome, Refusal>
    ensures done { done_after host.new result out.new
        ≡ receive_of host.old
        (record {
          table = table.now;
          interface = interface;
          from = arrival.entry.from;
          to = arrival.entry.to;
          datagram = arrival.entry.datagram.now;
          time = moment.time;
          id = moment.id;
          out = out.old;
        }) }
    ensures refused { OnErr result (host.new ≡ host.old) }
    ensures unwritten { OnErr result (out.new ≡ out.old) }
{
    let site = site(host, interface);
    let call = Call {
        table,
        arrival,
        moment,
    };
    let heard = heard::hear(out.len(), site, call)?;
    let state = turn::state_at(&host.interfaces[checks::slot(interface)].names, heard.name);
    let settings = Interface::settings(&host.interfaces);
    let served = heard::answer(Ok(heard), state, &settings, site, call, out)?;
    Ok(take(host, interface, served, moment.time))
}

/// Serves the lowest-numbered name of the table that is due on an interface. The ID is not used: a
/// repeat carries the first one.
///
/// # Errors
///
/// `Room`, `Table`, `Interface` or `Clock`, in this order; the host and the buffer stay as they
/// are.
pub fn tick(
    host: &mut Host,
    table: &[u8],
    interface: usize,
    moment: Moment,
    out: &mut [u8],
) -> Result<Outcome, Refusal>
    ensures done { done_after host.new result out.new
        ≡ tick_of host.old table.now interface moment.time moment.id out.old }
    ensures refused { OnErr result (host.new ≡ host.old) }
    ensures unwritten { OnErr result (out.new ≡ out.old) }
{
    let site = site(host, interface);
    let due = turn::find_due(&host.interfaces[checks::slot(interface)].names, moment.time);
    let served = served::tick(site, due, table, moment, out)?;
    Ok(take(host, interface, served, moment.time))
}
