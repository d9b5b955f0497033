// A start and a tick in terms of one name: what they look at of the host is given, and what they
// make of it is told. So the host may be held in any form.
ghost use Rattle.std.specs.Prelude.{◌≡◌, OnErr, Ok, Some, None};
ghost use Rattle.host.specs.State.{state_of, interface_of};
ghost use Rattle.host.specs.Start.{start as start_of};
ghost use Rattle.host.specs.Tick.{tick as tick_of};
ghost use Rattle.host.specs.declared.Host.{Host};
ghost use Rattle.checks.specs.Messages.{slot_of};
ghost use Rattle.responder.specs.Turn.{served_as, written_as};
ghost use Rattle.responder.specs.Served.{Sees, due_found, served_by, IsWithin};

use crate::{opening, turn};
use host::{Moment, NameState, Outcome};
use message::ResourceRecord;
use octets::Setting;
use refusal::Refusal;

/// The interface that a call is made on: its number, its settings, and the host's clock, which is
/// the last accepted time in milliseconds.
#[derive(Clone, Copy, PartialEq, Eq, Debug)]
pub struct Site {
    pub interface: usize,
    pub setting: Setting,
    pub clock: u64,
}

/// A name of the table, by its number, and its state on an interface.
#[derive(Clone, Copy, PartialEq, Eq, Debug)]
pub struct NamedState {
    pub name: usize,
    pub state: NameState,
}

/// What an accepted call comes to: its outcome, and the new state of the name that this tells of,
/// if it has one. The clock then stands at the call's time.
#[derive(Clone, Copy, PartialEq, Eq, Debug)]
pub struct Served {
    pub outcome: Outcome,
    pub change: Option<NamedState>,
}

// A name goes over to a state: while that is Verifying its query goes out, else it has come to
// rest.
fn serve(site: Site, next: NameState, name: usize, octets: &[u8], out: &mut [u8]) -> Served
    ensures served { result ≡ served_as next name octets.now site.setting.family }
    ensures written { out.new ≡ written_as next octets.now out.old }
{
    let outcome = match next {
        NameState::Verifying { id, .. } => Outcome::Query {
            name,
            len: message::write_name_query(
                out,
                id,
                0,
                octets,
                ResourceRecord::ANY,
                ResourceRecord::IN,
            ),
            to: octets::group_endpoint(site.setting.family),
        },
        NameState::Shared => Outcome::Shared { name },
        // A start or a tick gives no other state but Unique.
        _ => Outcome::Unique { name },
    };
    Served {
        outcome,
        change: Some(NamedState { name, state: next }),
    }
}

/// A start of a name, by its number and its state.
///
/// # Errors
///
/// `Room`, `Table`, `Interface`, `Clock`, `NotOurs`, `Busy` or `TooSoon`, in this order; the buffer
/// stays as it is.
pub fn start(
    site: Site,
    state: NameState,
    table: &[u8],
    name: usize,
    moment: Moment,
    out: &mut [u8],
) -> Result<Served, Refusal>
    ensures gives { (h : Host) → Sees h site.interface site.setting site.clock
        → state_of h (slot_of site.interface) name ≡ state
        → served_by result out.new h site.interface moment.time
        ≡ start_of h table.now site.interface name moment.time moment.id out.old }
    ensures within { IsWithin result site.interface }
    ensures unwritten { OnErr result (out.new ≡ out.old) }
{
    let names = opening::open(out.len(), site, table, moment.time)?;
    let Some(named) = names.name(name) else {
        return Err(Refusal::NotOurs);
    };
    turn::check_start(state, moment.time)?;
    let timer = turn::timer(site.setting, moment.time);
    let next = turn::first_state(named.kind, moment.id, timer);
    let octets = octets::part(table, named.start, named.end);
    Ok(serve(site, next, name, octets, out))
}

/// A tick, of the first name that is due.
///
/// # Errors
///
/// `Room`, `Table`, `Interface` or `Clock`, in this order; the buffer stays as it is.
pub fn tick(
    site: Site,
    due: Option<NamedState>,
    table: &[u8],
    moment: Moment,
    out: &mut [u8],
) -> Result<Served, Refusal>
    ensures gives { (h : Host) → Sees h site.interface site.setting site.clock
        → due ≡ due_found (interface_of h (slot_of site.interface)).names moment.time
        → served_by result out.new h site.interface moment.time
        ≡ tick_of h table.now site.interface moment.time moment.id out.old }
    ensures within { IsWithin result site.interface }
    ensures unwritten { OnErr result (out.new ≡ out.old) }
{
    let names = opening::open(out.len(), site, table, moment.time)?;
    let quiet = Served {
        outcome: Outcome::Quiet,
        change: None,
    };
    let Some(due) = due else {
        return Ok(quiet);
    };
    // The first that is due of all names is none of the table's: then none of the table's is due.
    let Some(named) = names.name(due.name) else {
        return Ok(quiet);
    };
    let next = turn::next_state(due.state, turn::timer(site.setting, moment.time));
    let octets = octets::part(table, named.start, named.end);
    Ok(serve(site, next, due.name, octets, out))
}
