// The calls for C. A state crosses as flat structs, with numbers in the place of enums;
// include/llmnr.h has the same structs. Each call gives what the library's definition gives on the
// state that the flat structs stand for, made flat again.
//
// A call of a host depends on the settings, the clock and the names of its own interface alone, and
// changes at most the clock and one of these names. So it is given these, and gives the clock and
// that name.
#![tactic(auto)]

ghost use Rattle.std.specs.Prelude.{◌≡◌, true, ◌<◌};
ghost use Rattle.octets.specs.Bounds.{interfaces};
ghost use Rattle.name_table.specs.Bounds.{most_names};
ghost use Rattle.host.specs.SetUp.{set_up};
ghost use Rattle.host.specs.Start.{start as start_of};
ghost use Rattle.host.specs.Receive.{receive as receive_of};
ghost use Rattle.host.specs.Tick.{tick as tick_of};
ghost use Rattle.responder.specs.Served.{served_by, IsWithin};
ghost use Rattle.responder.specs.Heard.{arrival_of};
ghost use Rattle.llmnr_c.specs.FlatHost.{seen, site_in, host_set_up, done, step_on};
ghost use Rattle.names.specs.Comparison.{same_record_name};
ghost use Rattle.name_table.specs.Check.{check_table};
ghost use Rattle.message.specs.Records.{record_at};
ghost use Rattle.lookup.specs.Start.{start as lookup_start_of};
ghost use Rattle.lookup.specs.Receive.{receive as lookup_receive_of};
ghost use Rattle.lookup.specs.Tick.{tick as lookup_tick_of};
ghost use Rattle.llmnr_c.specs.FlatLookup.{lookup_of, done as lookup_done, step_of as lookup_step};
ghost use Rattle.llmnr_c.specs.FlatLookup.{started as lookup_started, start_of as lookup_start};
ghost use Rattle.llmnr_c.specs.Reading.{flat_record, flat_table};

mod flat;
mod flat_lookup;
mod outcome;
mod reading;

use flat::{FlatNames, FlatSetUp, FlatSettings, FlatStep};
use flat_lookup::{FlatLookup, FlatLookupStart, FlatLookupStep};
use host::{Arrival, Moment};
use lookup::{Asked, Lookup};
use name_table::Table;
use octets::{Address, Endpoint};
use reading::{FlatRecord, FlatTable};
use refusal::Refusal;
use responder::heard::Call;
use responder::served::{Served, Site};
use responder::{heard, served, turn};

// What a call on an interface looks at of a host, beside names.
// That of the responder is given a host, this one what C lends of it: one for both is no plainer.
fn site(settings: &FlatSettings, clock: u64, interface: usize) -> Site
    ensures { result ≡ site_in settings.now clock interface }
{
    Site {
        interface,
        setting: settings.interfaces[checks::slot(interface)],
        clock,
    }
}

/// Sets a host up.
#[unsafe(no_mangle)]
pub extern "C" fn llmnr_set_up(
    table: &[u8],
    settings: FlatSettings,
    time: u64,
    id: u16,
) -> FlatSetUp
    ensures { result ≡ host_set_up (set_up table.now settings.interfaces time id) }
{
    FlatSetUp::from(responder::set_up(table, settings.interfaces, Moment { time, id }))
}

/// Starts a name on an interface that has these names.
// More than six arguments, as in the calls below: the C interface.
#[unsafe(no_mangle)]
pub extern "C" fn llmnr_start(
    settings: FlatSettings,
    clock: u64,
    names: FlatNames,
    table: &[u8],
    interface: usize,
    name: usize,
    time: u64,
    id: u16,
    out: &mut [u8],
) -> FlatStep
    ensures out_after { done result out.new ≡ step_on interface
        (start_of (seen settings clock names) table.now interface name time id out.old) }
    ensures in_range { result.changed ≡ true
        → (interface < interfaces) × (result.outcome.name < most_names) }
{
    let site = site(&settings, clock, interface);
    let state = turn::state_at(&names.names, name);
    let came = served::start(site, state, table, name, Moment { time, id }, out);
    FlatStep::of_call(clock, time, came)
}

// Hears a datagram on an interface that has these names, and makes of it what a host does.
fn receive(
    settings: &FlatSettings,
    clock: u64,
    names: &FlatNames,
    interface: usize,
    call: Call,
    out: &mut [u8],
) -> Result<Served, Refusal>
    ensures gives { served_by result out.new (seen settings.now clock names.now) interface
        call.entry.moment.time
        ≡ receive_of (seen settings.now clock names.now)
        (arrival_of call.entry interface out.old) }
    ensures within { IsWithin result interface }
{
    let site = site(settings, clock, interface);
    let heard = heard::hear(out.len(), site, call)?;
    let state = turn::state_at(&names.names, heard.name);
    heard::answer(Ok(heard), state, &settings.interfaces, site, call, out)
}

/// Takes a datagram that came from an address and port to an address, on an interface that has
/// these names.
#[unsafe(no_mangle)]
pub extern "C" fn llmnr_receive(
    settings: FlatSettings,
    clock: u64,
    names: FlatNames,
    table: &[u8],
    interface: usize,
    from: Endpoint,
    to: Address,
    datagram: &[u8],
    time: u64,
    id: u16,
    out: &mut [u8],
) -> FlatStep
    ensures out_after { done result out.new ≡ step_on interface
        (receive_of (seen settings clock names) (record {
          table = table.now;
          interface = interface;
          from = from;
          to = to;
          datagram = datagram.now;
          time = time;
          id = id;
          out = out.old;
        })) }
    ensures in_range { result.changed ≡ true
        → (interface < interfaces) × (result.outcome.name < most_names) }
{
    let arrival = Arrival { from, to, datagram };
    let moment = Moment { time, id };
    let call = Call {
        table,
        arrival,
        moment,
    };
    let came = receive(&settings, clock, &names, interface, call, out);
    FlatStep::of_call(clock, time, came)
}

/// Serves the lowest-numbered name that is due on an interface that has these names.
#[unsafe(no_mangle)]
pub extern "C" fn llmnr_tick(
    settings: FlatSettings,
    clock: u64,
    names: FlatNames,
    table: &[u8],
    interface: usize,
    time: u64,
    id: u16,
    out: &mut [u8],
) -> FlatStep
    ensures out_after { done result out.new ≡ step_on interface
        (tick_of (seen settings clock names) table.now interface time id out.old) }
    ensures in_range { result.changed ≡ true
        → (interface < interfaces) × (result.outcome.name < most_names) }
{
    let site = site(&settings, clock, interface);
    let due = turn::find_due(&names.names, time);
    let came = served::tick(site, due, table, Moment { time, id }, out);
    FlatStep::of_call(clock, time, came)
}

/// Starts a lookup of a name. The permission is for names of several labels.
#[unsafe(no_mangle)]
pub extern "C" fn llmnr_lookup_start(
    settings: FlatSettings,
    interface: usize,
    name: &[u8],
    qtype: u16,
    permission: bool,
    time: u64,
    id: u16,
    out: &mut [u8],
) -> FlatLookupStart
    ensures { lookup_started result out.new ≡ lookup_start
        (lookup_start_of settings.interfaces interface name.now qtype permission time id out.old) }
{
    let asked = Asked {
        name,
        qtype,
        permission,
    };
    let moment = Moment { time, id };
    let mut lookup = Lookup::ended();
    let came = querier::begin(
        &mut lookup,
        &settings.interfaces,
        interface,
        asked,
        moment,
        out,
    );
    flat_lookup::start(&lookup, came)
}

/// Takes a datagram that came from an address and port to an address.
#[unsafe(no_mangle)]
pub extern "C" fn llmnr_lookup_receive(
    lookup: FlatLookup,
    from: Endpoint,
    to: Address,
    datagram: &[u8],
    time: u64,
    id: u16,
    out: &mut [u8],
) -> FlatLookupStep
    ensures { lookup_done result out.new ≡ lookup_step
        (lookup_receive_of (lookup_of lookup) (record {
          from = from;
          to = to;
          datagram = datagram.now;
          time = time;
          id = id;
          out = out.old;
        })) }
{
    let mut lookup = Lookup::from(lookup);
    let arrival = Arrival { from, to, datagram };
    let came = querier::receive(&mut lookup, arrival, Moment { time, id }, out);
    flat_lookup::step(&lookup, came)
}

/// Serves a lookup that is due.
#[unsafe(no_mangle)]
pub extern "C" fn llmnr_lookup_tick(
    lookup: FlatLookup,
    time: u64,
    id: u16,
    out: &mut [u8],
) -> FlatLookupStep
    ensures { lookup_done result out.new ≡ lookup_step
        (lookup_tick_of (lookup_of lookup) time id out.old) }
{
    let mut lookup = Lookup::from(lookup);
    let came = querier::tick(&mut lookup, Moment { time, id }, out);
    flat_lookup::step(&lookup, came)
}

/// Reads the record at an offset of a datagram.
#[unsafe(no_mangle)]
pub extern "C" fn llmnr_record(datagram: &[u8], at: usize) -> FlatRecord
    ensures { result ≡ flat_record (record_at datagram.now at) }
{
    FlatRecord::from(message::read_record(datagram, at))
}

/// Checks a name table.
#[tactic(auto, using(crate::proofs::Tables::table_is))]
#[unsafe(no_mangle)]
pub extern "C" fn llmnr_check_table(table: &[u8]) -> FlatTable
    ensures { result ≡ flat_table (check_table table.now) }
{
    FlatTable::from(Table::read(table))
}

/// Whether the names at two offsets are equal, each with or without pointers, in one message or
/// two.
#[unsafe(no_mangle)]
pub extern "C" fn llmnr_same_name(s: &[u8], p: usize, t: &[u8], q: usize) -> bool
    ensures { result ≡ same_record_name s.now p t.now q }
{
    names::same_record_name(s, p, t, q)
}
