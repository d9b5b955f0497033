// What a run keeps from entry to entry: the table that is lent to each call, a host, and lookups.
ghost use Rattle.std.specs.Prelude.{◌≡◌, ◌++◌, [], string_bytes, OnOk};
ghost use Rattle.std.specs.List.{concat};
ghost use Rattle.host.specs.Outcomes.{done_after};
ghost use Rattle.host.specs.SetUp.{zero_host};
ghost use Rattle.run_calls.specs.Calls.{lent_call, set_up_of, host_line, host_after};
ghost use Rattle.run_calls.specs.Calls.{lookups_after, entry_line};
ghost use Rattle.run_calls.specs.Entries.{lent_by};
ghost use Rattle.run_calls.specs.Lookups.{fresh_lookups, lent_room, with_settings};
ghost use Rattle.host.specs.State.{four_settings};

use crate::entry::{Entry, Kind, Prefix};
use crate::lookups::Lookups;
use crate::{entry, line};
use host::{Host, Interface, Outcome};
use refusal::Refusal;
use std::alloc::AllocError;

/// The table, the host and the lookups.
#[derive(Drop)]
pub struct State<'a> {
    pub table: &'a [u8],
    pub host: Host,
    pub lookups: Lookups,
}

// Makes the call of an entry that is lent a buffer.
// A match, and no table of functions: each call takes other arguments, so a table is no plainer.
fn call(
    kind: Kind,
    host: &mut Host,
    table: &[u8],
    body: &[u8],
    out: &mut [u8],
) -> Result<Outcome, Refusal>
    ensures { done_after host.new result out.new
        ≡ lent_call kind host.old table.now body.now out.old }
{
    let prefix = Prefix::read(body);
    let interface = usize::from(prefix.interface);
    let moment = prefix.moment();
    match kind {
        Kind::Start => {
            let name = entry::started_name(body);
            responder::start(host, table, interface, name, moment, out)
        }
        Kind::Datagram => {
            let arrival = entry::arrival(entry::after_prefix(body));
            responder::receive(host, table, interface, arrival, moment, out)
        }
        _ => responder::tick(host, table, interface, moment, out),
    }
}

impl<'a> State<'a> {
    /// Before the first entry: an empty table, a host that was not set up, and lookups that have
    /// ended.
    pub fn fresh() -> Self
        ensures table { result.table.now ≡ [] }
        ensures host { result.host ≡ zero_host }
        ensures lookups { result.lookups ≡ fresh_lookups zero_host }
    {
        let host = Host::zero();
        State {
            table: &[],
            lookups: Lookups::fresh(&host),
            host,
        }
    }

    // Sets the host up, which takes the settings of the next lookups back to the host's, and puts
    // its line.
    fn set_up(&mut self, body: &[u8], n: usize, text: &mut String) -> Result<(), AllocError>
        ensures table { self.new.table ≡ self.old.table }
        ensures host { OnOk result (self.new.host ≡ (set_up_of self.old.table.now body.now).host) }
        ensures lookups { OnOk result (self.new.lookups
            ≡ with_settings self.old.lookups (four_settings self.new.host.interfaces)) }
        ensures text { OnOk result (string_bytes text.new ≡ string_bytes text.old
            ++ concat (host_line n Kind.SetUp body.now (set_up_of self.old.table.now body.now))) }
    {
        let prefix = Prefix::read(body);
        let settings = entry::settings(entry::after_prefix(body));
        let set_up = responder::set_up(self.table, settings, prefix.moment());
        line::put_set_up(text, n, prefix, &set_up)?;
        self.host = set_up.unwrap_or(Host::zero());
        self.lookups.settings = Interface::settings(&self.host.interfaces);
        Ok(())
    }

    // Makes the call of an entry in a buffer of the room that it asks for, and puts its line.
    // As that of Lookups, with a host for the lookup: a trait over the two is no plainer.
    fn serve(
        &mut self,
        kind: Kind,
        body: &[u8],
        n: usize,
        text: &mut String,
    ) -> Result<(), AllocError>
        ensures table { self.new.table ≡ self.old.table }
        ensures lookups { self.new.lookups ≡ self.old.lookups }
        ensures host { let out = lent_room body.now Entry.ROOM in
            OnOk result (self.new.host
            ≡ (lent_call kind self.old.host self.old.table.now body.now out).host) }
        ensures text { let out = lent_room body.now Entry.ROOM in
            OnOk result (string_bytes text.new ≡ string_bytes text.old
            ++ concat (host_line n kind body.now
            (lent_call kind self.old.host self.old.table.now body.now out))) }
    {
        let prefix = Prefix::read(body);
        let mut out = vec![in *text.allocator(); 0xA5; prefix.room()]?;
        let called = call(kind, &mut self.host, self.table, body, &mut out);
        line::put_call(text, n, kind, prefix, called, &out)
    }

    /// Takes an entry: makes its call, if it is one of a call, and puts its line.
    pub fn take(
        &mut self,
        kind: Kind,
        body: &'a [u8],
        n: usize,
        text: &mut String,
    ) -> Result<(), AllocError>
        ensures table { self.new.table.now ≡ lent_by kind self.old.table.now body.now }
        ensures host { OnOk result (self.new.host
            ≡ host_after kind self.old.host self.old.table.now body.now Entry.ROOM) }
        ensures lookups { OnOk result (self.new.lookups
            ≡ lookups_after kind self.old.lookups self.new.host body.now Entry.ROOM) }
        ensures text { OnOk result (string_bytes text.new ≡ string_bytes text.old
            ++ concat (entry_line n kind self.old.host self.old.lookups self.old.table.now
            body.now Entry.ROOM)) }
    {
        match kind {
            Kind::Table => {
                self.table = body;
                line::put_table(text, n, body)
            }
            Kind::Name => line::put_name(text, n, body),
            Kind::SetUp => self.set_up(body, n, text),
            Kind::Start | Kind::Datagram | Kind::Tick => self.serve(kind, body, n, text),
            Kind::Settings | Kind::Ask | Kind::Answer | Kind::AskTick => {
                self.lookups.take(kind, body, n, text)
            }
        }
    }
}
