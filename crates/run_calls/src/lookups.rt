// The lookups of a run: one in each slot, and the settings that the next one is started with.
ghost use Rattle.std.specs.Prelude.{◌≡◌, ◌++◌, string_bytes, OnOk};
ghost use Rattle.std.specs.List.{concat};
ghost use Rattle.lookup.specs.Outcomes.{done_after};
ghost use Rattle.run_calls.specs.Lookups.{fresh_lookups, call_of, served, after_call, done_line};
ghost use Rattle.run_calls.specs.Lookups.{taken, taken_line};
ghost use Rattle.run_calls.specs.Entries.{slot_of};

use crate::entry::{Entry, Kind, Prefix};
use crate::{entry, line};
use host::{Host, Interface};
use lookup::{Lookup, Outcome};
use octets::Setting;
use refusal::Refusal;
use std::alloc::AllocError;

/// The settings, and the lookup of each slot.
#[derive(Clone, Copy)]
pub struct Lookups {
    pub settings: [Setting; Setting::COUNT],
    pub slots: [Lookup; Entry::SLOTS],
}

// Makes the call of an entry, with a lookup that starts with some settings.
// A match, and no table of functions: each call takes other arguments, so a table is no plainer.
fn call(
    kind: Kind,
    settings: [Setting; Setting::COUNT],
    lookup: &mut Lookup,
    body: &[u8],
    out: &mut [u8],
) -> Result<Outcome, Refusal>
    ensures { done_after lookup.new result out.new
        ≡ call_of kind settings lookup.old body.now out.old }
{
    let prefix = Prefix::read(body);
    let moment = prefix.moment();
    match kind {
        Kind::Ask => {
            let interface = usize::from(prefix.interface);
            match querier::start(settings, interface, entry::asked(body), moment, out) {
                Ok(first) => {
                    *lookup = first.lookup;
                    Ok(Outcome::Query {
                        len: first.len,
                        to: first.to,
                    })
                }
                Err(refusal) => {
                    *lookup = Lookup::ended();
                    Err(refusal)
                }
            }
        }
        Kind::Answer => {
            querier::receive(lookup, entry::arrival(entry::after_slot(body)), moment, out)
        }
        _ => querier::tick(lookup, moment, out),
    }
}

impl Lookups {
    /// Before the first entry: each slot has what a refused start gives, and the settings are the
    /// host's.
    pub fn fresh(host: &Host) -> Self
        ensures { result ≡ fresh_lookups host.now }
    {
        Lookups {
            settings: Interface::settings(&host.interfaces),
            slots: [Lookup::ended(); Entry::SLOTS],
        }
    }

    // Makes the call of an entry in a buffer of the room that it asks for, and puts its line.
    // As that of State, with a lookup for the host: a trait over the two is no plainer.
    fn serve(
        &mut self,
        kind: Kind,
        body: &[u8],
        n: usize,
        text: &mut String,
    ) -> Result<(), AllocError>
        ensures lookups_after { let d = served kind self.old body.now Entry.ROOM in
            OnOk result (self.new ≡ after_call self.old (slot_of body.now) d) }
        ensures text_after { let d = served kind self.old body.now Entry.ROOM in
            OnOk result (string_bytes text.new ≡ string_bytes text.old
            ++ concat (done_line n kind body.now d)) }
    {
        let prefix = Prefix::read(body);
        let mut out = vec![in *text.allocator(); 0xA5; prefix.room()]?;
        let slot = entry::slot(body);
        let called = call(kind, self.settings, &mut self.slots[slot], body, &mut out);
        line::put_lookup(text, n, kind, prefix, called, &out)
    }

    /// Takes an entry about lookups: the settings of the next ones, or a call.
    pub fn take(
        &mut self,
        kind: Kind,
        body: &[u8],
        n: usize,
        text: &mut String,
    ) -> Result<(), AllocError>
        ensures lookups_after { OnOk result (self.new ≡ taken kind self.old body.now Entry.ROOM) }
        ensures text_after { OnOk result (string_bytes text.new ≡ string_bytes text.old
            ++ concat (taken_line n kind self.old body.now Entry.ROOM)) }
    {
        match kind {
            Kind::Settings => {
                self.settings = entry::settings(body);
                line::put_settings(text, n)
            }
            _ => self.serve(kind, body, n, text),
        }
    }
}
