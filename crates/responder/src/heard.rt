// A receive in terms of one name, in two steps: what is heard before any name's state is looked at,
// and then what is made of it. So the host may be held in any form.
ghost use Rattle.std.specs.Prelude.{◌≡◌, ℕ, Ok, OnErr, List, length};
ghost use Rattle.octets.specs.declared.Address.{Address};
ghost use Rattle.octets.specs.Addresses.{is_ours};
ghost use Rattle.host.specs.State.{is_own, state_of};
ghost use Rattle.host.specs.Receive.{receive as receive_of};
ghost use Rattle.host.specs.declared.Host.{Host};
ghost use Rattle.checks.specs.Messages.{slot_of};
ghost use Rattle.name_table.specs.Check.{no_name};
ghost use Rattle.name_table.specs.Shown.{names_of};
ghost use Rattle.std.specs.Prelude.{slice_index_or};
ghost use Rattle.responder.specs.Served.{Sees, served_by, IsWithin};
ghost use Rattle.responder.specs.Heard.{arrival_of, heard_by, hearing};

use crate::contest::Judged;
use crate::served::{Served, Site};
use crate::{contest, opening, reply, turn};
use checks::Datagram;
use host::{Arrival, Moment, NameState, Outcome, Timer};
use message::{Header, Question};
use name_table::Table;
use octets::Setting;
use refusal::Refusal;

/// A datagram that came, the table that it is answered from, and when the call is made.
#[derive(Clone, Copy, PartialEq, Eq, Debug)]
pub struct Call<'a> {
    pub table: &'a [u8],
    pub arrival: Arrival<'a>,
    pub moment: Moment,
}

/// The number of the name that a datagram is for, where its records begin in the table, a timer
/// that is started now, the header and the question.
// An offset into the table: `answers_in` of message, which may not change, takes it.
#[derive(Clone, Copy, PartialEq, Eq, Debug)]
pub struct Heard {
    pub name: usize,
    pub records: usize,
    pub timer: Timer,
    pub header: Header,
    pub question: Question,
}

// Where the records of the name with a number begin; 0 if the table has no such name.
// A 0 and no Option: the name was found just before, and `no_name` of name_table's specs/Check
// says 0.
fn records_of(names: &Table, name: usize) -> usize
    ensures { (table : List ℕ)
        → result ≡ (slice_index_or (names_of table names.now) name no_name).end }
{
    match names.name(name) {
        Some(named) => named.end,
        None => 0,
    }
}

/// What is heard of a datagram, with a buffer of so many octets. The names of the host are not
/// looked at, and the buffer is not lent: nothing is written before the name is known.
///
/// # Errors
///
/// The refusals 1 to 11, in the order of the rules; for a name that the table does not have,
/// `NotOurs` to a query and `Unmatched` to a response.
pub fn hear(room: usize, site: Site, call: Call) -> Result<Heard, Refusal>
    ensures { (h : Host) (id : ℕ) (out : List ℕ)
        → Sees h site.interface site.setting site.clock
        → length out ≡ room
        → heard_by result
        ≡ hearing h (record (arrival_of call.entry site.interface out) { id = id }) }
{
    let names = opening::open(room, site, call.table, call.moment.time)?;
    // Queries and responses.
    let Datagram { header, question } = checks::read(false, site.setting.family, call.arrival)?;
    let asked = octets::part(
        call.arrival.datagram,
        Header::OCTETS,
        Header::OCTETS + question.name,
    );
    let Some(name) = names.find(call.table, asked) else {
        return Err(contest::unknown(header.response));
    };
    Ok(Heard {
        name,
        records: records_of(&names, name),
        timer: turn::timer(site.setting, call.moment.time),
        header,
        question,
    })
}

/// What is made of what was heard, with the state of the name here and the settings of all
/// interfaces: the datagram is answered, or settles who has the name. Of a datagram that was
/// refused the state is not looked at.
///
/// # Errors
///
/// The refusal that was heard; else `NotOurs`, `Stopped` or `Notification` to a query, `Unmatched`
/// or `Own` to a response. The buffer stays as it is.
pub fn answer(
    heard: Result<Heard, Refusal>,
    state: NameState,
    settings: &[Setting; Setting::COUNT],
    site: Site,
    call: Call,
    out: &mut [u8],
) -> Result<Served, Refusal>
    ensures gives { (h : Host) (to : Address)
        → let a = record (arrival_of call.entry site.interface out.old) { to = to } in
        Sees h site.interface site.setting site.clock
        → is_ours settings.now call.entry.arrival.from.address
        ≡ is_own h call.entry.arrival.from.address
        → heard_by heard ≡ hearing h a
        → ((r : Heard) → heard ≡ Ok r → state_of h (slot_of site.interface) r.name ≡ state)
        → served_by result out.new h site.interface call.entry.moment.time ≡ receive_of h a }
    ensures within { (h : Host) (to : Address)
        → let a = record (arrival_of call.entry site.interface out.old) { to = to } in
        heard_by heard ≡ hearing h a → IsWithin result site.interface }
    ensures unwritten { OnErr result (out.new ≡ out.old) }
{
    let heard = heard?;
    let source = call.arrival.from.address;
    match contest::judge(state, heard, settings, source)? {
        Judged::Answer => Ok(Served {
            outcome: Outcome::Reply {
                len: reply::write(heard, state, site.interface, call, out),
                to: call.arrival.from,
            },
            change: None,
        }),
        Judged::Contest => {
            let ending = contest::settle(state, heard.header, source, site.setting);
            Ok(contest::end(ending, heard, site, call, out))
        }
    }
}
