// The checks that the calls of a host and of a lookup share: the interface, the clock, and what a datagram says. They are defined in the
// crate host.
#![tactic(auto)]

ghost use Rattle.std.specs.Prelude.{◌≡◌, true, ◌<◌};
ghost use Rattle.octets.specs.Bounds.{interfaces};
ghost use Rattle.host.specs.Early.{no_interface, bad_clock};
ghost use Rattle.host.specs.Receive.{bad_address, bad_counts};
ghost use Rattle.checks.specs.Messages.{slot_of, header_in, failed, wrong_class, read_by, message_read, unasked, datagram_by, datagram_read};

use host::{Arrival, Host};
use message::{Header, Question, ResourceRecord};
use octets::{Address, Setting};
use refusal::Refusal;

/// The number of an interface, or 0 where there is none with it: always an index of `Host::interfaces`.
// No Option: `slot_of` of specs/Messages says so, and an unused place is refused by `is_unused`.
pub fn slot(interface: usize) -> usize
    ensures value { result ≡ slot_of interface }
    ensures upper_bound { result < interfaces }
{
    if interface < Setting::COUNT {
        interface
    } else {
        0
    }
}

/// Whether there is no interface with this number, or its family, the number of an Address, says
/// that it is unused.
pub fn is_unused(interface: usize, family: u8) -> bool
    ensures { result ≡ no_interface interface family }
{
    Setting::COUNT <= interface || !octets::is_family(family)
}

/// Whether a time in milliseconds is past the clock's range, or before the last accepted one.
pub fn bad_clock(clock: u64, time: u64) -> bool
    ensures { result ≡ bad_clock clock time }
{
    Host::LATEST < time || time < clock
}

// The header of a datagram that is neither too short nor too long.
#[tactic(auto, unfolding(crate::specs::Messages::header_in, message::specs::Header::header_at))]
fn read_header(datagram: &[u8]) -> Option<Header>
    ensures { result ≡ header_in datagram.now }
{
    if Host::DATAGRAM < datagram.len() {
        return None;
    }
    message::read_header(datagram)
}

// Families are the numbers of Addresses.
// Whether the addresses are of another family than the interface, or a query did not go to the group, or a response did.
fn bad_address(family: u8, source: u8, to: Address, response: bool) -> bool
    ensures { result ≡ bad_address family source to response }
{
    source != family || to.family != family || octets::is_group(to) == response
}

// Whether a response has an RCODE.
fn has_failed(response: bool, rcode: u8) -> bool
    ensures { result ≡ failed response rcode }
{
    response && rcode != 0
}

// Whether there is not one question, or a query has records of other sections.
fn bad_counts(header: Header) -> bool
    ensures { result ≡ bad_counts header }
{
    header.questions != 1 || !header.response && (header.answers != 0 || header.authorities != 0)
}

// Whether a query's class is neither IN nor any.
fn wrong_class(response: bool, class: u16) -> bool
    ensures { result ≡ wrong_class response class }
{
    !response && class != ResourceRecord::IN && class != Host::ANY_CLASS
}

// The checks 6 to 11 of a datagram with this header, on an interface of a family.
#[tactic(auto, unfolding(crate::specs::Messages::message_read, refusal::specs::Checks::verdict))]
fn read_message(family: u8, arrival: Arrival, header: Header) -> Result<Question, Refusal>
    ensures { read_by result ≡ message_read family arrival.entry.from.address.family arrival.entry.to header
        arrival.entry.datagram.now }
{
    if bad_address(
        family,
        arrival.from.address.family,
        arrival.to,
        header.response,
    ) {
        return Err(Refusal::Address);
    }
    if header.opcode != 0 {
        return Err(Refusal::Opcode);
    }
    if has_failed(header.response, header.rcode) {
        return Err(Refusal::Rcode);
    }
    if bad_counts(header) {
        return Err(Refusal::Counts);
    }
    let Some(question) = message::read_question(arrival.datagram, Header::OCTETS) else {
        return Err(Refusal::Question);
    };
    if wrong_class(header.response, question.class) {
        return Err(Refusal::Class);
    }
    Ok(question)
}

/// What is read of a datagram: its header and its question.
#[derive(Clone, Copy, PartialEq, Eq, Debug)]
pub struct Datagram {
    pub header: Header,
    pub question: Question,
}

// Whether a query comes to one that takes responses alone.
fn is_unasked(responses: bool, response: bool) -> bool
    ensures { result ≡ unasked responses response }
{
    responses && !response
}

/// Reads a datagram that came to an interface of a family. One that takes responses alone refuses a query.
///
/// # Errors
///
/// The refusals 5 to 11 of the rules, in their order, and 15 right after 5 for a query to one that takes responses alone.
// A flag, and no enum: `datagram_read` of specs/Messages, which may not change, takes it.
#[tactic(auto, unfolding(crate::specs::Messages::datagram_read, crate::specs::Messages::message_read, refusal::specs::Checks::verdict))]
pub fn read(responses: bool, family: u8, arrival: Arrival) -> Result<Datagram, Refusal>
    ensures { datagram_by result ≡ datagram_read responses family arrival.entry.from.address.family
        arrival.entry.to arrival.entry.datagram.now }
{
    let Some(header) = read_header(arrival.datagram) else {
        return Err(Refusal::Length);
    };
    if is_unasked(responses, header.response) {
        return Err(Refusal::Unmatched);
    }
    let question = read_message(family, arrival, header)?;
    Ok(Datagram { header, question })
}
