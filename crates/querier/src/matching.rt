// Whether a response is the one that a lookup waits for: the checks 15 to 18.
ghost use Rattle.std.specs.Prelude.{◌≡◌, ◌≤◌, length};
ghost use Rattle.refusal.specs.Checks.{verdict};
ghost use Rattle.lookup.specs.Receive.{waits, awaits, match_checks};
ghost use Rattle.querier.specs.Steps.{verdict_by};

use crate::question;
use checks::Datagram;
use host::Arrival;
use lookup::{Lookup, Phase};
use message::{Header, ResourceRecord};
use refusal::Refusal;

// Whether a lookup in a phase waits for a response with C set or clear.
fn waits_for(phase: Phase, conflict: bool) -> bool
    ensures { result ≡ waits phase conflict }
{
    match phase {
        Phase::Asking { .. } => true,
        Phase::Collecting { .. } => conflict,
        Phase::Ended => false,
    }
}

// Whether a lookup waits for a response: it is in time for it, and the response has the ID and the
// question of its query.
fn awaits(lookup: &Lookup, response: &Datagram, datagram: &[u8]) -> bool
    requires { response.now.question.name ≤ length datagram.now }
    ensures { result ≡ awaits lookup.now response.now.header response.now.question datagram.now }
{
    let Datagram { header, question } = *response;
    waits_for(lookup.phase, header.conflict)
        && header.id == lookup.id
        && question.qtype == lookup.qtype
        && question.class == ResourceRecord::IN
        && names::same_name(
            question::name(lookup),
            octets::part(datagram, Header::OCTETS, Header::OCTETS + question.name),
        )
}

// The checks of a response that was read.
#[tactic(auto, unfolding(refusal::specs::Checks::verdict))]
pub(crate) fn check(lookup: &Lookup, arrival: &Arrival, response: &Datagram) -> Result<(), Refusal>
    requires { response.now.question.name ≤ length arrival.now.datagram.now }
    ensures { verdict_by result ≡ verdict (match_checks
        (awaits lookup.now response.now.header response.now.question arrival.now.datagram.now)
        lookup.now.settings arrival.now.from.address response.now.header response.now.question
        arrival.now.datagram.now) }
{
    let Datagram { header, question } = *response;
    if !awaits(lookup, response, arrival.datagram) {
        return Err(Refusal::Unmatched);
    }
    if octets::is_ours(lookup.settings, arrival.from.address) {
        return Err(Refusal::Own);
    }
    if header.tentative {
        return Err(Refusal::Tentative);
    }
    if message::walk(arrival.datagram, question.end, header.answers).is_err() {
        return Err(Refusal::Records);
    }
    Ok(())
}
