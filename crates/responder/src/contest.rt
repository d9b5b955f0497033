// What a datagram for a name calls for, by the name's state: a refusal, an answer, or a contest for
// the name, and how that ends.
ghost use Rattle.std.specs.Prelude.{◌≡◌, not};
ghost use Rattle.octets.specs.Octets.{part_of};
ghost use Rattle.octets.specs.Tests.{◌and◌};
ghost use Rattle.octets.specs.Addresses.{is_ours};
ghost use Rattle.message.specs.Bounds.{header_octets};
ghost use Rattle.host.specs.State.{verifying, is};
ghost use Rattle.host.specs.Receive.{awaits};
ghost use Rattle.responder.specs.Contest.{why_unknown, why_own};
ghost use Rattle.responder.specs.Contest.{query_judged, state_judged, judged};
ghost use Rattle.responder.specs.Contest.{is_lost, ending, ended_as, written_at_end};
ghost use Rattle.responder.specs.Stopping.{until_by};

use crate::heard::{Call, Heard};
use crate::served::{NamedState, Served, Site};
use crate::stopping;
use host::{NameState, Outcome};
use message::{Header, Question, ResourceRecord};
use octets::{Address, Setting};
use refusal::Refusal;

// What a datagram that is not refused calls for.
#[derive(Clone, Copy, PartialEq, Eq, Debug)]
pub(crate) enum Judged {
    Answer,
    Contest,
}

// Why a query or a response for a name that the table does not have is refused.
pub(crate) fn unknown(response: bool) -> Refusal
    ensures { result ≡ why_unknown response }
{
    if response {
        Refusal::Unmatched
    } else {
        Refusal::NotOurs
    }
}

// Why a contest that comes from ourselves is refused.
fn own(response: bool) -> Refusal
    ensures { result ≡ why_own response }
{
    if response {
        Refusal::Own
    } else {
        Refusal::Notification
    }
}

// Whether a check waits for this ID and question.
fn waits_for(state: NameState, id: u16, question: Question) -> bool
    ensures { result ≡ awaits state id question.qtype question.class }
{
    match state {
        NameState::Verifying { id: own, .. } => {
            id == own
                && question.qtype == ResourceRecord::ANY
                && question.class == ResourceRecord::IN
        }
        NameState::Defending {
            id: own,
            qtype,
            qclass,
            ..
        } => id == own && question.qtype == qtype && question.class == qclass,
        _ => false,
    }
}

fn judge_query(state: NameState, conflict: bool) -> Result<Judged, Refusal>
    ensures { result ≡ query_judged state conflict }
{
    match state {
        NameState::Off => Err(Refusal::NotOurs),
        NameState::Stopped { .. } => Err(Refusal::Stopped),
        _ if !conflict => Ok(Judged::Answer),
        NameState::Unique => Ok(Judged::Contest),
        _ => Err(Refusal::Notification),
    }
}

// Of a message for a name of the table that is in a state here.
#[tactic(auto, unfolding(crate::specs::Contest::state_judged))]
fn judge_state(state: NameState, header: Header, question: Question) -> Result<Judged, Refusal>
    ensures { result ≡ state_judged state header question }
{
    if !header.response {
        return judge_query(state, header.conflict);
    }
    if waits_for(state, header.id, question) {
        Ok(Judged::Contest)
    } else {
        Err(Refusal::Unmatched)
    }
}

// The same, where a contest that comes from ourselves is refused. The source is looked at only
// then.
#[tactic(auto, unfolding(crate::specs::Contest::judged))]
pub(crate) fn judge(
    state: NameState,
    heard: Heard,
    settings: &[Setting; Setting::COUNT],
    source: Address,
) -> Result<Judged, Refusal>
    ensures { result ≡ judged state heard.header heard.question (is_ours settings.now source) }
{
    let judged = judge_state(state, heard.header, heard.question)?;
    if matches!(judged, Judged::Contest) && octets::is_ours(*settings, source) {
        return Err(own(heard.header.response));
    }
    Ok(judged)
}

// Whether a response loses the name: it has an owner, which the response says by a clear T while
// the name is Verifying, or the source is below the interface's address.
fn is_lost(state: NameState, tentative: bool, source: Address, setting: Setting) -> bool
    ensures { result ≡ is_lost state tentative source setting }
{
    matches!(state, NameState::Verifying { .. }) && !tentative
        || octets::below_address(source, setting.own())
}

// How a contest ends that does not come from ourselves: the name is defended by a query, is lost,
// or goes on as it is.
#[derive(Clone, Copy, PartialEq, Eq, Debug)]
pub(crate) enum Ending {
    Defended,
    Lost,
    Kept,
}

#[tactic(auto, unfolding(crate::specs::Contest::ending))]
pub(crate) fn settle(state: NameState, header: Header, source: Address, setting: Setting) -> Ending
    ensures { result ≡ ending state header source setting }
{
    if !header.response {
        return Ending::Defended;
    }
    if is_lost(state, header.tentative, source, setting) {
        Ending::Lost
    } else {
        Ending::Kept
    }
}

// A name is defended by a query with the question as received, to the group, and is Defending with
// its timer; or is Stopped until the response lets it be tried again; or goes on as it is.
pub(crate) fn end(ending: Ending, heard: Heard, site: Site, call: Call, out: &mut [u8]) -> Served
    ensures served { result
        ≡ ended_as ending heard site.setting.family call.entry.moment.id
        (part_of call.entry.arrival.datagram.now header_octets heard.question.end)
        (until_by call.entry.moment.time heard.header.answers call.entry.arrival.datagram.now
        heard.question.end) }
    ensures written { out.new
        ≡ written_at_end ending call.entry.moment.id
        (part_of call.entry.arrival.datagram.now header_octets heard.question.end) out.old }
{
    let Heard {
        name,
        timer,
        header,
        question,
        ..
    } = heard;
    let id = call.moment.id;
    match ending {
        Ending::Defended => {
            let asked = octets::part(call.arrival.datagram, Header::OCTETS, question.end);
            let state = NameState::Defending {
                id,
                qtype: question.qtype,
                qclass: question.class,
                timer,
            };
            Served {
                outcome: Outcome::Query {
                    name,
                    len: message::write_query(out, id, 0, asked),
                    to: octets::group_endpoint(site.setting.family),
                },
                change: Some(NamedState { name, state }),
            }
        }
        Ending::Lost => {
            let until = stopping::until(
                call.moment.time,
                header.answers,
                call.arrival.datagram,
                question.end,
            );
            Served {
                outcome: Outcome::Stopped { name },
                change: Some(NamedState {
                    name,
                    state: NameState::Stopped { until },
                }),
            }
        }
        Ending::Kept => Served {
            outcome: Outcome::Kept { name },
            change: None,
        },
    }
}
