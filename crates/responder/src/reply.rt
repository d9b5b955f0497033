// The reply to a query for a name.
ghost use Rattle.std.specs.Prelude.{◌≡◌};
ghost use Rattle.octets.specs.Octets.{part_of};
ghost use Rattle.message.specs.Bounds.{header_octets};
ghost use Rattle.host.specs.Bounds.{reply_limit};
ghost use Rattle.host.specs.State.{shared, verifying, is};
ghost use Rattle.message.specs.Reply.{answers_in, reply_written};

use crate::heard::{Call, Heard};
use host::{Host, NameState};
use message::{Asked, Header, ReplyHead, replies};

// With the query's ID: C is set exactly while the state is Shared, T exactly while it is Verifying.
// Those records of the name that are valid on the interface are given.
pub(crate) fn write(
    heard: Heard,
    state: NameState,
    interface: usize,
    call: Call,
    out: &mut [u8],
) -> usize
    ensures { record { len = result; octets = out.new }
        ≡ reply_written out.old reply_limit
        (record {
          id = heard.header.id;
          conflict = is shared state;
          tentative = is verifying state;
        })
        (part_of call.entry.arrival.datagram.now header_octets heard.question.end)
        heard.question.qtype
        (answers_in interface call.entry.table.now heard.records) }
{
    let head = ReplyHead {
        id: heard.header.id,
        conflict: matches!(state, NameState::Shared),
        tentative: matches!(state, NameState::Verifying { .. }),
    };
    let question = octets::part(call.arrival.datagram, Header::OCTETS, heard.question.end);
    let asked = Asked {
        qtype: heard.question.qtype,
        interface,
        table: call.table,
        records: heard.records,
    };
    replies::write_reply(out, Host::REPLY, head, question, asked)
}
