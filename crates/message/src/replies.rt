// Replies: their flags, their answers and the whole of them, written.
ghost use Rattle.std.specs.Prelude.{◌≡◌, ◌+◌, ◌<◌, ◌≤◌, length};
ghost use Rattle.octets.specs.Octets.{splice};
ghost use Rattle.octets.specs.Tests.{◌and◌};
ghost use Rattle.message.specs.Bounds.{fixed_octets, owner_octets};
ghost use Rattle.message.specs.Reply.{reply_flags, is_asked, answer_octets, taken_from, answers_in, reply_written, Filled};

use crate::{Answers, Asked, Header, ReplyHead, ResourceRecord};
use name_table::{RecordRead, Table, resources};

// The flags of a reply: QR is set, then C, TC and T as given.
fn reply_flags(conflict: bool, truncated: bool, tentative: bool) -> [u8; 2]
    ensures { result ≡ reply_flags conflict truncated tentative }
{
    let high = 0x80 | u8::from(conflict) << 2 | u8::from(truncated) << 1 | u8::from(tentative);
    [high, 0]
}

// Whether a question of a type asks for records of a type.
fn is_asked(qtype: u16, rtype: u16) -> bool
    ensures { result ≡ is_asked qtype rtype }
{
    rtype == qtype || qtype == ResourceRecord::ANY
}

// Writes an answer at the start of a part that has room: its owner is a pointer to the question's name.
fn put_answer(part: &mut [u8], rtype: u16, rdata: &[u8])
    requires room { owner_octets + fixed_octets + length rdata.now ≤ length part.old }
    requires short { length rdata.now < 65536 }
    ensures { part.new
        ≡ splice part.old 0 (answer_octets (record { rtype = rtype; octets = rdata.now })) }
{
    octets::put_octets(part, 0, b"\xc0\x0c");
    octets::put_big(part, 2, rtype);
    octets::put_big(part, 4, ResourceRecord::IN);
    octets::put_big(part, 6, 0);
    octets::put_big(part, 8, ResourceRecord::TTL);
    octets::put_big(part, 10, rdata.len() as u16);
    octets::put_octets(part, ResourceRecord::ANSWER, rdata);
}

// Whether a record is taken: it is valid here, and asked for.
fn is_taken(here: bool, qtype: u16, rtype: u16) -> bool
    ensures { result ≡ here and is_asked qtype rtype }
{
    here && is_asked(qtype, rtype)
}

// Writes the answers to what is asked after the octets used, until the first that would pass the limit.
// Offsets and no part of the buffer: `taken_from` of specs/Reply, which may not change, counts
// them.
fn put_answers(out: &mut [u8], limit: usize, used: usize, asked: Asked) -> Answers
    requires room { limit ≤ length out.old }
    requires short { limit < 65536 }
    requires inside { used ≤ limit }
    ensures { Filled result used out.old out.new
        (taken_from limit asked.entry.qtype used
        (answers_in asked.entry.interface asked.entry.table.now asked.entry.records)) }
{
    let mut end = used;
    let mut count = 0;
    let mut p = asked.records;
    let mut here = resources::is_valid(Table::EVERYWHERE, asked.interface);
    // A loop: the offset moves to where each entry ends, so no range is plainer.
    let cut = loop {
        match resources::record_at(asked.table, p) {
            RecordRead::Good(record) => {
                p = record.end;
                if is_taken(here, asked.qtype, record.rtype) {
                    let rdata = octets::part(asked.table, record.start, record.end);
                    let size = ResourceRecord::ANSWER + rdata.len();
                    if octets::runs_past(limit, end, size) {
                        break true;
                    }
                    put_answer(&mut out[end..], record.rtype, rdata);
                    end += size;
                    count += 1;
                }
            }
            RecordRead::Mask { mask, end } => {
                here = resources::is_valid(mask, asked.interface);
                p = end;
            }
            RecordRead::End => break false,
        }
    };
    Answers { end, count, cut }
}

/// Writes a reply: the question's octets as received, then the records that are asked for, as many as the limit lets in. Gives its
/// length; nothing is written, and the length is 0, where there is no room.
pub fn write_reply(
    out: &mut [u8],
    limit: u16,
    head: ReplyHead,
    question: &[u8],
    asked: Asked,
) -> usize
    ensures { record { len = result; octets = out.new }
        ≡ reply_written out.old limit head question.now asked.entry.qtype
        (answers_in asked.entry.interface asked.entry.table.now asked.entry.records) }
{
    let room = limit as usize;
    let used = Header::OCTETS + question.len();
    // The length 0 tells that there is no room: so says reply_written in specs/Reply, which this promises.
    if out.len() < room || room < used {
        return 0;
    }
    octets::put_octets(out, Header::OCTETS, question);
    let answers = put_answers(out, room, used, asked);
    let flags = reply_flags(head.conflict, answers.cut, head.tentative);
    octets::put_big(out, 0, head.id);
    octets::put_octets(out, 2, &flags);
    octets::put_octets(out, 4, b"\x00\x01");
    octets::put_big(out, 6, answers.count);
    octets::put_octets(out, 8, b"\x00\x00\x00\x00");
    answers.end
}
