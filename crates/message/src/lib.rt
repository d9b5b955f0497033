// Messages: header, question and resource records, read; queries, written. Replies are written in replies.rt.
#![tactic(auto)]

ghost use Rattle.std.specs.Prelude.{◌≡◌, ◌≤◌, ◌++◌, length};
ghost use Rattle.octets.specs.Octets.{put};
ghost use Rattle.message.specs.Header.{header_at};
ghost use Rattle.message.specs.Question.{question_at, question_octets};
ghost use Rattle.message.specs.Records.{record_at, walk_from};
ghost use Rattle.message.specs.Query.{query_octets};

pub mod replies;

/// The header of a message. RFC 4795's C is the conflict flag, T the tentative flag.
// Opcode and RCODE are numbers: any of 16 may come, and `header_of` of specs/Header, which may
// not change, gives them so.
#[derive(Clone, Copy, PartialEq, Eq, Debug)]
pub struct Header {
    pub id: u16,
    pub response: bool,
    pub opcode: u8,
    pub conflict: bool,
    pub truncated: bool,
    pub tentative: bool,
    pub rcode: u8,
    pub questions: u16,
    pub answers: u16,
    pub authorities: u16,
    pub additionals: u16,
}

impl Header {
    /// Octets of a header.
    pub const OCTETS: usize = 12;
}

/// Reads the header of a message; none where there are fewer octets than a header has.
#[tactic(auto, unfolding(crate::specs::Header::header_at, crate::specs::Header::header_of))]
pub fn read_header(s: &[u8]) -> Option<Header>
    ensures { result ≡ header_at s.now }
{
    let [i0, i1, f0, f1, q0, q1, a0, a1, n0, n1, r0, r1, ..] = s else {
        return None;
    };
    let flags = u16::from_be_bytes([*f0, *f1]);
    Some(Header {
        id: u16::from_be_bytes([*i0, *i1]),
        response: flags >> 15 & 1 == 1,
        opcode: (flags >> 11 & 0xf) as u8,
        conflict: flags >> 10 & 1 == 1,
        truncated: flags >> 9 & 1 == 1,
        tentative: flags >> 8 & 1 == 1,
        rcode: (flags & 0xf) as u8,
        questions: u16::from_be_bytes([*q0, *q1]),
        answers: u16::from_be_bytes([*a0, *a1]),
        authorities: u16::from_be_bytes([*n0, *n1]),
        additionals: u16::from_be_bytes([*r0, *r1]),
    })
}

/// A question: the octets of its name and its labels, its type and class, and the offset after it.
// An offset, and no slice: `question_at` of specs/Question, which may not change, gives it.
#[derive(Clone, Copy, PartialEq, Eq, Debug)]
pub struct Question {
    pub name: usize,
    pub labels: usize,
    pub qtype: u16,
    pub class: u16,
    pub end: usize,
}

/// Reads the question at an offset; none where its name is bad, or it runs past the end.
#[tactic(auto, using(names::proofs::NameWalk::name_fits), unfolding(crate::specs::Question::question_at))]
pub fn read_question(s: &[u8], at: usize) -> Option<Question>
    ensures { result ≡ question_at s.now at }
{
    let name = names::read_name(s, at)?;
    let p = at + name.len;
    if octets::runs_past(s.len(), p, 4) {
        return None;
    }
    Some(Question {
        name: name.len,
        labels: name.labels,
        qtype: octets::big(s, p),
        class: octets::big(s, p + 2),
        end: p + 4,
    })
}

/// A resource record: its owner name, type, class, TTL in seconds, octets of data, where the data stands, and where the next
/// record begins.
// Offsets, and no slices: `record_at` of specs/Records, which may not change, gives them.
#[derive(Clone, Copy, PartialEq, Eq, Debug)]
pub struct ResourceRecord {
    pub owner: names::RecordName,
    pub rtype: u16,
    pub class: u16,
    pub ttl: u32,
    pub len: usize,
    pub start: usize,
    pub next: usize,
}

impl ResourceRecord {
    /// Octets between the owner and the data.
    pub const FIXED: usize = 10;

    /// Octets of an answer that we write before its data: the owner's pointer and the fixed octets.
    pub const ANSWER: usize = 12;

    /// The class of every record that we write.
    pub const IN: u16 = 1;

    /// The TTL of every record that we write, in seconds.
    pub const TTL: u16 = 30;

    /// The type that asks for all.
    pub const ANY: u16 = 255;

    /// From here on a TTL has its top bit set.
    pub const TOP_BIT: u32 = 2147483648;
}

/// Reads the resource record at an offset; none where its owner name is bad, or its fixed octets or its data run past the end.
#[tactic(auto, unfolding(crate::specs::Records::record_at))]
pub fn read_record(s: &[u8], at: usize) -> Option<ResourceRecord>
    ensures { result ≡ record_at s.now at }
{
    let owner = names::read_record_name(s, at)?;
    let p = owner.next;
    if octets::runs_past(s.len(), p, ResourceRecord::FIXED) {
        return None;
    }
    let len = usize::from(octets::big(s, p + 8));
    let start = p + ResourceRecord::FIXED;
    if octets::runs_past(s.len(), start, len) {
        return None;
    }
    Some(ResourceRecord {
        owner,
        rtype: octets::big(s, p),
        class: octets::big(s, p + 2),
        ttl: u32::from(octets::big(s, p + 4)) << 16 | u32::from(octets::big(s, p + 6)),
        len,
        start,
        next: start + len,
    })
}

/// Walks over so many resource records from an offset on: the offset after the last, or that of the first bad one as the error.
// The error is an offset alone: `walk_from` of specs/Records, which may not change, gives it so.
pub fn walk(s: &[u8], at: usize, count: u16) -> Result<usize, usize>
    ensures { result ≡ walk_from count s.now at }
{
    let mut p = at;
    for _ in 0..count {
        let Some(record) = read_record(s, p) else {
            return Err(p);
        };
        p = record.next;
    }
    Ok(p)
}

// Writes a query with an ID, flags, and the octets of its question, which stand in two runs, if it fits; gives its length.
// An ID and flags beside the buffer, as the public two below take them, which may not change.
fn put_query(out: &mut [u8], id: u16, flags: u16, first: &[u8], last: &[u8]) -> usize
    requires short { length last.now ≤ 4 }
    ensures value { result ≡ length (query_octets id flags (first.now ++ last.now)) }
    ensures out_after { out.new ≡ put out.old 0 (query_octets id flags (first.now ++ last.now)) }
{
    let p = Header::OCTETS + first.len();
    let len = p + last.len();
    if octets::runs_past(out.len(), 0, len) {
        return len;
    }
    octets::put_big(out, 0, id);
    octets::put_big(out, 2, flags);
    octets::put_octets(out, 4, b"\x00\x01\x00\x00\x00\x00\x00\x00");
    octets::put_octets(out, Header::OCTETS, first);
    octets::put_octets(out, p, last);
    len
}

/// Writes a query with an ID, flags, and the octets of its question, if it fits; gives its length.
pub fn write_query(out: &mut [u8], id: u16, flags: u16, question: &[u8]) -> usize
    ensures value { result ≡ length (query_octets id flags question.now) }
    ensures out_after { out.new ≡ put out.old 0 (query_octets id flags question.now) }
{
    put_query(out, id, flags, question, b"")
}

/// Writes a query with an ID, flags, and the octets of a name, a type and a class, if it fits; gives its length.
pub fn write_name_query(
    out: &mut [u8],
    id: u16,
    flags: u16,
    name: &[u8],
    qtype: u16,
    class: u16,
) -> usize
    ensures value { result ≡ length (query_octets id flags (question_octets name.now qtype class)) }
    ensures out_after { out.new
        ≡ put out.old 0 (query_octets id flags (question_octets name.now qtype class)) }
{
    let [t0, t1] = qtype.to_be_bytes();
    let [c0, c1] = class.to_be_bytes();
    put_query(out, id, flags, name, &[t0, t1, c0, c1])
}

/// The head of a reply: the query's ID, and whether C and T are set.
#[derive(Clone, Copy, PartialEq, Eq, Debug)]
pub struct ReplyHead {
    pub id: u16,
    pub conflict: bool,
    pub tentative: bool,
}

/// What a reply answers: a question of a type, on an interface, about a name of the table; the offset there at which the name's
/// records begin.
// An offset into the table: `answers_in` of specs/Reply, which may not change, takes it.
#[derive(Clone, Copy, PartialEq, Eq, Debug)]
pub struct Asked<'a> {
    pub qtype: u16,
    pub interface: usize,
    pub table: &'a [u8],
    pub records: usize,
}

/// Where the answers end, how many there are, and whether one was left out.
// How far the buffer is filled: `taken_from` of specs/Reply, which may not change, says so.
#[derive(Clone, Copy, PartialEq, Eq, Debug)]
pub struct Answers {
    pub end: usize,
    pub count: u16,
    pub cut: bool,
}
