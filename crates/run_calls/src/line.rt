// Lines, put at the end of a text: each is what its entry gives, in the words and the order of
// docs/CALL-FILES.md. Where there is no memory, the text may end in a part of a line.
ghost use Rattle.std.specs.Prelude.{◌≡◌, ◌++◌, string_bytes, OnOk, IfOk, Err};
ghost use Rattle.std.specs.List.{concat};
ghost use Rattle.octets.specs.Octets.{part_of};
ghost use Rattle.host.specs.Outcomes.{told, sent_to};
ghost use Rattle.lookup.specs.Outcomes.{told as lookup_told, sent_to as lookup_sent_to};
ghost use Rattle.names.specs.RecordNameWalk.{record_name_at, expanded_at};
ghost use Rattle.run_calls.specs.Lines.{hex_of};
ghost use Rattle.run_calls.specs.Pieces.{entry_pieces, prefix_pieces, refusal_pieces, sent_pieces};
ghost use Rattle.run_calls.specs.Pieces.{outcome_pieces, asked_pieces, call_line, lookup_line};
ghost use Rattle.run_calls.specs.Pieces.{ready_pieces, set_up_line, settings_line};
ghost use Rattle.run_calls.specs.Pieces.{table_pieces, table_line, name_pieces, name_read_pieces};
ghost use Rattle.run_calls.specs.Pieces.{name_line, end_line};

use crate::entry::{Kind, Prefix, Why};
use host::{Host, Outcome};
use name_table::{BadTable, Table};
use names::{Name, RecordName};
use octets::Endpoint;
use refusal::Refusal;
use std::alloc::{AllocError, Global};

// What the line of a call begins with.
fn put_head(text: &mut String, n: usize, kind: Kind, prefix: Prefix) -> Result<(), AllocError>
    ensures { OnOk result (string_bytes text.new ≡ string_bytes text.old
        ++ concat (entry_pieces n kind ++ prefix_pieces prefix)) }
{
    let Prefix {
        interface,
        time,
        id,
        room: _,
    } = prefix;
    write!(text, "{n} {kind} if={interface} t={time} id={id}")
}

fn put_refusal(text: &mut String, refusal: Refusal) -> Result<(), AllocError>
    ensures { OnOk result (string_bytes text.new ≡ string_bytes text.old
        ++ concat (refusal_pieces refusal)) }
{
    let number = refusal.number();
    match refusal {
        Refusal::Table { at } => write!(text, " refused no={number} at={at}"),
        _ => write!(text, " refused no={number}"),
    }
}

// Octets in hexadecimal.
fn hexadecimal(alloc: Global, octets: &[u8]) -> Result<String, AllocError>
    ensures { IfOk result (λ text. string_bytes text ≡ hex_of octets.now) }
{
    hex::encode(alloc, octets)
}

// What was sent: the octets that a call wrote, and where they go.
fn put_sent(text: &mut String, what: &str, to: Endpoint, sent: &[u8]) -> Result<(), AllocError>
    ensures { OnOk result (string_bytes text.new ≡ string_bytes text.old
        ++ concat (sent_pieces what.now to sent.now)) }
{
    let alloc = *text.allocator();
    let address = to.address;
    let octets = hexadecimal(alloc, &address.octets)?;
    let sent_octets = hexadecimal(alloc, sent)?;
    let family = address.family;
    let len = sent.len();
    write!(
        text,
        "{what} to={family}/{octets}/{} len={len} hex={sent_octets}",
        to.port
    )
}

// What a call of the host gives that was lent a buffer.
fn put_outcome(
    text: &mut String,
    call: Result<Outcome, Refusal>,
    out: &[u8],
) -> Result<(), AllocError>
    ensures { OnOk result (string_bytes text.new ≡ string_bytes text.old
        ++ concat (outcome_pieces (told call) (sent_to call) out.now)) }
{
    match call {
        Ok(Outcome::Quiet) => write!(text, " quiet"),
        Ok(Outcome::Kept { name }) => write!(text, " kept name={name}"),
        Ok(Outcome::Query { name, len, to }) => {
            put_sent(text, " query", to, octets::part(out, 0, len))?;
            write!(text, " name={name}")
        }
        Ok(Outcome::Reply { len, to }) => put_sent(text, " reply", to, octets::part(out, 0, len)),
        Ok(Outcome::Unique { name }) => write!(text, " unique name={name}"),
        Ok(Outcome::Shared { name }) => write!(text, " shared name={name}"),
        Ok(Outcome::Stopped { name }) => write!(text, " stopped name={name}"),
        Err(refusal) => put_refusal(text, refusal),
    }
}

/// Puts the line of a host's call that was lent a buffer.
// Head, middle and end, as in put_lookup and put_set_up: a closure for the middle is no plainer.
#[tactic(auto, using(crate::proofs::LineLaws::joins))]
pub fn put_call(
    text: &mut String,
    n: usize,
    kind: Kind,
    prefix: Prefix,
    call: Result<Outcome, Refusal>,
    out: &[u8],
) -> Result<(), AllocError>
    ensures { OnOk result (string_bytes text.new ≡ string_bytes text.old
        ++ concat (call_line n kind prefix (told call) (sent_to call) out.now)) }
{
    put_head(text, n, kind, prefix)?;
    put_outcome(text, call, out)?;
    text.push('\n')
}

// What a call of a lookup gives.
fn put_asked(
    text: &mut String,
    call: Result<lookup::Outcome, Refusal>,
    out: &[u8],
) -> Result<(), AllocError>
    ensures { OnOk result (string_bytes text.new ≡ string_bytes text.old
        ++ concat (asked_pieces (lookup_told call) (lookup_sent_to call) out.now)) }
{
    match call {
        Ok(lookup::Outcome::Quiet) => write!(text, " quiet"),
        Ok(lookup::Outcome::Query { len, to }) => {
            put_sent(text, " query", to, octets::part(out, 0, len))
        }
        Ok(lookup::Outcome::Part { at, answers }) => write!(text, " part at={at} an={answers}"),
        Ok(lookup::Outcome::Found { at, answers }) => write!(text, " found at={at} an={answers}"),
        Ok(lookup::Outcome::Collected) => write!(text, " found"),
        Ok(lookup::Outcome::NoSuchName) => write!(text, " none"),
        Err(refusal) => put_refusal(text, refusal),
    }
}

/// Puts the line of a lookup's call.
#[tactic(auto, using(crate::proofs::LineLaws::joins))]
pub fn put_lookup(
    text: &mut String,
    n: usize,
    kind: Kind,
    prefix: Prefix,
    call: Result<lookup::Outcome, Refusal>,
    out: &[u8],
) -> Result<(), AllocError>
    ensures { OnOk result (string_bytes text.new ≡ string_bytes text.old
        ++ concat (lookup_line n kind prefix (lookup_told call) (lookup_sent_to call) out.now)) }
{
    put_head(text, n, kind, prefix)?;
    put_asked(text, call, out)?;
    text.push('\n')
}

// What a set-up gives.
fn put_ready(text: &mut String, call: &Result<Host, Refusal>) -> Result<(), AllocError>
    ensures { OnOk result (string_bytes text.new ≡ string_bytes text.old
        ++ concat (ready_pieces call.now)) }
{
    match call {
        Ok(_) => write!(text, " ready"),
        Err(refusal) => put_refusal(text, *refusal),
    }
}

/// Puts the line of a set-up.
#[tactic(auto, using(crate::proofs::LineLaws::joins))]
pub fn put_set_up(
    text: &mut String,
    n: usize,
    prefix: Prefix,
    call: &Result<Host, Refusal>,
) -> Result<(), AllocError>
    ensures { OnOk result (string_bytes text.new ≡ string_bytes text.old
        ++ concat (set_up_line n prefix call.now)) }
{
    put_head(text, n, Kind::SetUp, prefix)?;
    put_ready(text, call)?;
    text.push('\n')
}

/// Puts the line of settings for lookups.
pub fn put_settings(text: &mut String, n: usize) -> Result<(), AllocError>
    ensures { OnOk result (string_bytes text.new ≡ string_bytes text.old
        ++ concat (settings_line n)) }
{
    writeln!(text, "{n} {}", Kind::Settings)
}

// What reading a table gives.
fn put_table_read(text: &mut String, read: Result<Table, BadTable>) -> Result<(), AllocError>
    ensures { OnOk result (string_bytes text.new ≡ string_bytes text.old
        ++ concat (table_pieces read)) }
{
    match read {
        Ok(table) => write!(text, " good names={}", table.len()),
        Err(bad) => put_refusal(text, Refusal::from(bad)),
    }
}

/// Puts the line of a table.
#[tactic(auto, using(crate::proofs::LineLaws::joins))]
pub fn put_table(text: &mut String, n: usize, table: &[u8]) -> Result<(), AllocError>
    ensures { OnOk result (string_bytes text.new ≡ string_bytes text.old
        ++ concat (table_line n table.now)) }
{
    write!(text, "{n} {}", Kind::Table)?;
    put_table_read(text, Table::read(table))?;
    text.push('\n')
}

// The name of a record, as read and with its octets as expanded.
fn put_name_read(text: &mut String, read: RecordName, expanded: &[u8]) -> Result<(), AllocError>
    ensures { OnOk result (string_bytes text.new ≡ string_bytes text.old
        ++ concat (name_pieces read expanded.now)) }
{
    let octets = hexadecimal(*text.allocator(), expanded)?;
    let RecordName {
        next,
        pointers,
        labels,
        len: _,
    } = read;
    write!(
        text,
        " next={next} pointers={pointers} labels={labels} name={octets}"
    )
}

// The name of a record that begins at an offset of a message, if one can be read there.
fn put_expanded(text: &mut String, message: &[u8], at: usize) -> Result<(), AllocError>
    ensures { OnOk result (string_bytes text.new ≡ string_bytes text.old
        ++ concat (name_read_pieces (record_name_at message.now at) (expanded_at message.now at))) }
{
    // An array: the room for the longest name, which is known, so a Vec is no plainer.
    let mut name = [0; Name::LONGEST];
    let Some(read) = names::expand_name(message, at, &mut name) else {
        return writeln!(text, " bad");
    };
    put_name_read(text, read, octets::part(&name, 0, read.len))?;
    text.push('\n')
}

/// Puts the line of a name in a record: the body has its offset, then the message.
#[tactic(auto, using(crate::proofs::LineLaws::joins))]
pub fn put_name(text: &mut String, n: usize, body: &[u8]) -> Result<(), AllocError>
    ensures { OnOk result (string_bytes text.new ≡ string_bytes text.old
        ++ concat (name_line n body.now)) }
{
    write!(text, "{n} {}", Kind::Name)?;
    let message = octets::part(body, 2, body.len());
    put_expanded(text, message, usize::from(octets::little(body, 0)))
}

/// Puts the line of a run that ends, at an offset, before its file does.
pub fn put_end(text: &mut String, at: usize, why: Why) -> Result<(), AllocError>
    ensures { OnOk result (string_bytes text.new ≡ string_bytes text.old
        ++ concat (end_line at (Err why))) }
{
    writeln!(text, "end at={at} why={why}")
}
