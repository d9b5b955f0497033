// The question of a lookup: a name as it is given, as it is kept, and the query for it.
ghost use Rattle.std.specs.Prelude.{◌≡◌, length};
ghost use Rattle.octets.specs.Octets.{put};
ghost use Rattle.names.specs.NameWalk.{name_at};
ghost use Rattle.lookup.specs.State.{name_of};
ghost use Rattle.lookup.specs.Outcomes.{query_for};
ghost use Rattle.refusal.specs.Checks.{verdict};
ghost use Rattle.lookup.specs.Start.{name_checks};
ghost use Rattle.querier.specs.Steps.{verdict_by};

use crate::several;
use lookup::{Asked, Lookup};
use message::ResourceRecord;
use refusal::Refusal;

// The checks of a name that is to be looked up: one name from end to end, and not the root; of one
// label, or one that is let by.
#[tactic(auto, unfolding(refusal::specs::Checks::verdict))]
pub(crate) fn check(asked: Asked) -> Result<(), Refusal>
    ensures { verdict_by result ≡ verdict (name_checks asked.entry.permission asked.entry.name.now
        (name_at asked.entry.name.now 0)) }
{
    let Some(name) = names::read_name(asked.name, 0) else {
        return Err(Refusal::Question);
    };
    if name.len == 1 || name.len != asked.name.len() {
        return Err(Refusal::Question);
    }
    if several::is_barred(asked.permission, asked.name, name.labels) {
        return Err(Refusal::SeveralLabels);
    }
    Ok(())
}

// The name that a lookup asks for: the first octets of its array, all of them where it has no more.
pub(crate) fn name(lookup: &Lookup) -> &[u8]
    ensures { result.now ≡ name_of lookup.now }
{
    lookup.name.get(..lookup.len).unwrap_or(&lookup.name)
}

// Writes the query for a name and a type, and gives its length.
pub(crate) fn write(out: &mut [u8], id: u16, name: &[u8], qtype: u16) -> usize
    ensures value { result ≡ length (query_for id name.now qtype) }
    ensures out_after { out.new ≡ put out.old 0 (query_for id name.now qtype) }
{
    message::write_name_query(out, id, 0, name, qtype, ResourceRecord::IN)
}
