// The records of a name: those read one after another from the end of its octets, and the
// interfaces on which they are valid.
ghost use Rattle.std.specs.Prelude.{◌≡◌, length};
ghost use Rattle.name_table.specs.Masks.{is_valid};
ghost use Rattle.name_table.specs.Records.{record_by, record_at, records_of};

use crate::{Entry, Kind, Record, RecordRead, Table};
use octets::Setting;

/// Whether a record with a mask is valid on an interface: bit 0 stands for interface 0, and so on
/// up to bit 3.
#[tactic(auto, unfolding(crate::specs::Masks::is_valid))]
pub fn is_valid(mask: u8, interface: usize) -> bool
    ensures { result ≡ is_valid mask interface }
{
    interface < Setting::COUNT && (mask >> interface) & 1 == 1
}

/// The record of an entry of some kind at the start of `octets`, whose body stands from one offset
/// of the table up to another; or its mask.
#[tactic(auto, unfolding(crate::specs::Records::record_by))]
fn record_by(kind: Kind, octets: &[u8], start: usize, end: usize) -> RecordRead
    ensures { result ≡ record_by kind octets.now start end }
{
    match kind {
        Kind::Octets { rtype, .. } | Kind::Target { rtype } => RecordRead::Good(Record {
            rtype,
            start,
            end,
        }),
        Kind::Mask => RecordRead::Mask {
            mask: octets::octet(octets, Table::HEAD),
            end,
        },
        Kind::Unique | Kind::Shared | Kind::Unknown => RecordRead::End,
    }
}

/// The record or the mask at an offset.
pub fn record_at(table: &[u8], at: usize) -> RecordRead
    ensures { result ≡ record_at table.now at }
{
    let rest = octets::part(table, at, table.len());
    let Some((entry, others)) = Entry::split_first(rest) else {
        return RecordRead::End;
    };
    record_by(
        Kind::from(entry.kind),
        rest,
        at + Table::HEAD,
        table.len() - others.len(),
    )
}

/// How many records a name has, whose octets end at an offset.
pub fn count_records(table: &[u8], at: usize) -> usize
    ensures { result ≡ length (records_of table.now at) }
{
    let mut n: usize = 0;
    let mut p = at;
    // A loop: the offset moves by each entry's length, and masks count as no records, so no range
    // or iterator is plainer.
    loop {
        match record_at(table, p) {
            RecordRead::Good(record) => {
                n += 1;
                p = record.end;
            }
            RecordRead::Mask { end, .. } => p = end,
            RecordRead::End => return n,
        }
    }
}
