// A record of a datagram, and the check of a name table, as flat structs.
ghost use Rattle.std.specs.Prelude.{◌≡◌};
ghost use Rattle.llmnr_c.specs.Reading.{flat_record, flat_read};

use message::ResourceRecord;
use name_table::{BadTable, Table};

/// A record: type, class, TTL in seconds, where its data stands, and where the next record begins.
/// All zero where there is none.
// A flag beside values, and no Option: the C interface.
#[repr(C)]
#[derive(Clone, Copy, PartialEq, Eq, Debug, Default)]
pub struct FlatRecord {
    pub good: bool,
    pub rtype: u16,
    pub rclass: u16,
    pub ttl: u32,
    pub start: usize,
    pub len: usize,
    pub next: usize,
}

/// How many names a good table has; of a bad one the offset of its first bad entry.
// A flag beside values, and no Result: the C interface.
#[repr(C)]
#[derive(Clone, Copy, PartialEq, Eq, Debug, Default)]
pub struct FlatTable {
    pub good: bool,
    pub names: usize,
    pub at: usize,
}

impl From<Option<ResourceRecord>> for FlatRecord {
    ghost from_gives = { λ record_read flat. flat ≡ flat_record record_read };

    fn from(read: Option<ResourceRecord>) -> FlatRecord {
        match read {
            Some(record) => FlatRecord {
                good: true,
                rtype: record.rtype,
                rclass: record.class,
                ttl: record.ttl,
                start: record.start,
                len: record.len,
                next: record.next,
            },
            None => FlatRecord::default(),
        }
    }
}

impl From<Result<Table, BadTable>> for FlatTable {
    ghost from_gives = { λ table flat. flat ≡ flat_read table };

    fn from(read: Result<Table, BadTable>) -> FlatTable {
        match read {
            Ok(table) => FlatTable {
                good: true,
                names: table.len(),
                at: 0,
            },
            Err(bad) => FlatTable {
                good: false,
                names: 0,
                at: bad.at,
            },
        }
    }
}
