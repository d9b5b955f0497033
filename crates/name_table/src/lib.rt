// The name table: its check and its names. The records of a name are read in resources.rt.
#![tactic(auto)]

ghost use Rattle.std.specs.Prelude.{◌≡◌, ◌≤◌, length, option_map, position, min};
ghost use Rattle.octets.specs.Octets.{part_of};
ghost use Rattle.name_table.specs.Bounds.{most_names};
ghost use Rattle.name_table.specs.Kinds.{kind_of};
ghost use Rattle.name_table.specs.Masks.{is_mask};
ghost use Rattle.name_table.specs.Check.{first_entry, name_fills, name_form, record_form};
ghost use Rattle.name_table.specs.Check.{mask_form, form_by, find_name};
ghost use Rattle.name_table.specs.Shown.{cut, is_place, names_of, name_of, table_read, places_of, count_of};

use refusal::Refusal;
use std::error::Error;
use std::fmt;

pub mod resources;

/// What an entry's kind says of its body: a unique or a shared name, a record's data of so many
/// octets, a record's target, which is a name, or the mask of the records after it.
// No Option for a number that is no kind: `kind_of` is public and could not fail, so it may not
// begin to.
#[derive(Clone, Copy, PartialEq, Eq, Debug)]
pub enum Kind {
    Unique,
    Shared,
    Octets { rtype: u16, len: usize },
    Target { rtype: u16 },
    Mask,
    Unknown,
}

/// A record of a name: its type, and the offsets of the table from which and up to which its data
/// stands. The next entry begins where the data ends.
// Two offsets, and no range: `record_at` of specs/Records, which may not change, gives them.
#[derive(Clone, Copy, PartialEq, Eq, Debug)]
pub struct Record {
    pub rtype: u16,
    pub start: usize,
    pub end: usize,
}

impl Record {
    pub const A: u16 = 1;

    pub const PTR: u16 = 12;

    pub const AAAA: u16 = 28;
}

impl From<u16> for Kind {
    ghost from_gives = { λ number kind. kind ≡ kind_of number };

    #[tactic(auto, unfolding(crate::specs::Kinds::kind_of))]
    fn from(number: u16) -> Kind {
        match number {
            1 => Kind::Unique,
            2 => Kind::Shared,
            3 => Kind::Octets {
                rtype: Record::A,
                len: octets::Address::IPV4_OCTETS,
            },
            4 => Kind::Octets {
                rtype: Record::AAAA,
                len: octets::Address::IPV6_OCTETS,
            },
            5 => Kind::Target { rtype: Record::PTR },
            6 => Kind::Mask,
            _ => Kind::Unknown,
        }
    }
}

/// The kind with a number.
// Beside `From`: a public function, which may not change; docs/PROMISES.md names it.
pub fn kind_of(number: u16) -> Kind
    ensures { result ≡ kind_of number }
{
    Kind::from(number)
}

/// An entry of a table: the number of its kind, and its body.
// The kind stays a number: `Place` keeps it, as `Held` of specs/Check, which may not change.
#[derive(Clone, Copy)]
struct Entry<'a> {
    kind: u16,
    body: &'a [u8],
}

impl<'a> Entry<'a> {
    /// The entry at the start of some octets, and the octets after it; none if it is not whole.
    #[tactic(auto, unfolding(crate::specs::Check::first_entry, crate::specs::Check::is_whole))]
    pub(crate) fn split_first(octets: &'a [u8]) -> Option<(Entry<'a>, &'a [u8])>
        ensures { option_map (λ found. cut found.0 found.1.now) result ≡ first_entry octets.now }
    {
        let [a, b, c, d, tail @ ..] = octets else {
            return None;
        };
        let len = usize::from(u16::from_le_bytes([*a, *b])).checked_sub(Table::HEAD)?;
        let (body, rest) = tail.split_at_checked(len)?;
        let kind = u16::from_le_bytes([*c, *d]);
        Some((Entry { kind, body }, rest))
    }
}

/// Whether a name without pointers fills a body.
#[tactic(auto, unfolding(crate::specs::Check::name_fills))]
fn name_fills(body: &[u8]) -> bool
    ensures { result ≡ name_fills body.now }
{
    names::read_name(body, 0).is_some_and(|name| name.len == body.len())
}

/// What an entry that keeps the rules for its form adds to a table. Whether a name is new is looked
/// at later.
#[derive(Clone, Copy, PartialEq, Eq, Debug)]
pub enum Form {
    Name,
    Record,
    Mask,
}

// Tried: `then_some` in this and the next two is slower than `if`, by 8 of 100 instructions of a
// table's check.
/// The form of a name's entry: a name that is not the root fills the body, and there is room for
/// one more.
#[tactic(auto, unfolding(crate::specs::Check::name_form))]
fn name_form(names: usize, body: &[u8]) -> Option<Form>
    ensures { result ≡ name_form names body.now }
{
    if name_fills(body) && body.len() > 1 && names < Table::NAMES {
        Some(Form::Name)
    } else {
        None
    }
}

/// The form of a record's entry, where its body is in form: a name stands before it that has room
/// for one more.
#[tactic(auto, unfolding(crate::specs::Check::record_form))]
fn record_form(names: usize, records: usize, body: bool) -> Option<Form>
    ensures { result ≡ record_form names records body }
{
    if body && names != 0 && records < Table::RECORDS {
        Some(Form::Record)
    } else {
        None
    }
}

/// Whether a table may hold a mask: it is neither 0 nor above 15.
#[tactic(auto, unfolding(crate::specs::Masks::is_mask))]
fn is_mask(mask: u8) -> bool
    ensures { result ≡ is_mask mask }
{
    (1..=Table::EVERYWHERE).contains(&mask)
}

/// The form of a mask's entry: a name stands before it, and its body is one octet, which is a mask.
#[tactic(auto, unfolding(crate::specs::Check::mask_form, crate::specs::Check::mask_fits))]
fn mask_form(names: usize, body: &[u8]) -> Option<Form>
    ensures { result ≡ mask_form names body.now }
{
    if names > 0 && matches!(body, [mask] if is_mask(*mask)) {
        Some(Form::Mask)
    } else {
        None
    }
}

/// The form of an entry of some kind, after so many names and so many records of the last one.
#[tactic(auto, unfolding(crate::specs::Check::form_by))]
fn form_by(kind: Kind, names: usize, records: usize, body: &[u8]) -> Option<Form>
    ensures { result ≡ form_by kind names records body.now }
{
    match kind {
        Kind::Unique | Kind::Shared => name_form(names, body),
        Kind::Octets { len, .. } => record_form(names, records, body.len() == len),
        Kind::Target { .. } => record_form(names, records, name_fills(body)),
        Kind::Mask => mask_form(names, body),
        Kind::Unknown => None,
    }
}

/// A name by its number: its kind, and the offsets of the table from which and up to which its
/// octets stand. Its records begin where its octets end.
// Two offsets, and no range: `name_of` of specs/Shown says them so; a slice would borrow the
// table, and is no plainer.
#[derive(Clone, Copy, PartialEq, Eq, Debug)]
pub struct Named {
    pub kind: Kind,
    pub start: usize,
    pub end: usize,
}

/// A name as a table keeps it: the number of its kind, and the offsets from which and up to which
/// its octets stand.
// The kind stays a number: `Held` of specs/Check has it, and `Kind::Unknown` would not give it back.
#[derive(Clone, Copy, PartialEq, Eq, Debug)]
pub struct Place {
    pub kind: u16,
    pub start: u16,
    pub end: u16,
}

impl Place {
    // The place of no name.
    const NONE: Place = Place {
        kind: 0,
        start: 0,
        end: 0,
    };

    /// The octets of the name, in the table.
    fn octets<'a>(&self, table: &'a [u8]) -> &'a [u8]
        ensures { result.now ≡ part_of table.now self.now.start self.now.end }
    {
        octets::part(table, usize::from(self.start), usize::from(self.end))
    }
}

/// A table that is not good: the offset of the first entry that breaks a rule.
#[derive(Clone, Copy, PartialEq, Eq, Debug)]
pub struct BadTable {
    pub at: usize,
}

impl fmt::Display for BadTable {
    ghost use Rattle.std.specs.Prelude.{Some};
    ghost use Rattle.refusal.specs.Texts.{text_of};
    ghost use Rattle.refusal.specs.declared.Refusal.TheVariants.{Table as TableRefusal};

    // A bad table says what the refusal for it says.
    ghost output = { λ bad. Some (text_of (TableRefusal bad.at)) };

    fn fmt<W: fmt::Write>(&self, f: &mut fmt::Formatter<W>) -> fmt::Result {
        write!(f, "the table is bad at octet {}", self.at)
    }
}

impl Error for BadTable {}

impl From<BadTable> for Refusal {
    ghost use Rattle.refusal.specs.declared.Refusal.TheVariants.{Table as TableRefusal};

    ghost from_gives = { λ bad refusal. refusal ≡ TableRefusal bad.at };

    fn from(bad: BadTable) -> Refusal {
        Refusal::Table { at: bad.at }
    }
}

/// The number of the first of some names that equals a given one.
fn find_among(places: &[Place], table: &[u8], name: &[u8]) -> Option<usize>
    ensures { result ≡ position (is_place table.now name.now) places.now }
{
    places
        .iter()
        .position(|place| names::same_name(place.octets(table), name))
}

/// The names of a good table, in order: so many of the places count. A number above the most counts
/// as the most.
// An array with a count beside it, and no vector of fixed capacity: `Table::find` and `Table::name`
// promise an answer for every value, also where more names are said to be there than can be.
#[derive(Clone, Copy, PartialEq, Eq, Debug)]
pub struct Table {
    pub places: [Place; Table::NAMES],
    pub names: usize,
}

impl Table {
    /// The most octets of a table.
    pub const OCTETS: usize = 4096;

    /// The most names of a table.
    pub const NAMES: usize = 8;

    /// The most records of a name.
    pub const RECORDS: usize = 24;

    /// Octets of an entry before its body.
    pub const HEAD: usize = 4;

    /// The mask of interfaces 0 to 3.
    pub const EVERYWHERE: u8 = 15;

    /// So many names; a number above the most counts as the most.
    pub fn count(names: usize) -> usize
        ensures { result ≡ min names most_names }
    {
        names.min(Table::NAMES)
    }

    // The places that count.
    fn held(&self) -> &[Place]
        ensures { result.now ≡ places_of self.now }
    {
        &self.places[..Table::count(self.names)]
    }

    /// How many names there are, at most 8.
    pub fn len(&self) -> usize
        ensures value { result ≡ count_of self.now }
        ensures fits { result ≤ most_names }
    {
        Table::count(self.names)
    }

    /// The number of the name that equals a given one.
    pub fn find(&self, octets: &[u8], name: &[u8]) -> Option<usize>
        ensures { result ≡ find_name (names_of octets.now self.now) name.now }
    {
        find_among(self.held(), octets, name)
    }

    /// The name with a number; none from the number of names on.
    #[tactic(auto, unfolding(crate::specs::Shown::name_of))]
    pub fn name(&self, k: usize) -> Option<Named>
        ensures { result ≡ name_of self.now k }
    {
        let place = self.held().get(k)?;
        Some(Named {
            kind: Kind::from(place.kind),
            start: usize::from(place.start),
            end: usize::from(place.end),
        })
    }

    /// Checks a table and finds its names, in one pass.
    ///
    /// # Errors
    ///
    /// The offset of the first entry that breaks a rule; 4,096 for a table of more octets than
    /// that.
    pub fn read(octets: &[u8]) -> Result<Table, BadTable>
        ensures { result ≡ table_read octets.now }
    {
        if Table::OCTETS < octets.len() {
            return Err(BadTable { at: Table::OCTETS });
        }
        let mut table = Table {
            places: [Place::NONE; Table::NAMES],
            names: 0,
        };
        let mut records: usize = 0;
        let mut rest = octets;
        // A while loop: what is left after an entry goes by its length, and each bad exit tells where
        // it began, so no iterator is plainer.
        while !rest.is_empty() {
            let at = octets.len() - rest.len();
            let bad = BadTable { at };
            let Some((entry, others)) = Entry::split_first(rest) else {
                return Err(bad);
            };
            let end = octets.len() - others.len();
            let Some(form) = form_by(Kind::from(entry.kind), table.names, records, entry.body)
            else {
                return Err(bad);
            };
            match form {
                Form::Name => {
                    if table.find(octets, entry.body).is_some() {
                        return Err(bad);
                    }
                    table.places[table.names] = Place {
                        kind: entry.kind,
                        start: (at + Table::HEAD) as u16,
                        end: end as u16,
                    };
                    table.names += 1;
                    records = 0;
                }
                Form::Record => records += 1,
                Form::Mask => {}
            }
            rest = others;
        }
        Ok(table)
    }
}

/// A record at an offset of a table; or the mask of the records after it, and where they begin; or
/// neither: a name stands there, or the table ends.
// No Option around two variants: a match with three arms would become a match in a match.
#[derive(Clone, Copy, PartialEq, Eq, Debug)]
pub enum RecordRead {
    Good(Record),
    Mask { mask: u8, end: usize },
    End,
}
