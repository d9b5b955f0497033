// Entries of a call file: where each stands, and what its body says. All integers are
// little-endian. An octet past the end of a body reads as 0.
ghost use Rattle.std.specs.Prelude.{ℕ, ◌+◌, ◌≡◌, not, min, ◌<◌, ◌≤◌, length, get_or, eqb};
ghost use Rattle.std.specs.Prelude.{ok_or, IfOk, Some};
ghost use Rattle.octets.specs.Octets.{octet_at, part_of};
ghost use Rattle.octets.specs.Words.{little_at};
ghost use Rattle.run_calls.specs.Entries.{slots, kind_of, is_sized, is_slot, entry_at};
ghost use Rattle.run_calls.specs.Entries.{prefix_of, address_at};
ghost use Rattle.run_calls.specs.Entries.{setting_at, settings_of, source_of, slot_of};
ghost use Rattle.run_calls.specs.Pieces.{name_of, word_for};
ghost use Rattle.run_calls.specs.declared.entry.Why.TheVariants.{Kind as KindWhy};

use host::{Arrival, Moment};
use lookup::Asked;
use octets::{Address, Endpoint, Setting};
use std::fmt;

/// What an entry is.
#[derive(Clone, Copy, PartialEq, Eq, Debug)]
pub enum Kind {
    Table,
    SetUp,
    Start,
    Datagram,
    Tick,
    Settings,
    Ask,
    Answer,
    AskTick,
    Name,
}

/// An entry: its kind, and its length in octets with the head.
#[derive(Clone, Copy, PartialEq, Eq, Debug)]
pub struct Entry {
    pub kind: Kind,
    pub len: usize,
}

/// Why a run ends before the file does.
#[derive(Clone, Copy, PartialEq, Eq, Debug)]
pub enum Why {
    Cut,
    Short,
    Kind,
    Size,
    Long,
}

/// What most bodies begin with: the number of an interface, a time in milliseconds, an ID, and how
/// many octets of buffer are to be lent.
// Time and ID are fields of their own: `prefix_of` and `prefix_pieces` of specs, which may not
// change, have them so.
#[derive(Clone, Copy, PartialEq, Eq, Debug)]
pub struct Prefix {
    pub interface: u8,
    pub time: u64,
    pub id: u16,
    pub room: u32,
}

impl TryFrom<u16> for Kind {
    type Error = Why;

    ghost try_from_gives = { λ number result. result ≡ ok_or (kind_of number) KindWhy };

    #[tactic(auto, unfolding(crate::specs::Entries::kind_of))]
    fn try_from(number: u16) -> Result<Kind, Why> {
        match number {
            31 => Ok(Kind::Table),
            32 => Ok(Kind::SetUp),
            33 => Ok(Kind::Start),
            34 => Ok(Kind::Datagram),
            35 => Ok(Kind::Tick),
            40 => Ok(Kind::Settings),
            41 => Ok(Kind::Ask),
            42 => Ok(Kind::Answer),
            43 => Ok(Kind::AskTick),
            54 => Ok(Kind::Name),
            _ => Err(Why::Kind),
        }
    }
}

/// The word that stands in a line.
impl fmt::Display for Kind {
    ghost output = { λ kind. Some (name_of kind) };

    #[tactic(auto, unfolding(crate::specs::Pieces::name_of))]
    fn fmt<W: fmt::Write>(&self, f: &mut fmt::Formatter<W>) -> fmt::Result {
        match self {
            Kind::Table => write!(f, "table"),
            Kind::SetUp => write!(f, "set-up"),
            Kind::Start => write!(f, "start"),
            Kind::Datagram => write!(f, "datagram"),
            Kind::Tick => write!(f, "tick"),
            Kind::Settings => write!(f, "settings"),
            Kind::Ask => write!(f, "ask"),
            Kind::Answer => write!(f, "answer"),
            Kind::AskTick => write!(f, "ask-tick"),
            Kind::Name => write!(f, "name"),
        }
    }
}

/// The word that stands in the last line.
impl fmt::Display for Why {
    ghost output = { λ why. Some (word_for why) };

    fn fmt<W: fmt::Write>(&self, f: &mut fmt::Formatter<W>) -> fmt::Result {
        match self {
            Why::Cut => write!(f, "cut"),
            Why::Short => write!(f, "short"),
            Why::Kind => write!(f, "kind"),
            Why::Size => write!(f, "size"),
            Why::Long => write!(f, "long"),
        }
    }
}

impl Kind {
    // Whether a body of so many octets is one of this kind.
    fn is_sized(self, octets: usize) -> bool
        ensures { result ≡ is_sized self octets }
    {
        match self {
            Kind::Table => true,
            Kind::SetUp => octets == 91,
            Kind::Start => octets == 16,
            Kind::Datagram => 51 <= octets,
            Kind::Tick => octets == 15,
            Kind::Settings => octets == 76,
            Kind::Ask => 19 <= octets,
            Kind::Answer => 56 <= octets,
            Kind::AskTick => octets == 16,
            Kind::Name => 2 <= octets,
        }
    }

    // Whether an entry of this kind may have this octet after its prefix: where it is the number
    // of a slot, there is one.
    fn is_slot(self, octet: u8) -> bool
        ensures { result ≡ is_slot self octet }
    {
        match self {
            Kind::Ask | Kind::Answer | Kind::AskTick => usize::from(octet) < Entry::SLOTS,
            _ => true,
        }
    }
}

impl Entry {
    /// Octets of a file at the most.
    pub const FILE: usize = 262144;

    /// Octets of an entry before its body.
    pub const HEAD: usize = 4;

    /// Octets of the buffer lent to a call at the most.
    pub const ROOM: usize = 65536;

    /// Slots, each of which holds a lookup.
    pub const SLOTS: usize = 4;

    /// Octets of a prefix.
    pub const PREFIX: usize = 15;

    /// Octets of an address.
    pub const ADDRESS: usize = 17;

    /// Reads the entry at the start of what is left of a file.
    ///
    /// # Errors
    ///
    /// Why no entry stands there.
    #[tactic(auto, unfolding(crate::specs::Entries::entry_at, crate::specs::Entries::sized_entry))]
    pub fn read(rest: &[u8]) -> Result<Entry, Why>
        ensures value { result ≡ entry_at rest.now }
        ensures head { IfOk result (λ e. Entry.HEAD ≤ e.len) }
        ensures end { IfOk result (λ e. e.len ≤ length rest.now) }
    {
        let [low, high, kind_low, kind_high, ..] = rest else {
            return Err(Why::Cut);
        };
        let len = usize::from(u16::from_le_bytes([*low, *high]));
        if rest.len() < len {
            return Err(Why::Cut);
        }
        if len < Entry::HEAD {
            return Err(Why::Short);
        }
        let kind = Kind::try_from(u16::from_le_bytes([*kind_low, *kind_high]))?;
        let slot = octets::octet(rest, Entry::HEAD + Entry::PREFIX);
        if kind.is_sized(len - Entry::HEAD) && kind.is_slot(slot) {
            Ok(Entry { kind, len })
        } else {
            Err(Why::Size)
        }
    }
}

// As many octets as are asked for, from an offset on: zeros past the end.
#[tactic(auto, using(crate::proofs::EntryLaws::octets_read))]
fn octets_at<const N: usize>(s: &[u8], at: usize) -> [u8; N]
    ensures { (i : ℕ) → i < N → get_or result i 0 ≡ octet_at s.now (at + i) }
{
    let rest = octets::part(s, at, s.len());
    let mut octets = [0; N];
    octets::put_octets(&mut octets, 0, octets::part(rest, 0, rest.len().min(N)));
    octets
}

impl Prefix {
    /// The prefix that a body begins with.
    pub fn read(body: &[u8]) -> Prefix
        ensures { result ≡ prefix_of body.now }
    {
        Prefix {
            interface: octets::octet(body, 0),
            time: u64::from_le_bytes(octets_at(body, 1)),
            id: octets::little(body, 9),
            room: u32::from_le_bytes(octets_at(body, 11)),
        }
    }

    /// The octets lent to a call: as many as it asks for, or as there are.
    pub fn room(&self) -> usize
        ensures { result ≡ min self.now.room Entry.ROOM }
    {
        (self.room as usize).min(Entry::ROOM)
    }

    /// The time and the ID of a call.
    pub fn moment(&self) -> Moment
        ensures { result ≡ record { time = self.now.time; id = self.now.id } }
    {
        Moment {
            time: self.time,
            id: self.id,
        }
    }
}

// The address at an offset of a body. Octets that do not stand there whole count as zeros.
fn address_at(body: &[u8], at: u16) -> Address
    ensures { result ≡ address_at body.now at }
{
    let at = usize::from(at);
    let mut octets = [0; Address::IPV6_OCTETS];
    octets::put_octets(
        &mut octets,
        0,
        octets::part(body, at + 1, at + Entry::ADDRESS),
    );
    Address {
        family: octets::octet(body, at),
        octets,
    }
}

// The settings of an interface at an offset of a body.
fn setting_at(body: &[u8], at: u16) -> Setting
    ensures { result ≡ setting_at body.now at }
{
    let Address { family, octets } = address_at(body, at);
    Setting {
        family,
        address: octets,
        interval: octets::little(body, usize::from(at) + Entry::ADDRESS),
    }
}

/// What stands after the prefix of a set-up or a datagram: the settings, or where it comes from.
pub fn after_prefix(body: &[u8]) -> &[u8]
    ensures { result.now ≡ part_of body.now 15 (length body.now) }
{
    octets::part(body, Entry::PREFIX, body.len())
}

/// What stands in a datagram to a lookup after the prefix, the slot, and the room of the cache,
/// which is not read.
pub fn after_slot(body: &[u8]) -> &[u8]
    ensures { result.now ≡ part_of body.now 20 (length body.now) }
{
    octets::part(body, 20, body.len())
}

/// The settings of the four interfaces.
pub fn settings(s: &[u8]) -> [Setting; Setting::COUNT]
    ensures { result ≡ settings_of s.now }
{
    [
        setting_at(s, 0),
        setting_at(s, 19),
        setting_at(s, 38),
        setting_at(s, 57),
    ]
}

/// The number of the name that a start names.
pub fn started_name(body: &[u8]) -> usize
    ensures { result ≡ octet_at body.now 15 }
{
    usize::from(octets::octet(body, Entry::PREFIX))
}

/// A datagram, with where it comes from and where it was sent.
pub fn arrival(s: &[u8]) -> Arrival<'_>
    ensures from { result.from ≡ source_of s.now }
    ensures to { result.to ≡ address_at s.now 19 }
    ensures datagram { result.datagram.now ≡ part_of s.now 36 (length s.now) }
{
    Arrival {
        from: Endpoint {
            address: address_at(s, 0),
            port: octets::little(s, 17),
        },
        to: address_at(s, 19),
        datagram: octets::part(s, 36, s.len()),
    }
}

/// The slot that an entry names. A number that is none counts as 0, and no entry that was read has
/// one.
// No Option: `slot_of` of specs/Entries, which may not change, gives 0 too.
// It and `checks::slot` differ in what they read and in the count: one for both would be handed the
// number and the count, and is no plainer.
pub fn slot(body: &[u8]) -> usize
    ensures value { result ≡ slot_of body.now }
    ensures upper_bound { result < slots }
{
    let k = usize::from(octets::octet(body, Entry::PREFIX));
    if k < Entry::SLOTS { k } else { 0 }
}

/// What is looked up. The name may have several labels if the octet after the slot is not 0.
pub fn asked(body: &[u8]) -> Asked<'_>
    ensures name { result.name.now ≡ part_of body.now 19 (length body.now) }
    ensures qtype { result.qtype ≡ little_at body.now 17 }
    ensures permission { result.permission ≡ not (eqb (octet_at body.now 16) 0) }
{
    Asked {
        name: octets::part(body, 19, body.len()),
        qtype: octets::little(body, 17),
        permission: octets::octet(body, 16) != 0,
    }
}
