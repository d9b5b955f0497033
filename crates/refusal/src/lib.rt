// Refusals. The algebra of checks made in order stands in specs/Checks.antt.
#![tactic(auto)]

ghost use Rattle.std.specs.Prelude.{◌≡◌, Some};
ghost use Rattle.refusal.specs.Numbers.{number_of};
ghost use Rattle.refusal.specs.Texts.{text_of};

use std::error::Error;
use std::fmt;

/// Why a call was refused, in the order of the refusals' numbers.
#[derive(Clone, Copy, PartialEq, Eq, Debug)]
pub enum Refusal {
    Room,
    /// With the offset in octets of the table's first bad entry.
    Table { at: usize },
    Interface,
    Clock,
    Length,
    Address,
    Opcode,
    Rcode,
    Counts,
    Question,
    Class,
    NotOurs,
    Stopped,
    Notification,
    Unmatched,
    Own,
    Tentative,
    Records,
    Busy,
    Settings,
    TooSoon,
    SeveralLabels,
}

impl Refusal {
    /// The refusal's number, 1 to 22: rules N of docs/RULES.md.
    pub fn number(self) -> u8
        ensures { result ≡ number_of self }
    {
        // A match: one variant has data, so no cast gives the number, and nothing is plainer.
        match self {
            Refusal::Room => 1,
            Refusal::Table { .. } => 2,
            Refusal::Interface => 3,
            Refusal::Clock => 4,
            Refusal::Length => 5,
            Refusal::Address => 6,
            Refusal::Opcode => 7,
            Refusal::Rcode => 8,
            Refusal::Counts => 9,
            Refusal::Question => 10,
            Refusal::Class => 11,
            Refusal::NotOurs => 12,
            Refusal::Stopped => 13,
            Refusal::Notification => 14,
            Refusal::Unmatched => 15,
            Refusal::Own => 16,
            Refusal::Tentative => 17,
            Refusal::Records => 18,
            Refusal::Busy => 19,
            Refusal::Settings => 20,
            Refusal::TooSoon => 21,
            Refusal::SeveralLabels => 22,
        }
    }
}

/// The refusal's number.
impl From<Refusal> for u8 {
    ghost from_gives = { λ refusal number. number ≡ number_of refusal };

    fn from(refusal: Refusal) -> u8 {
        refusal.number()
    }
}

/// The refusal in a few plain words.
impl fmt::Display for Refusal {
    ghost output = { λ refusal. Some (text_of refusal) };

    fn fmt<W: fmt::Write>(&self, f: &mut fmt::Formatter<W>) -> fmt::Result {
        match self {
            Refusal::Room => write!(f, "the buffer is too short"),
            Refusal::Table { at } => write!(f, "the table is bad at octet {at}"),
            Refusal::Interface => write!(f, "the interface is unused"),
            Refusal::Clock => write!(f, "the time is too early or too late"),
            Refusal::Length => write!(f, "the datagram is too short or too long"),
            Refusal::Address => write!(f, "an address is of another family or of the wrong kind"),
            Refusal::Opcode => write!(f, "the opcode is not 0"),
            Refusal::Rcode => write!(f, "the response code is not 0"),
            Refusal::Counts => write!(f, "a count in the header is wrong"),
            Refusal::Question => write!(f, "the question or the name is bad"),
            Refusal::Class => write!(f, "the class is not that of the Internet"),
            Refusal::NotOurs => write!(f, "the name is not ours"),
            Refusal::Stopped => write!(f, "the name is stopped"),
            Refusal::Notification => write!(f, "nobody here is to be notified of the conflict"),
            Refusal::Unmatched => write!(f, "nothing waits for the response"),
            Refusal::Own => write!(f, "the response comes from one of our addresses"),
            Refusal::Tentative => write!(f, "the response is tentative"),
            Refusal::Records => write!(f, "a record of the response is bad"),
            Refusal::Busy => write!(f, "the name is in use already"),
            Refusal::Settings => write!(f, "the settings are bad"),
            Refusal::TooSoon => write!(f, "the name may not start again yet"),
            Refusal::SeveralLabels => write!(f, "the name has several labels"),
        }
    }
}

impl Error for Refusal {}
