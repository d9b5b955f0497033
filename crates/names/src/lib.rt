// Domain names where they stand in a slice of octets.
#![tactic(auto)]

ghost use Rattle.std.specs.Prelude.{◌≡◌, ◌+◌, ◌≤◌, ◌<◌, length, fold, true};
ghost use Rattle.std.specs.List.{zip, list_all};
ghost use Rattle.octets.specs.Octets.{octet_at, put, splice};
ghost use Rattle.octets.specs.Tests.{◌and◌};
ghost use Rattle.names.specs.Bounds.{longest_name, most_pointers, pointer_mark};
ghost use Rattle.names.specs.Folding.{folded, same_name, alike, alike_octets};
ghost use Rattle.names.specs.NameWalk.{name_at};
ghost use Rattle.names.specs.RecordNameWalk.{turn_at, pointer_turn, goes_on, walk_at, turns};
ghost use Rattle.names.specs.RecordNameWalk.{labels_taken, record_name_from, record_name_at};
ghost use Rattle.names.specs.RecordNameWalk.{expanded_from, expanded_at};
ghost use Rattle.names.specs.Comparison.{is_end, ends_from, same_record_name};

/// A name without pointers: its octets with the zero octet, and its labels.
// Not a part of RecordName: `name_at` of specs/NameWalk, which may not change, gives these two.
#[derive(Clone, Copy, PartialEq, Eq, Debug)]
pub struct Name {
    pub len: usize,
    pub labels: usize,
}

impl Name {
    /// The most octets of a label.
    pub const LABEL: usize = 63;

    /// The most octets of a name, with its length octets and the zero octet.
    pub const LONGEST: usize = 255;

    // From so many octets on, comparing many at once is quicker than comparing one by one.
    const MANY: usize = 8;
}

/// Reads the name without pointers at an offset.
#[tactic(auto, using(crate::proofs::NameWalk::name_turns))]
pub fn read_name(s: &[u8], at: usize) -> Option<Name>
    ensures { result ≡ name_at s.now at }
{
    let mut p = at;
    let mut len = 0;
    let mut labels = 0;
    // A while loop: the offset moves by each label's length, so no range or iterator is plainer.
    while p < s.len() {
        match usize::from(s[p]) {
            0 => {
                return Some(Name {
                    len: len + 1,
                    labels,
                });
            }
            count @ ..=Name::LABEL => {
                len += 1 + count;
                if len >= Name::LONGEST {
                    return None;
                }
                p += 1 + count;
                labels += 1;
            }
            _ => return None,
        }
    }
    None
}

/// An octet with 65..90 raised by 32.
#[tactic(auto, unfolding(crate::specs::Folding::folded))]
pub fn fold(c: u8) -> u8
    ensures { result ≡ folded c }
{
    c.to_ascii_lowercase()
}

// Whether the octets that two slices have side by side are equal under folding. There is no early
// exit: the loop then runs on many octets at once. Tried: `all` and `eq_ignore_ascii_case`, which
// exit early, slower, with 466 instructions to 104 for 28 octets.
fn same_beside(a: &[u8], b: &[u8]) -> bool
    ensures { result ≡ fold alike true (zip a.now b.now) }
{
    a.iter()
        .zip(b)
        .fold(true, |same, (x, y)| same & (fold(*x) == fold(*y)))
}

/// Whether two names, each the whole of its slice, are equal under folding.
#[tactic(auto, using(crate::proofs::Folding::beside))]
pub fn same_name(a: &[u8], b: &[u8]) -> bool
    ensures { result ≡ same_name a.now b.now }
{
    a.len() == b.len() && same_beside(a, b)
}

/// The name in a record: the offset after it, the octets of the expanded name, the pointers
/// followed, and the labels taken.
// An offset, and no slice: `record_name_at` of specs/RecordNameWalk, which may not change, gives
// it.
#[derive(Clone, Copy, PartialEq, Eq, Debug)]
pub struct RecordName {
    pub next: usize,
    pub len: usize,
    pub pointers: usize,
    pub labels: usize,
}

impl RecordName {
    /// The most pointers that are followed in one name.
    pub const POINTERS: usize = 16;

    /// The least target of a pointer: the octet after the header.
    pub const LEAST_TARGET: usize = 12;

    /// A length octet from here on has its top two bits set.
    pub const POINTER: usize = 0xC0;
}

/// Where a record's name is being read: the offset, where the current run of labels began, the
/// pointers followed, the octets of the expanded name so far, and where reading goes on after the
/// first pointer.
// No invariant on its numbers, and no slices: the definitions of specs/RecordNameWalk, which may
// not change, speak of every walk.
#[derive(Clone, Copy, PartialEq, Eq, Debug)]
pub struct Walk {
    pub at: usize,
    pub run: usize,
    pub pointers: usize,
    pub len: usize,
    pub next: usize,
}

/// What a turn of reading meets: a label or a pointer, after which reading goes on, the zero octet,
/// or none of these.
// No Option around two variants: a match with three arms would become a match in a match.
#[derive(Clone, Copy, PartialEq, Eq, Debug)]
pub enum Turn {
    More(Walk),
    End(RecordName),
    Wrong,
}

// Where reading goes on after the name: after its first pointer, else at p.
fn goes_on(w: Walk, p: usize) -> usize
    ensures { result ≡ goes_on w p }
{
    if w.pointers == 0 { p } else { w.next }
}

impl Walk {
    fn start(at: usize) -> Self
        ensures { result ≡ walk_at at }
    {
        Walk {
            at,
            run: at,
            pointers: 0,
            len: 0,
            next: 0,
        }
    }
}

// The turn at a pointer's first octet.
fn pointer_turn(s: &[u8], w: Walk) -> Turn
    requires { (w.at < length s.now) × (pointer_mark ≤ octet_at s.now w.at) }
    ensures { result ≡ pointer_turn s.now w }
{
    if s.len() <= w.at + 1 {
        return Turn::Wrong;
    }
    // A subtraction and no mask: so says `target` of specs/RecordNameWalk, which may not change.
    let to = usize::from(octets::big(s, w.at)) - RecordName::POINTER * 256;
    if to < RecordName::LEAST_TARGET || w.run <= to || RecordName::POINTERS <= w.pointers {
        return Turn::Wrong;
    }
    Turn::More(Walk {
        at: to,
        run: to,
        pointers: w.pointers + 1,
        next: goes_on(w, w.at + 2),
        ..w
    })
}

// One turn of reading: the zero octet, which is no label, a label, a pointer, or none of these.
#[tactic(auto, unfolding(crate::specs::RecordNameWalk::turn_at))]
fn next_turn(s: &[u8], w: Walk) -> Turn
    requires { w.len < longest_name }
    ensures { result ≡ turn_at s.now w }
{
    if s.len() <= w.at {
        return Turn::Wrong;
    }
    match usize::from(s[w.at]) {
        0 => Turn::End(RecordName {
            next: goes_on(w, w.at + 1),
            len: w.len + 1,
            pointers: w.pointers,
            labels: 0,
        }),
        count @ ..=Name::LABEL if w.len + 1 + count < Name::LONGEST => Turn::More(Walk {
            at: w.at + 1 + count,
            len: w.len + 1 + count,
            ..w
        }),
        RecordName::POINTER.. => pointer_turn(s, w),
        _ => Turn::Wrong,
    }
}

// The labels taken, with the one of a turn from w to v: a turn that follows no pointer takes a
// label.
fn labels_after(labels: usize, w: Walk, v: Walk) -> usize
    requires { labels < longest_name }
    ensures { result ≡ labels + labels_taken w v }
{
    labels + usize::from(v.pointers == w.pointers)
}

// Reads on from a walk to the end of the name; the labels are those from there on.
#[tactic(auto, using(crate::proofs::RecordNameWalk::come))]
fn read_from(s: &[u8], from: Walk) -> Option<RecordName>
    requires { (from.len < longest_name) × (from.pointers ≤ most_pointers) }
    ensures { result ≡ record_name_from turns s.now from }
{
    let mut w = from;
    let mut labels: usize = 0;
    // A loop: each turn tells where the next one is, so no range or iterator is plainer.
    loop {
        match next_turn(s, w) {
            Turn::More(v) => {
                labels = labels_after(labels, w, v);
                w = v;
            }
            Turn::End(r) => return Some(RecordName { labels, ..r }),
            Turn::Wrong => return None,
        }
    }
}

/// Reads the name at an offset of a record.
pub fn read_record_name(s: &[u8], at: usize) -> Option<RecordName>
    ensures { result ≡ record_name_at s.now at }
{
    read_from(s, Walk::start(at))
}

// Copies the labels of the name at an offset, and its zero octet, to the start of a buffer that has
// room.
#[tactic(auto, using(crate::proofs::Expansion::copied_start))]
fn copy_labels(s: &[u8], at: usize, out: &mut [u8])
    requires { length (expanded_from turns s.now (walk_at at)) ≤ length out.old }
    ensures { out.new ≡ splice out.old 0 (expanded_from turns s.now (walk_at at)) }
{
    let mut w = Walk::start(at);
    let mut used: usize = 0;
    // A loop, as in read_from.
    loop {
        match next_turn(s, w) {
            Turn::More(v) => {
                let label = octets::part(s, w.at, w.at + (v.len - w.len));
                octets::put_octets(out, used, label);
                used += label.len();
                w = v;
            }
            Turn::End(_) => {
                octets::put_octets(out, used, b"\x00");
                return;
            }
            Turn::Wrong => return,
        }
    }
}

/// Reads the name at an offset of a record, and writes the expanded name at the start of a buffer
/// if it fits.
#[tactic(auto, using(crate::proofs::Expansion::expanded))]
pub fn expand_name(s: &[u8], at: usize, out: &mut [u8]) -> Option<RecordName>
    ensures value { result ≡ record_name_at s.now at }
    ensures out_after { out.new ≡ put out.old 0 (expanded_at s.now at) }
{
    let read = read_record_name(s, at)?;
    if read.len <= out.len() {
        copy_labels(s, at, out);
    }
    Some(read)
}

// Whether the octets that two slices have side by side are equal under folding. Octets that are
// equal as they are, which is what most traffic has, are not folded. It is same_beside with an
// early exit, which is quicker at few octets.
fn same_octets(l: &[u8], m: &[u8]) -> bool
    ensures { result ≡ list_all alike_octets (zip l.now m.now) }
{
    l.iter().zip(m).all(|(x, y)| x == y || fold(*x) == fold(*y))
}

// Whether two labels, each with its length, are equal under folding.
#[tactic(auto, using(crate::proofs::Folding::beside))]
fn same_label(l: &[u8], m: &[u8]) -> bool
    ensures { result ≡ same_name l.now m.now }
{
    if l.len() < Name::MANY {
        l.len() == m.len() && same_octets(l, m)
    } else {
        same_name(l, m)
    }
}

// Whether of a name only the zero octet is left, from a walk on.
fn at_root(s: &[u8], w: Walk) -> bool
    requires { (w.len < longest_name) × (w.pointers ≤ most_pointers) }
    ensures { result ≡ ends_from s.now w }
{
    read_from(s, w).is_some_and(|r| r.len == w.len + 1)
}

// Whether two names end alike: the one at a turn that does not go on, the other from a walk on.
fn end_alike(turn: Turn, s: &[u8], w: Walk) -> bool
    requires { (w.len < longest_name) × (w.pointers ≤ most_pointers) }
    ensures { result ≡ (is_end turn and ends_from s.now w) }
{
    matches!(turn, Turn::End(_)) && at_root(s, w)
}

/// Whether the names at two offsets are equal, each with or without pointers, in one message or
/// two. They are compared where they stand, side by side: a turn follows a pointer of the one or of
/// the other, or compares a label of both.
// Names are no values here: equality of a type is no plainer for octets that stand in a message.
#[tactic(auto, using(crate::proofs::SideBySide::compared))]
pub fn same_record_name(s: &[u8], p: usize, t: &[u8], q: usize) -> bool
    ensures { result ≡ same_record_name s.now p t.now q }
{
    let mut a = Walk::start(p);
    let mut b = Walk::start(q);
    // A loop: now the one walk moves, now the other, now both, so no iterator is plainer.
    loop {
        let x = next_turn(s, a);
        let Turn::More(v) = x else {
            return end_alike(x, t, b);
        };
        if v.pointers != a.pointers {
            a = v;
            continue;
        }
        let Turn::More(u) = next_turn(t, b) else {
            return false;
        };
        if u.pointers != b.pointers {
            b = u;
            continue;
        }
        let label = octets::part(s, a.at, v.at);
        let other = octets::part(t, b.at, u.at);
        if !same_label(label, other) {
            return false;
        }
        a = v;
        b = u;
    }
}
