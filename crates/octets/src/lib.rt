// Octets in slices, 16-bit words, and addresses. Every function is total: an octet past the end
// reads as 0, and a write that does not fit changes nothing.
#![tactic(auto)]

ghost use Rattle.std.specs.Prelude.{◌≡◌, ◌+◌, ◌≤◌, [], ◌∷◌, length};
ghost use Rattle.octets.specs.Octets.{octet_at, runs_past, part_of, splice, put};
ghost use Rattle.octets.specs.Words.{big_at, little_at, big_octets, little_octets};
ghost use Rattle.octets.specs.Addresses.{is_family, used_octets, same_address, below_address, group_of, group_endpoint, is_group, address_of, has_address, is_ours};

/// Whether `n` octets from the offset `at` on run past the end of a slice of `size` octets.
pub fn runs_past(size: usize, at: usize, n: usize) -> bool
    ensures { result ≡ runs_past size at n }
{
    size < at || size - at < n
}

/// The octets of `s` from `a` up to `e`; none where these are not the bounds of a part.
#[tactic(auto, unfolding(crate::specs::Octets::part_of))]
pub fn part(s: &[u8], a: usize, e: usize) -> &[u8]
    ensures { result.now ≡ part_of s.now a e }
{
    s.get(a..e).unwrap_or(&[])
}

/// The octet at an offset.
pub fn octet(s: &[u8], at: usize) -> u8
    ensures { result ≡ octet_at s.now at }
{
    s.get(at).copied().unwrap_or(0)
}

fn pair(s: &[u8], at: usize) -> [u8; 2]
    ensures { result ≡ octet_at s.now at ∷ octet_at s.now (at + 1) ∷ [] }
{
    let rest = s.get(at..).unwrap_or(&[]);
    [octet(rest, 0), octet(rest, 1)]
}

/// The big-endian word at an offset.
pub fn big(s: &[u8], at: usize) -> u16
    ensures { result ≡ big_at s.now at }
{
    u16::from_be_bytes(pair(s, at))
}

/// The little-endian word at an offset.
pub fn little(s: &[u8], at: usize) -> u16
    ensures { result ≡ little_at s.now at }
{
    u16::from_le_bytes(pair(s, at))
}

/// Writes a big-endian word at an offset.
pub fn put_big(s: &mut [u8], at: usize, v: u16)
    ensures { s.new ≡ put s.old at (big_octets v) }
{
    put_octets(s, at, &v.to_be_bytes());
}

/// Writes a little-endian word at an offset.
pub fn put_little(s: &mut [u8], at: usize, v: u16)
    ensures { s.new ≡ put s.old at (little_octets v) }
{
    put_octets(s, at, &v.to_le_bytes());
}

fn copy(out: &mut [u8], src: &[u8])
    requires { length src.now ≤ length out.old }
    ensures { out.new ≡ splice out.old 0 src.now }
{
    // A loop, since `copy_from_slice` calls `memmove`: by README the library for C needs nothing
    // but `memcpy` and `memset`.
    for (i, octet) in src.iter().enumerate() {
        out[i] = *octet;
    }
}

/// Copies octets into the part of a buffer that starts at an offset, if they fit there.
#[tactic(auto, unfolding(crate::specs::Octets::put, crate::specs::Octets::splice))]
pub fn put_octets(out: &mut [u8], at: usize, src: &[u8])
    ensures { out.new ≡ put out.old at src.now }
{
    if !runs_past(out.len(), at, src.len()) {
        copy(&mut out[at..], src);
    }
}

/// An address: its family is 4 or 6. Family 4 uses the first four octets.
// The family is a number and no enum, and there are always 16 octets: C fills these structs, and
// any other number means unused.
#[repr(C)]
#[derive(Clone, Copy, Debug, Default)]
pub struct Address {
    pub family: u8,
    pub octets: [u8; Address::IPV6_OCTETS],
}

/// An address and a UDP port.
#[repr(C)]
#[derive(Clone, Copy, PartialEq, Eq, Debug, Default)]
pub struct Endpoint {
    pub address: Address,
    pub port: u16,
}

/// The settings of one interface: its family (any other than 4 or 6: unused), address, and repeat
/// interval in milliseconds. Settings are equal if every field is, with the octets that the family
/// does not use.
// The family is a number here too: the C interface.
#[repr(C)]
#[derive(Clone, Copy, PartialEq, Eq, Debug, Default)]
pub struct Setting {
    pub family: u8,
    pub address: [u8; Address::IPV6_OCTETS],
    pub interval: u16,
}

impl Address {
    pub const IPV4: u8 = 4;

    pub const IPV6: u8 = 6;

    pub const IPV4_OCTETS: usize = 4;

    pub const IPV6_OCTETS: usize = 16;

    // The octets that the address's family uses.
    fn used(&self) -> &[u8]
        ensures { result.now ≡ used_octets self.now }
    {
        if self.family == Address::IPV4 {
            &self.octets[..Address::IPV4_OCTETS]
        } else {
            &self.octets
        }
    }
}

impl Endpoint {
    pub const PORT: u16 = 5355;
}

impl Setting {
    pub const COUNT: usize = 4;

    /// The interface's own address.
    pub fn own(&self) -> Address
        ensures { result ≡ address_of self.now }
    {
        Address {
            family: self.family,
            octets: self.address,
        }
    }

    #[tactic(auto, unfolding(crate::specs::Addresses::has_address))]
    fn has_address(&self, a: Address) -> bool
        ensures { result ≡ has_address self.now a }
    {
        is_family(self.family) && same_address(a, self.own())
    }
}

/// Whether a family, the number of an Address, is that of a used interface.
pub fn is_family(family: u8) -> bool
    ensures { result ≡ is_family family }
{
    family == Address::IPV4 || family == Address::IPV6
}

/// Addresses are equal if their families are, and the octets that the family uses.
impl PartialEq for Address {
    ghost use Rattle.std.specs.Prelude.{◌==◌, ◌∷◌};
    ghost use Rattle.std.specs.Ordering.{on};
    ghost use Rattle.std.specs.Cmp.{partial_equiv_from_equiv};
    ghost use Rattle.std.specs.Cmp.Lexicographic.{pointwise, on_texts_equal};
    ghost use Rattle.octets.specs.Addresses.{used_octets};

    ghost eq = { on (λ a. a.family ∷ used_octets a) (pointwise ◌==◌) };

    ghost laws = { partial_equiv_from_equiv (on_texts_equal (λ a. a.family ∷ used_octets a)) };

    fn eq(&self, other: &Address) -> bool {
        self.family == other.family && self.used() == other.used()
    }
}

impl Eq for Address {
    ghost use Rattle.std.specs.Prelude.{◌∷◌};
    ghost use Rattle.std.specs.Cmp.Lexicographic.{on_texts_equal};
    ghost use Rattle.octets.specs.Addresses.{used_octets};

    ghost laws = { on_texts_equal (λ a. a.family ∷ used_octets a) };
}

/// Whether two addresses are the same in the octets that their family uses.
// Beside `==`: a public function, which may not change; docs/PROMISES.md names it.
#[tactic(auto, using(crate::proofs::Comparisons::address_is))]
pub fn same_address(a: Address, b: Address) -> bool
    ensures { result ≡ same_address a b }
{
    a == b
}

/// Whether an address is below another of its family, octet by octet.
// No PartialOrd: a public function, which may not change; docs/PROMISES.md names it.
#[tactic(auto, using(crate::proofs::Comparisons::below_is, crate::proofs::Comparisons::one_length), unfolding(crate::specs::Addresses::below_address))]
pub fn below_address(a: Address, b: Address) -> bool
    ensures { result ≡ below_address a b }
{
    a.family == b.family && a.used() < b.used()
}

/// The group address of a family, the number of an Address.
#[tactic(auto, unfolding(crate::specs::Addresses::group_of))]
pub fn group_of(family: u8) -> Address
    ensures { result ≡ group_of family }
{
    let octets = if family == Address::IPV4 {
        *b"\xe0\x00\x00\xfc\x00\x00\x00\x00\x00\x00\x00\x00\x00\x00\x00\x00"
    } else {
        *b"\xff\x02\x00\x00\x00\x00\x00\x00\x00\x00\x00\x00\x00\x01\x00\x03"
    };
    Address { family, octets }
}

/// Whether an address is the group address of its family.
#[tactic(auto, unfolding(crate::specs::Addresses::is_group))]
pub fn is_group(a: Address) -> bool
    ensures { result ≡ is_group a }
{
    is_family(a.family) && same_address(a, group_of(a.family))
}

/// Where a query goes: the group of a family, the number of an Address, and LLMNR's port.
#[tactic(auto, unfolding(crate::specs::Addresses::group_endpoint))]
pub fn group_endpoint(family: u8) -> Endpoint
    ensures { result ≡ group_endpoint family }
{
    Endpoint {
        address: group_of(family),
        port: Endpoint::PORT,
    }
}

/// Whether an address is that of a used interface.
#[tactic(auto, unfolding(crate::specs::Addresses::ours_among))]
pub fn is_ours(settings: [Setting; Setting::COUNT], a: Address) -> bool
    ensures { result ≡ is_ours settings a }
{
    settings.iter().any(|setting| setting.has_address(a))
}
