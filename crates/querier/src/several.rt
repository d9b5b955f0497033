// Names of several labels: which of them a lookup asks for without permission. Check 22.
ghost use Rattle.std.specs.Prelude.{◌≡◌, ◌+◌, drop};
ghost use Rattle.octets.specs.Octets.{octet_at};
ghost use Rattle.lookup.specs.SeveralLabels.{after_labels, is_reverse, several_labels};

// The octets after a label: none where there is none.
fn after_label(octets: &[u8]) -> &[u8]
    ensures { result.now ≡ drop (1 + octet_at octets.now 0) octets.now }
{
    match octets {
        [length, rest @ ..] => rest.get(usize::from(*length)..).unwrap_or_default(),
        [] => octets,
    }
}

// The octets of a name after its first labels, so many.
#[tactic(auto, using(crate::proofs::NameLaws::after_one), unfolding(lookup::specs::SeveralLabels::after_labels))]
fn after_labels(name: &[u8], labels: usize) -> &[u8]
    ensures { result.now ≡ after_labels labels name.now }
{
    let mut rest = name;
    for _ in 0..labels {
        rest = after_label(rest);
    }
    rest
}

// Whether in a name of so many labels one or more stand before in-addr.arpa or ip6.arpa.
#[tactic(auto, unfolding(lookup::specs::SeveralLabels::is_reverse))]
fn is_reverse(name: &[u8], labels: usize) -> bool
    ensures { result ≡ is_reverse name.now labels }
{
    // An exit first, since what follows takes away 2: one long condition is no plainer.
    if labels < 3 {
        return false;
    }
    let last = after_labels(name, labels - 2);
    names::same_name(last, b"\x07in-addr\x04arpa\x00")
        || names::same_name(last, b"\x03ip6\x04arpa\x00")
}

// Whether a name of so many labels is not asked for: two or more, no permission, and no reverse
// name.
pub(crate) fn is_barred(permission: bool, name: &[u8], labels: usize) -> bool
    ensures { result ≡ several_labels permission name.now labels }
{
    labels >= 2 && !permission && !is_reverse(name, labels)
}
