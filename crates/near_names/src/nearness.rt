//! Names that are near to a text.

ghost use Rattle.std.specs.Prelude.{◌≡◌, ◌+◌, ◌&&◌, false, length, map, nat_le, Some, None, if◌then◌else◌};
ghost use Rattle.std.specs.Option.{option_map, option_or};
ghost use Rattle.near_names.specs.Names.{near_name, is_close, is_in_capitals, capital, is_near, is_exchanged};
ghost use Rattle.near_names.specs.declared.nearness.Closeness.TheVariants.{AsLong, InCapitals, Near};

/// How close a name is to a text.
#[derive(Clone, Copy, Drop)]
pub(crate) enum Closeness {
    /// It is the text in capitals.
    InCapitals,
    /// It is near, and as long.
    AsLong,
    /// It is near.
    Near,
}

/// The fewest bytes of a text for which names that are near are sought.
pub(crate) const SHORTEST: usize = 3;

/// The first of some names that is a text in capitals; else, for a text of three bytes or more, one that is near, as
/// long where there is one.
#[tactic(auto, using(crate::proofs::NearNames::sought_steps))]
pub fn near_in(names: &[&'static str], text: &[u8]) -> Option<&'static [u8]>
    ensures { option_map (λ name. name.now) result ≡ near_name (map (λ name. name.now) names.now) text.now }
{
    let mut as_long = None;
    let mut near = None;
    for name in names {
        let name = name.as_bytes();
        if may_be_close(text, name) {
            if is_close(Closeness::InCapitals, text, name) {
                return Some(name);
            }
            match as_long {
                None if is_close(Closeness::Near, text, name) => {
                    as_long = found_first(as_long, text.len() == name.len(), name);
                    near = found_first(near, true, name);
                }
                _ => {}
            }
        }
    }
    if text.len() < SHORTEST {
        return None;
    }
    match as_long {
        Some(name) => Some(name),
        None => near,
    }
}

// The name that was found, or else one, where it passes.
fn found_first(
    found: Option<&'static [u8]>,
    passes: bool,
    name: &'static [u8],
) -> Option<&'static [u8]>
    ensures { option_map (λ name. name.now) result
        ≡ option_or (option_map (λ name. name.now) found.entry) (if passes then Some name.now else None) }
{
    match found {
        Some(found) => Some(found),
        None if passes => Some(name),
        None => None,
    }
}

// Whether a name may be close to a text, by their lengths and their first three bytes.
#[inline(always)]
fn may_be_close(text: &[u8], name: &[u8]) -> bool
    ensures in_capitals { result ≡ false → is_close InCapitals text.now name.now ≡ false }
    ensures as_long { result ≡ false → is_close AsLong text.now name.now ≡ false }
    ensures near { result ≡ false → is_close Near text.now name.now ≡ false }
{
    text.len().abs_diff(name.len()) <= 1
        && (may_be_near(text, name) || may_be_in_capitals(text, name))
}

// Whether a name may be near to a text, by their first three bytes or their first two.
#[inline(always)]
fn may_be_near(text: &[u8], name: &[u8]) -> bool
    ensures { result ≡ false → is_near text.now name.now ≡ false }
{
    match (text, name) {
        ([a, b, ..], [d, e, ..]) if a != d && b != e && b != d && a != e => false,
        ([a, b, c, ..], [d, e, f, ..]) if a != d && c != f && c != e && b != f => false,
        ([_, b, c, ..], [_, e, f, ..]) if b != e && c != f && c != e && b != f => false,
        _ => true,
    }
}

// Whether a text may be a name in capitals, by their first two bytes.
#[inline(always)]
fn may_be_in_capitals(text: &[u8], name: &[u8]) -> bool
    ensures { result ≡ false → is_in_capitals text.now name.now ≡ false }
{
    match (text, name) {
        ([a, b, ..], [d, e, ..]) => capital(*a) == *d && capital(*b) == *e,
        _ => true,
    }
}

/// Whether a name is close to a text.
pub(crate) fn is_close(closeness: Closeness, text: &[u8], name: &[u8]) -> bool
    ensures { result ≡ is_close closeness text.now name.now }
{
    match closeness {
        Closeness::InCapitals => text.len() == name.len() && is_in_capitals(text, name),
        Closeness::AsLong => text.len() == name.len() && is_near_where_it_begins(text, name),
        Closeness::Near => is_about_as_long(text, name) && is_near_where_it_begins(text, name),
    }
}

// Whether a name is near to a text: most are not by their first three bytes alone.
fn is_near_where_it_begins(text: &[u8], name: &[u8]) -> bool
    ensures { result ≡ is_near text.now name.now }
{
    may_be_near(text, name) && is_near(text, name)
}

// Whether a text has one byte more than a name at most, and one less at least.
fn is_about_as_long(text: &[u8], name: &[u8]) -> bool
    ensures { result ≡ (nat_le (length text.now) (length name.now + 1)
        && nat_le (length name.now) (length text.now + 1)) }
{
    text.len().abs_diff(name.len()) <= 1
}

/// Whether a text in capitals is a name.
pub fn is_in_capitals(text: &[u8], name: &[u8]) -> bool
    ensures { result ≡ is_in_capitals text.now name.now }
{
    match (text.split_first(), name.split_first()) {
        (None, None) => true,
        (Some((byte, rest)), Some((other, others))) if capital(*byte) == *other => {
            is_in_capitals(rest, others)
        }
        _ => false,
    }
}

fn capital(byte: u8) -> u8
    ensures { result ≡ capital byte }
{
    if byte.is_ascii_lowercase() {
        byte - 0o40
    } else {
        byte
    }
}

// Whether one byte of a text differs from a name, or is one too many in either; or two beside one another are
// exchanged.
fn is_near(text: &[u8], name: &[u8]) -> bool
    ensures { result ≡ is_near text.now name.now }
{
    match (text.split_first(), name.split_first()) {
        (None, _) => name.len() == 1,
        (_, None) => text.len() == 1,
        (Some((a, rest)), Some((b, others))) if a == b => is_near(rest, others),
        (Some((_, rest)), Some((_, others))) => {
            rest == others || rest == name || text == others || is_exchanged(text, name)
        }
    }
}

// Whether the first two bytes of two texts are exchanged, and the others the same.
fn is_exchanged(text: &[u8], name: &[u8]) -> bool
    ensures { result ≡ is_exchanged text.now name.now }
{
    match (text, name) {
        ([a, b, rest @ ..], [c, d, others @ ..]) => a == d && b == c && rest == others,
        _ => false,
    }
}
