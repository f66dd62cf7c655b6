//! Descriptors and sections.

ghost use Rattle.std.specs.Prelude.{◌≡◌, ◌<◌, List, ◌++◌, length, option_copied, ℕ};
ghost use Rattle.amqp_txn_codec.specs.Sections.{leading, body};
ghost use Rattle.amqp_txn_codec.specs.Walks.{Finds, AfterDescriptor, AfterSection, TakesOptional, SkipsTo, Begins};

use crate::value::after_value;

/// What follows this prefix.
pub(crate) fn after_prefix<'a>(prefix: &[u8], octets: &'a [u8]) -> Option<&'a [u8]>
    ensures { Finds (λ rest. octets.now ≡ prefix.now ++ rest) (option_copied result) }
{
    octets.strip_prefix(prefix)
}

/// What follows two prefixes.
fn after_both<'a>(first: &[u8], second: &[u8], octets: &'a [u8]) -> Option<&'a [u8]>
    ensures { Finds (λ rest. octets.now ≡ first.now ++ (second.now ++ rest))
        (option_copied result) }
{
    after_prefix(second, after_prefix(first, octets)?)
}

/// What follows the descriptor of this number and name, in any of its four spellings.
pub(crate) fn after_descriptor<'a>(number: u8, name: &[u8], octets: &'a [u8]) -> Option<&'a [u8]>
    requires { length name.now < 256 }
    ensures { Finds (AfterDescriptor number name.now octets.now) (option_copied result) }
{
    if let Some(numbered) = after_prefix(&[0x53], octets) {
        return after_prefix(&[number], numbered);
    }
    if let Some(rest) = after_both(&[0x80], &(number as u64).to_be_bytes(), octets) {
        return Some(rest);
    }
    if let Some(rest) = after_both(&[0xa3, name.len() as u8], name, octets) {
        return Some(rest);
    }
    let named = after_both(&[0xb3], &(name.len() as u32).to_be_bytes(), octets)?;
    after_prefix(name, named)
}

/// What follows the section of this number and name.
pub(crate) fn after_section<'a>(number: u8, name: &[u8], octets: &'a [u8]) -> Option<&'a [u8]>
    requires { length name.now < 256 }
    ensures { Finds (AfterSection number name.now octets.now) (option_copied result) }
{
    let inner = after_prefix(&[0], octets)?;
    let value = after_descriptor(number, name, inner)?;
    after_value(value)
}

/// What follows that section, or all where it isn't there.
pub(crate) fn after_optional<'a>(number: u8, name: &[u8], octets: &'a [u8]) -> &'a [u8]
    requires { length name.now < 256 }
    ensures { TakesOptional (number, name.now) octets.now result.now }
{
    match after_section(number, name, octets) {
        Some(rest) => rest,
        None => octets,
    }
}

/// What follows the sections before the body, each of which may be left out.
pub(crate) fn after_leading(octets: &[u8]) -> &[u8]
    ensures skips { SkipsTo leading octets.now result.now }
    ensures only { (rest : List ℕ) → Begins body rest → SkipsTo leading octets.now rest
        → result.now ≡ rest }
{
    // Clients leave these sections out, so that the body begins at once.
    if after_prefix(&[0, 0x53, 0x77], octets).is_some() {
        return octets;
    }
    let rest = after_optional(0x70, b"amqp:header:list", octets);
    let rest = after_optional(0x71, b"amqp:delivery-annotations:map", rest);
    let rest = after_optional(0x72, b"amqp:message-annotations:map", rest);
    let rest = after_optional(0x73, b"amqp:properties:list", rest);
    after_optional(0x74, b"amqp:application-properties:map", rest)
}
