//! The pieces of octets that are cut at a separator.

ghost use Rattle.std.specs.Prelude.{◌≡◌, ◌==◌, ◌<◌, ◌∷◌, length, position, IfSome, IfNone};
ghost use Rattle.std.specs.List.{slice_split};
ghost use Rattle.txn_program_lines.specs.Cutting.{pieces_left};

use memchr::memchr;

/// The first piece of octets that are cut at each separator, and what follows that separator;
/// `None` where it is the last piece.
#[inline(always)]
pub fn cut_at(octets: &[u8], separator: u8) -> (&[u8], Option<&[u8]>)
    ensures pieces { slice_split (λ octet. octet == separator) octets.now
        ≡ result.0.now ∷ pieces_left separator result.1 }
    ensures last { IfNone result.1 (result.0.now ≡ octets.now) }
    ensures shorter { IfSome result.1 (λ rest. length rest.now < length octets.now) }
{
    match place_of(octets, separator) {
        None => (octets, None),
        Some(place) => {
            let (piece, rest) = octets.split_at(place);
            (piece, Some(&rest[1..]))
        }
    }
}

/// The place of the first separator.
fn place_of(octets: &[u8], separator: u8) -> Option<usize>
    ensures place { result ≡ position (λ octet. octet == separator) octets.now }
    ensures within { IfSome result (λ place. place < length octets.now) }
{
    octets.iter().position(|octet| *octet == separator)
}

/// The first piece of octets that are cut at each line feed, as by [`cut_at`]. A line feed is
/// looked for in many octets at a time.
pub fn cut_line(octets: &[u8]) -> (&[u8], Option<&[u8]>)
    ensures pieces { slice_split (λ octet. octet == 10) octets.now
        ≡ result.0.now ∷ pieces_left 10 result.1 }
    ensures last { IfNone result.1 (result.0.now ≡ octets.now) }
    ensures shorter { IfSome result.1 (λ rest. length rest.now < length octets.now) }
{
    match feed_of(octets) {
        None => (octets, None),
        Some(place) => {
            let (piece, rest) = octets.split_at(place);
            (piece, Some(&rest[1..]))
        }
    }
}

/// The place of the first line feed.
fn feed_of(octets: &[u8]) -> Option<usize>
    ensures place { result ≡ position (λ octet. octet == 10) octets.now }
    ensures within { IfSome result (λ place. place < length octets.now) }
{
    memchr(b'\n', octets)
}
