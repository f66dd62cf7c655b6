//! Numbers of which two may be the same.

ghost use Rattle.std.specs.Prelude.{eqb, IfOk, MatchOption};
ghost use Rattle.std.specs.List.{IsDistinct};
ghost use Rattle.amqp_resource_shared_counts.specs.Repeats.{StandsTwice};

use std::alloc::{AllocError, Global};
use std::collections::BTreeMap;

/// The places of the first number that stands among those before it: the earlier place first.
/// `None` where all numbers differ.
///
/// It takes memory for each number, and looks at each once in a map: n log n in all.
///
/// # Errors
///
/// Out of memory alone.
pub fn first_repeat(alloc: Global, numbers: &[usize]) -> Result<Option<(usize, usize)>, AllocError>
    ensures { IfOk result (λ found. MatchOption found (IsDistinct eqb numbers.now)
        (λ places. StandsTwice numbers.now places.0 places.1)) }
{
    let mut places = BTreeMap::new(alloc);
    for again in 0..numbers.len() {
        if let Some(first) = places.insert(numbers[again], again)? {
            return Ok(Some((first, again)));
        }
    }
    Ok(None)
}
