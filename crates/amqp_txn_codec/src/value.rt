//! Values, of which only the end matters.

ghost use Rattle.std.specs.Prelude.{◌≡◌, ◌≤◌, length, IfSome, IfNone, ℕ, option_copied};
ghost use Rattle.amqp_txn_codec.specs.Values.{octets_after, IsValueBetween};
ghost use Rattle.amqp_txn_codec.specs.Walks.{Finds, LeavesAfter};

/// The place after the value that begins at `at`: a constructor and what its width says, or 0, a
/// descriptor and a value.
///
/// Part 1 of the standard, section 1.2 (type encodings). None comes exactly where no value begins
/// there, or where it doesn't end within `bytes`. It takes no memory, goes over the octets once,
/// and its stack is constant however deep values lie within values.
///
/// # Requires
///
/// That `at` is at most the length of `bytes`.
pub fn skip_value(bytes: &[u8], at: usize) -> Option<usize>
    requires { at ≤ length bytes.now }
    ensures found { IfSome result (IsValueBetween bytes.now at) }
    ensures none { IfNone result ((end : ℕ) → ¬ IsValueBetween bytes.now at end) }
{
    let rest = after_value(&bytes[at..])?;
    Some(bytes.len() - rest.len())
}

/// How many octets follow the constructor, by its high nibble and the size behind it.
#[tactic(auto, unfolding(crate::specs::Values::width_of))]
fn octets_after_constructor(constructor: u8, octets: &[u8]) -> Option<usize>
    ensures { result ≡ octets_after constructor octets.now }
{
    match constructor / 16 {
        4 => Some(0),
        5 => Some(1),
        6 => Some(2),
        7 => Some(4),
        8 => Some(8),
        9 => Some(16),
        10 | 12 | 14 => match octets {
            [size, ..] => Some(*size as usize + 1),
            [] => None,
        },
        11 | 13 | 15 => match octets {
            [a, b, c, d, ..] => Some(u32::from_be_bytes([*a, *b, *c, *d]) as usize + 4),
            _ => None,
        },
        _ => None,
    }
}

/// What follows one value. A constructor 0 leads two values, so one more is pending behind it.
pub(crate) fn after_value(octets: &[u8]) -> Option<&[u8]>
    ensures { Finds (LeavesAfter 1 octets.now) (option_copied result) }
{
    let mut rest = octets;
    let mut pending = 1usize;
    while pending > 0 {
        let (constructor, others) = rest.split_first()?;
        if *constructor == 0 {
            pending += 1;
            rest = others;
        } else {
            let count = octets_after_constructor(*constructor, others)?;
            if count > others.len() {
                return None;
            }
            pending -= 1;
            rest = &others[count..];
        }
    }
    Some(rest)
}
