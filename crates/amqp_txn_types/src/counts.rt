//! Counts of refusals, faults and vetoes.

ghost use Rattle.std.specs.Prelude.{◌≡◌, ◌≤◌, Err, OnErr};
ghost use Rattle.amqp_txn_types.specs.Counts.{Rose, counted, one_more};

/// Adds one to the count, up to its last value, 2^64 - 1.
pub fn count_one(count: &mut u64)
    ensures counted { count.new ≡ one_more count.old }
    ensures later { count.old ≤ count.new }
    ensures rose { Rose count.old count.new }
{
    *count = count.saturating_add(1);
}

/// Returns the answer, and adds one to the count where it is an `Err`, up to the count's last value.
pub fn count_answer<T, E>(count: &mut u64, answer: Result<T, E>) -> Result<T, E>
    ensures answer { result ≡ answer }
    ensures counted { count.new ≡ counted answer count.old }
    ensures later { count.old ≤ count.new }
    ensures cause { OnErr answer (Rose count.old count.new) }
{
    match answer {
        Ok(value) => Ok(value),
        Err(error) => refuse(count, error),
    }
}

/// Counts a refusal, up to the last value of a count, 2^64 - 1, and answers it.
pub fn refuse<T, E>(refusals: &mut u64, error: E) -> Result<T, E>
    ensures counted { refusals.new ≡ one_more refusals.old }
    ensures later { refusals.old ≤ refusals.new }
    ensures answer { result ≡ Err error }
{
    *refusals = refusals.saturating_add(1);
    Err(error)
}
