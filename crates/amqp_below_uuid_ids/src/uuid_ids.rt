//! Ids that are uuids.

ghost use Rattle.std.specs.Prelude.{◌≡◌, None};
ghost use Rattle.amqp_below_uuid_ids.specs.Uuids.{uuid_at};

use amqp_below_ids::IdSource;
use amqp_txn_types::TransactionId;
use rand_core::Rng;
use uuid::Uuid;

/// A source that gives version 4 uuids, each made of the next sixteen octets of a generator.
///
/// It tells no start: what a generator has given so far is no part of its state.
#[derive(Drop)]
pub struct UuidIds<R> {
    rng: R,
}

impl<R: Rng> UuidIds<R> {
    /// The uuids of what this generator gives from now on.
    pub fn new(rng: R) -> UuidIds<R>
        ensures next { ⟦<UuidIds<R> as IdSource>⟧.next result ≡ uuid_at (R.stream rng) }
        ensures start { ⟦<UuidIds<R> as IdSource>⟧.start result ≡ None }
    {
        UuidIds { rng }
    }
}

impl<R: Rng> IdSource for UuidIds<R> {
    ghost use Rattle.std.specs.Prelude.{None};
    ghost use Rattle.amqp_below_uuid_ids.specs.Uuids.{uuid_at};

    ghost next = { λ s. uuid_at (R.stream s.rng) };

    ghost start = { λ s. None };

    fn draw(&mut self) -> TransactionId {
        TransactionId::from(Uuid::new_v4(&mut self.rng).into_bytes())
    }
}
