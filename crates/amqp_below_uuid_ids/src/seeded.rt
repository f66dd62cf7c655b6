//! The ids of a number.

ghost use Rattle.std.specs.Prelude.{◌≡◌, None};
ghost use Rattle.amqp_below_uuid_ids.specs.Seeded.{seed_of_number, seeded};

use crate::uuid_ids::UuidIds;
use amqp_below_ids::IdSource;
use rand_chacha::ChaCha8Rng;
use rand_core::SeedableRng;

/// The octets of the seed that a number is: 24 of 0, and the number's eight, the highest first.
fn seed_of_number(number: u64) -> [u8; 32]
    ensures { result ≡ seed_of_number number }
{
    let mut seed = [0; 32];
    seed[24..].copy_from_slice(&number.to_be_bytes());
    seed
}

/// The version 4 uuids of the generator that the number seeds, ChaCha with 8 rounds.
///
/// They are the same at each run, so nobody has to believe that they are random. They are for
/// runs that are to be made again, and not for secrets.
pub fn seeded_ids(number: u64) -> UuidIds<ChaCha8Rng>
    ensures next { ⟦<UuidIds<ChaCha8Rng> as IdSource>⟧.next result ≡ seeded number }
    ensures start { ⟦<UuidIds<ChaCha8Rng> as IdSource>⟧.start result ≡ None }
{
    UuidIds::new(ChaCha8Rng::from_seed(seed_of_number(number)))
}
