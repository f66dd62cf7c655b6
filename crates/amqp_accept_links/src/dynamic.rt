//! What is answered where the peer asks for a node to be made.

use std::marker::PhantomData;

/// A rule for a dynamic terminus: the peer asks for a node to be made for the link. Part 3 of the
/// standard, sections 3.5.3 (source) and 3.5.4 (target).
pub trait OnDynamic<T> {
    ghost use Rattle.std.specs.Prelude.{Option};

    /// That the rule may be asked, about every terminus.
    ghost can_decide: { Self → Type 0 };

    /// What the rule may answer to a terminus.
    ghost decides: { Self → T → Option T → Type 0 };

    /// The terminus of the node that was made; `None` where none is made.
    ///
    /// # Requires
    ///
    /// The rule may be asked.
    fn decide(&self, terminus: T) -> Option<T>
        requires { can_decide self.now }
        ensures { decides self.now terminus result };
}

/// The rule that makes no node. It may always be asked.
#[derive(Clone, Copy, Debug, PartialEq, Eq)]
pub struct RejectDynamic;

impl<T: Drop> OnDynamic<T> for RejectDynamic {
    ghost use Rattle.std.specs.Prelude.{◌≡◌, None};

    ghost can_decide = { λ _. Unit {0} };

    ghost decides = { λ _ _ answer. answer ≡ None };

    fn decide(&self, _terminus: T) -> Option<T> {
        None
    }
}

/// The rule that asks a caller's closure, and answers what it answers. It may be asked where the
/// closure may be called on every terminus.
#[derive(Drop)]
pub struct Ask<T, F> {
    /// The closure.
    ask: F,
    termini: PhantomData<T>,
}

impl<T, F: Fn(T) -> Option<T>> Ask<T, F> {
    ghost use Rattle.std.specs.Prelude.{◌≡◌};

    /// The rule of a closure.
    ///
    /// # Requires
    ///
    /// The closure may be called on every terminus.
    pub fn new(decide: F) -> Self
        requires { F.IsAlwaysCallable decide }
        ensures { result.ask ≡ decide }
    {
        Ask {
            ask: decide,
            termini: PhantomData,
        }
    }
}

impl<T, F: Fn(T) -> Option<T>> OnDynamic<T> for Ask<T, F> {
    ghost can_decide = { λ rule. F.IsAlwaysCallable rule.ask };

    ghost decides = { λ rule terminus answer. F.post rule.ask terminus answer };

    fn decide(&self, terminus: T) -> Option<T> {
        (self.ask)(terminus)
    }
}
