//! The termini of a link, and what an acceptor makes of them.

ghost use Rattle.std.specs.Prelude.{◌≡◌, IfOk};
ghost use Rattle.amqp_accept_links.specs.Termini.{LocalTerminus, kind_of_target};

use crate::dynamic::OnDynamic;
use amqp_txn_types::{Coordinator, NoMemory, Source, Symbols, Target, TargetArchetype, TryClone};

/// A terminus of a link. Part 3 of the standard, sections 3.5.3 (source) and 3.5.4 (target), and
/// part 4, section 4.5.1 (coordinator).
pub trait Terminus: Drop {
    ghost use Rattle.std.specs.Prelude.{Bool, List, Option};
    ghost use Rattle.amqp_txn_types.specs.declared.text.Symbol.{Symbol};

    /// Whether the peer asks for its node to be made.
    ghost is_dynamic: { Self → Bool };

    /// The terminus with other capabilities.
    ghost with_capabilities: { Option (List Symbol) → Self → Self };

    /// Whether the peer asks for its node to be made.
    fn is_dynamic(&self) -> bool
        ensures { result ≡ is_dynamic self.now };

    /// The terminus with these capabilities in place of its own.
    fn with_capabilities(self, capabilities: Option<Symbols>) -> Self
        ensures { result ≡ with_capabilities capabilities self };
}

/// A kind of target: a node that takes messages, or a coordinator. Part 2 of the standard, section
/// 2.7.3 (attach).
pub trait TargetKind: Terminus {
    ghost use Rattle.std.specs.Prelude.{Option};
    ghost use Rattle.amqp_txn_types.specs.declared.performatives.TargetArchetype.{TargetArchetype};

    /// The target as one of this kind, where it is one.
    ghost of_archetype: { TargetArchetype → Option Self };

    /// A target of this kind as any target.
    ghost archetype: { Self → TargetArchetype };

    /// The target as one of this kind, where it is one.
    fn of_archetype(target: TargetArchetype) -> Option<Self>
        ensures { result ≡ of_archetype target };

    /// A target of this kind as any target.
    fn into_archetype(self) -> TargetArchetype
        ensures { result ≡ archetype self };
}

impl Terminus for Source {
    ghost is_dynamic = { λ source. source.dynamic };

    ghost with_capabilities = { λ capabilities source. record source {
      capabilities = capabilities;
    } };

    fn is_dynamic(&self) -> bool {
        self.dynamic
    }

    fn with_capabilities(self, capabilities: Option<Symbols>) -> Self {
        Source {
            capabilities,
            ..self
        }
    }
}

impl Terminus for Target {
    ghost is_dynamic = { λ target. target.dynamic };

    ghost with_capabilities = { λ capabilities target. record target {
      capabilities = capabilities;
    } };

    fn is_dynamic(&self) -> bool {
        self.dynamic
    }

    fn with_capabilities(self, capabilities: Option<Symbols>) -> Self {
        Target {
            capabilities,
            ..self
        }
    }
}

impl TargetKind for Target {
    ghost use Rattle.amqp_txn_types.specs.declared.performatives.TargetArchetype.TheVariants as targets;
    ghost use Rattle.amqp_accept_links.specs.Termini.{node_target};

    ghost of_archetype = { node_target };

    ghost archetype = { λ target. targets.Target target };

    fn of_archetype(target: TargetArchetype) -> Option<Self> {
        match target {
            TargetArchetype::Target(target) => Some(target),
            TargetArchetype::Coordinator(_) => None,
        }
    }

    fn into_archetype(self) -> TargetArchetype {
        TargetArchetype::Target(self)
    }
}

/// A coordinator is never dynamic.
impl Terminus for Coordinator {
    ghost use Rattle.std.specs.Prelude.{false};

    ghost is_dynamic = { λ _. false };

    ghost with_capabilities = { λ capabilities _. record { capabilities = capabilities } };

    fn is_dynamic(&self) -> bool {
        false
    }

    fn with_capabilities(self, capabilities: Option<Symbols>) -> Self {
        Coordinator { capabilities }
    }
}

impl TargetKind for Coordinator {
    ghost use Rattle.amqp_txn_types.specs.declared.performatives.TargetArchetype.TheVariants as targets;
    ghost use Rattle.amqp_accept_links.specs.Termini.{coordinator_target};

    ghost of_archetype = { coordinator_target };

    ghost archetype = { λ coordinator. targets.Coordinator coordinator };

    fn of_archetype(target: TargetArchetype) -> Option<Self> {
        match target {
            TargetArchetype::Target(_) => None,
            TargetArchetype::Coordinator(coordinator) => Some(coordinator),
        }
    }

    fn into_archetype(self) -> TargetArchetype {
        TargetArchetype::Coordinator(self)
    }
}

/// The peer's target as one of a kind, or none; no answer where it is of another kind.
pub(crate) fn kind_of_target<T: TargetKind>(target: Option<TargetArchetype>) -> Option<Option<T>>
    ensures { result ≡ kind_of_target T.of_archetype target }
{
    match target {
        None => Some(None),
        Some(target) => match T::of_archetype(target) {
            None => None,
            Some(target) => Some(Some(target)),
        },
    }
}

/// The local terminus for the peer's, with this side's capabilities: a dynamic one is what the rule
/// answers. The only error is out of memory.
pub(crate) fn local_terminus<T: Terminus, F: OnDynamic<T>>(
    rule: &F,
    terminus: Option<T>,
    capabilities: &Option<Symbols>,
) -> Result<Option<T>, NoMemory>
    requires { F.can_decide rule.now }
    ensures { IfOk result (λ local. LocalTerminus (F.decides rule.now) T.is_dynamic
        (T.with_capabilities capabilities.now) terminus local) }
{
    let Some(terminus) = terminus else {
        return Ok(None);
    };
    let capabilities = capabilities.try_clone()?;
    if !terminus.is_dynamic() {
        return Ok(Some(terminus.with_capabilities(capabilities)));
    }
    match rule.decide(terminus) {
        None => Ok(None),
        Some(made) => Ok(Some(made.with_capabilities(capabilities))),
    }
}
