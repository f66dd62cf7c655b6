//! What contracts see of a session or of a layer below one.

/// What it tells of itself: what it took, opened, refused and vetoed, where it tells these lists,
/// how often it refused and vetoed, and what no call of a layer changes. One count of refusals
/// serves all its traits.
pub trait Tells {
    ghost use Rattle.amqp_below_layer.specs.Told.{Told};

    /// What it tells.
    ghost told: { Self → Told };
}
