//! How a receiving end grants credit.

/// How a receiving end grants its peer credit. Part 2 of the standard, section 2.6.7 (flow
/// control).
#[derive(Clone, Copy, Debug, PartialEq, Eq)]
pub enum CreditMode {
    /// It grants that much once the link is accepted; 200 by default.
    Auto(u32),
    /// Its owner grants it.
    Manual,
}

impl Default for CreditMode {
    ghost use Rattle.std.specs.Prelude.{◌≡◌};
    ghost use Rattle.amqp_accept_links.specs.declared.credit.CreditMode.TheVariants as credits;

    ghost is_default = { λ mode. mode ≡ credits.Auto 200 };

    fn default() -> Self {
        CreditMode::Auto(200)
    }
}
