//! How good an offer is.

ghost use Rattle.std.specs.Prelude.{◌≡◌, Bool};
ghost use Rattle.ipx_tables.specs.Order.{IsStrictTotal};

/// How good an offer is. Of any two different metrics, one is better.
pub trait Metric {
    /// The first is better.
    ghost before: { Self → Self → Bool };

    /// It means unreachable.
    ghost dead: { Self → Bool };

    /// The same with one hop more.
    ghost one_more: { Self → Self };

    /// Whether this one is better.
    fn before(&self, other: &Self) -> bool
        ensures { result ≡ before self.now other.now };

    /// Whether it means unreachable: 16 hops or more.
    fn dead(&self) -> bool
        ensures { result ≡ dead self.now };

    /// The same with one hop more, at most 16.
    fn one_more(&self) -> Self
        ensures { result ≡ one_more self.now };

    /// A strict total order: of two different metrics exactly one is better, and the order is
    /// transitive.
    ghost strict: { IsStrictTotal before };
}
