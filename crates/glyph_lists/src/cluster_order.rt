//! The order in which the clusters of a list stand.

ghost use Rattle.std.specs.Prelude.{◌≡◌};
ghost use Rattle.glyph_lists.specs.ClusterOrder.{is_any};

/// The order in which the clusters of a list stand, by its cluster level.
#[derive(Clone, Copy, PartialEq, Eq)]
pub enum ClusterOrder {
    /// They never fall, or they never rise: a merge merges, and a scan goes by the clusters at the ends.
    Monotone,
    /// Any: a merge marks glyphs instead, and a scan reads every cluster.
    Any,
}

impl ClusterOrder {
    /// Whether they may stand in any order.
    #[inline(always)]
    pub fn is_any(self) -> bool
        ensures { result ≡ is_any self }
    {
        matches!(self, ClusterOrder::Any)
    }
}
