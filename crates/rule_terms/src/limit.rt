//! The kinds of limits on obligations, on paths, and on relations.

/// What a limit is of.
#[derive(Clone, Copy, Debug, PartialEq, Eq)]
pub enum LimitKind {
    /// Nodes of an obligation.
    Nodes,
    /// Different store terms of an obligation.
    Stores,
    /// Readings of an obligation.
    Readings,
    /// Depth of an obligation.
    Depth,
    /// Steps of a path.
    PathSteps,
    /// Nodes of a path.
    PathNodes,
    /// Paths from a point.
    Paths,
    /// Pairs of paths of an entry.
    Pairs,
    /// Entries of a relation.
    Entries,
}
