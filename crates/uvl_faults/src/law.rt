//! The laws of a rule's nodes.
ghost use Rattle.uvl_faults.specs.Law.{NodesAreCounted, TokensTellNodes};

/// The nodes of a rule are those of its tree: where a rule begins, as many of its tokens are where a
/// node stands as its tree has nodes, and so many are counted behind them.
pub fn nodes_are_counted_by_tokens()
    ensures tokens { TokensTellNodes }
    ensures counted { NodesAreCounted }
{}
