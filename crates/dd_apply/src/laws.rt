//! Laws of the definitions. The function does nothing: what it ensures is the laws.
ghost use Rattle.dd_apply.specs.Laws.{FewAreMade, RoomKeepsNodes};

/// An operation makes at most as many nodes as its function needs, and takes none out of the table while these with the
/// nodes that are there are below the budget.
pub fn room_keeps_nodes()
    ensures few { FewAreMade }
    ensures stays { RoomKeepsNodes }
{}
