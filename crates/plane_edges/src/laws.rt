// The law on edges and boxes.
ghost use Rattle.plane_edges.specs.Laws.{NamesNoneBeyond};

/// An edge whose own closed box misses a box names no point for it and holds no place of it.
pub fn names_none_beyond()
    ensures { NamesNoneBeyond }
{}
