// Laws on places, boxes and districts.
ghost use Rattle.region.specs.Laws.{IsWhollyInOrOut, NamesExactly};
ghost use Rattle.region.specs.Strips.{NamesWithoutBeyond};

/// A box that no edge of a polygon meets lies wholly inside the polygon or wholly outside it.
pub fn wholly_in_or_out()
    ensures { IsWhollyInOrOut }
{}

/// The place that is named for a box lies in the box and in the district, and where none is named
/// no place of the box is in the district.
pub fn names_exactly()
    ensures { NamesExactly }
{}

/// An edge whose latitudes don't meet the box's changes neither the named place nor its absence.
pub fn names_without_beyond()
    ensures { NamesWithoutBeyond }
{}
