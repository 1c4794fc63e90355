// Laws on the tree of squares.
ghost use Rattle.border_check.specs.Laws.{SettledHolds, UnsettledIsOpen};

/// Where no square of the tree is unsettled, every rational place of the root that is in the border is
/// in the district.
pub fn settled_holds()
    ensures { SettledHolds }
{}

/// An unsettled square has a place of the border, and one that isn't in the district or lies on its edge.
pub fn unsettled_is_open()
    ensures { UnsettledIsOpen }
{}
