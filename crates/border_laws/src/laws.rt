// Laws on borders that a district holds.
ghost use Rattle.border_laws.specs.Held.{HeldBordersHaveNoPlaceOutside, HeldBordersAreSafe};

/// Where no square is unsettled, every rational place of the border is a place of the district.
pub fn held_borders_have_no_place_outside()
    ensures { HeldBordersHaveNoPlaceOutside }
{}

/// Where no square is unsettled, an entry that is right for the district is safe at every rational place of
/// the border, at every rank from the one that it names to the frame's end.
pub fn held_borders_are_safe()
    ensures { HeldBordersAreSafe }
{}
