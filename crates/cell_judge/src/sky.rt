// A district and the problems of a day.
ghost use Rattle.std.proofs.Props.{props};
ghost use Rattle.std.specs.Prelude.{map};
ghost use Rattle.method_table.specs.Row.{row_of};
ghost use Rattle.region.specs.Strips.{AreStripsOf};
ghost use Rattle.cell_split.specs.Judges.{IsLawful};
ghost use Rattle.cell_judge.specs.Limits.{AreInLimits, IsOver};
ghost use Rattle.cell_judge.specs.Sines.{AreSinesOf};
ghost use Rattle.cell_judge.specs.Skies.{sky_content};
ghost use Rattle.cell_judge.specs.Tiles.{AreTables};

use crate::tiles::Tables;
use cell_split::Cell;
use fixed_interval::Interval;
use method_table::{Problem, SunChoice};
use region::{District, Strips};

/// A district under the sky of one day: the judge of the cells of a root over it, for each problem of
/// that day.
#[derive(Drop)]
pub struct Sky {
    /// The sun that it judges by.
    pub(crate) sun: SunChoice,
    pub(crate) district: District,
    pub(crate) strips: Strips,
    /// The places that are named for the large boxes of the root.
    pub(crate) large: Tables,
    pub(crate) problems: [Problem; 7],
    /// The sine of each problem's angles.
    pub(crate) sines: [Interval; 7],
    pub(crate) root: Cell,
    ghost strips_are: { AreStripsOf district root.y strips },
    ghost large_are: { AreTables district root large.least large.places.items } by { Prim.hlevel props },
    pub ghost is_over: { IsOver root district },
    ghost sines_are: { AreSinesOf problems sines },
    pub ghost in_limits: { AreInLimits problems },
    /// It keeps the law of judges.
    pub ghost lawful: { IsLawful (sky_content sun district (map row_of problems) root) } by { Prim.hlevel props },
}
