// What a sky is made of, and how it judges.
ghost use Rattle.std.specs.Prelude.{◌≡◌, ◌<◌, IfOk, Some, slice_get};
ghost use Rattle.meeus_terms.specs.Suns.{grid_sun_of};
ghost use Rattle.method_table.specs.declared.sun.SunChoice.TheVariants.{Usno};
ghost use Rattle.method_table.specs.Row.{row_of};
ghost use Rattle.ring_survey.specs.Extent.{latitudes, least, longitudes};
ghost use Rattle.cell_split.specs.Cells.{IsCell, IsRoot, root_at};
ghost use Rattle.cell_judge.specs.Limits.{AreInLimits, IsInLimits, IsOver};
ghost use Rattle.cell_judge.specs.Made.{IsSkyOf};
ghost use Rattle.cell_judge.specs.Sines.{IsSineOf};
ghost use Rattle.cell_judge.specs.Skies.{verdict_with};

use crate::kept::KeptSky;
use crate::sines::sines_of;
use crate::sky::Sky;
use crate::tiles::large_places;
use crate::values::{minutes_at, places_at, value};
use crate::verdicts::verdict_at;
use cell_split::{Cell, Judge, Judged, Task, Verdict, rect_of, root_at};
use fixed_interval::Interval;
use method_table::{Problem, SunChoice};
use no_memory::NoMemory;
use region::{District, Point};
use std::alloc::Global;

/// The root at the least longitude and the least latitude of a district.
pub fn root_over(district: &District) -> Cell
    ensures value { result ≡ root_at (least (longitudes district.now)) (least (latitudes district.now)) }
    ensures root { IsRoot result }
    ensures over { IsOver result district.now }
{
    district.has_no_fault();
    root_at(district.west(), district.south())
}

impl Sky {
    /// The sky over a district for the problems of a day, under the sun of the US Naval Observatory, with the root at its least longitude and
    /// least latitude. Every minute of their frames is within 53,200,000 minutes of 2000-01-01 12:00
    /// Universal Time.
    pub fn new(alloc: Global, district: District, problems: [Problem; 7]) -> Result<Sky, NoMemory>
        requires { AreInLimits problems }
        ensures { IfOk result
            (IsSkyOf Usno district problems (root_at (least (longitudes district)) (least (latitudes district)))) }
    {
        let root = root_over(&district);
        Sky::new_in(alloc, district, problems, root)
    }

    /// The same with a root that is given, in whose box the district lies. After `NoMemory` the
    /// district is given up.
    pub fn new_in(
        alloc: Global,
        district: District,
        problems: [Problem; 7],
        root: Cell,
    ) -> Result<Sky, NoMemory>
        requires root { IsRoot root }
        requires over { IsOver root district }
        requires limits { AreInLimits problems }
        ensures { IfOk result (IsSkyOf Usno district problems root) }
    {
        let strips = district.strips(alloc, root.y)?;
        let large = large_places(alloc, &district, &root)?;
        let sines = sines_of(&problems);
        Ok(Sky {
            sun: SunChoice::Usno,
            district,
            strips,
            large,
            problems,
            sines,
            root,
        })
    }

    /// The same sky under the sun of this choice.
    pub fn under(mut self, sun: SunChoice) -> Sky
        ensures { IsSkyOf sun self.district self.problems self.root result }
    {
        self.sun = sun;
        self
    }

    /// Turns to the problems of another day, under the same condition on their minutes.
    pub fn turn_to(&mut self, problems: [Problem; 7])
        requires { AreInLimits problems }
        ensures { IsSkyOf self.old.sun self.old.district problems self.old.root self.new }
    {
        self.sines = sines_of(&problems);
        self.problems = problems;
    }

    /// The district.
    pub fn district(&self) -> &District
        ensures { result.now ≡ self.now.district }
    {
        &self.district
    }

    /// The problem of this number, from 0 to 6.
    pub fn problem(&self, k: u32) -> Problem
        requires { k < 7 }
        ensures { slice_get self.now.problems k ≡ Some result }
    {
        self.problems[k as usize]
    }
}

/// The verdict on a cell whose box has the place `p` of the district.
pub(crate) fn verdict_for(
    sun: SunChoice,
    problem: &Problem,
    sine: Interval,
    cell: &Cell,
    p: Point,
) -> Verdict
    requires sine { IsSineOf problem.now.kind sine }
    requires cell { IsCell cell.now }
    requires limits { IsInLimits (row_of problem.now) }
    ensures { result ≡ verdict_with (grid_sun_of sun) (row_of problem.now) cell.now p }
{
    let minutes = minutes_at(problem, cell);
    let value = value(sun, problem.kind, minutes, places_at(cell), sine);
    verdict_at(problem.kind, value, cell, p)
}

impl Judge for Sky {
    ghost use Rattle.std.specs.Prelude.{map};
    ghost use Rattle.method_table.specs.Row.{row_of};
    ghost use Rattle.cell_judge.specs.Skies.{sky_content};

    ghost content = { λ sky. sky_content sky.sun sky.district (map row_of sky.problems) sky.root };

    ghost lawful = { λ sky. sky.lawful };

    type Kept = KeptSky;

    fn problems(&self) -> u32 {
        7
    }

    fn root(&self) -> Cell {
        self.root
    }

    fn judge(&self, t: Task) -> Verdict {
        let k = t.problem as usize;
        self.judge_for(&self.problems[k], self.sines[k], &t.cell)
    }

    fn judge_quarters(&self, t: Task, kept: &mut KeptSky) -> [Judged; 4] {
        let k = t.problem as usize;
        self.judge_quarters_for(&self.problems[k], self.sines[k], &t.cell, kept)
    }
}
