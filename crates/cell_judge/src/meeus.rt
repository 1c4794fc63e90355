// The judge of the sky under the sun of Meeus.
ghost use Rattle.std.specs.Prelude.{◌≡◌, ◌<◌, IfOk, Some, slice_get};
ghost use Rattle.method_table.specs.declared.sun.SunChoice.TheVariants.{Meeus};
ghost use Rattle.ring_survey.specs.Extent.{latitudes, least, longitudes};
ghost use Rattle.cell_split.specs.Cells.{IsRoot, root_at};
ghost use Rattle.cell_judge.specs.Limits.{AreInLimits, IsOver};
ghost use Rattle.cell_judge.specs.Made.{IsSkyOf};

use crate::kept::KeptSky;
use crate::sky::Sky;
use cell_split::{Cell, Judge, Judged, Task, Verdict};
use method_table::{Problem, SunChoice};
use no_memory::NoMemory;
use region::District;
use std::alloc::Global;

/// A district under the sky of one day, with the sun of Meeus, Astronomical Algorithms (1998), chapter 25: each call has
/// the condition and the meaning of the call of that name of `Sky`.
#[derive(Drop)]
pub struct MeeusSky {
    sky: Sky,
    ghost is_meeus: { sky.sun ≡ Meeus },
}

impl MeeusSky {
    // The sky of Meeus's sun over what this sky is over.
    fn over(sky: Sky) -> MeeusSky
        ensures { IsSkyOf Meeus sky.district sky.problems sky.root result.sky }
    {
        MeeusSky {
            sky: sky.under(SunChoice::Meeus),
        }
    }

    /// The sky over a district for the problems of a day, with the root at its least longitude and
    /// least latitude. Every minute of their frames is within 53,200,000 minutes of 2000-01-01 12:00
    /// Universal Time.
    pub fn new(
        alloc: Global,
        district: District,
        problems: [Problem; 7],
    ) -> Result<MeeusSky, NoMemory>
        requires { AreInLimits problems }
        ensures { IfOk result (λ s.
            IsSkyOf Meeus district problems (root_at (least (longitudes district)) (least (latitudes district))) s.sky) }
    {
        Ok(MeeusSky::over(Sky::new(alloc, district, problems)?))
    }

    /// The same with a root that is given, in whose box the district lies. After `NoMemory` the
    /// district is given up.
    pub fn new_in(
        alloc: Global,
        district: District,
        problems: [Problem; 7],
        root: Cell,
    ) -> Result<MeeusSky, NoMemory>
        requires root { IsRoot root }
        requires over { IsOver root district }
        requires limits { AreInLimits problems }
        ensures { IfOk result (λ s. IsSkyOf Meeus district problems root s.sky) }
    {
        Ok(MeeusSky::over(Sky::new_in(alloc, district, problems, root)?))
    }

    /// Turns to the problems of another day, under the same condition on their minutes.
    pub fn turn_to(&mut self, problems: [Problem; 7])
        requires { AreInLimits problems }
        ensures { IsSkyOf Meeus self.old.sky.district problems self.old.sky.root self.new.sky }
    {
        self.sky.turn_to(problems);
    }

    /// The district.
    pub fn district(&self) -> &District
        ensures { result.now ≡ self.now.sky.district }
    {
        self.sky.district()
    }

    /// The problem of this number, from 0 to 6.
    pub fn problem(&self, k: u32) -> Problem
        requires { k < 7 }
        ensures { slice_get self.now.sky.problems k ≡ Some result }
    {
        self.sky.problem(k)
    }
}

impl Judge for MeeusSky {
    ghost use Rattle.std.specs.Prelude.{map};
    ghost use Rattle.method_table.specs.Row.{row_of};
    ghost use Rattle.cell_judge.specs.Skies.{sky_content};

    ghost content = { λ s. sky_content s.sky.sun s.sky.district (map row_of s.sky.problems) s.sky.root };

    ghost lawful = { λ s. s.sky.lawful };

    type Kept = KeptSky;

    fn problems(&self) -> u32 {
        self.sky.problems()
    }

    fn root(&self) -> Cell {
        self.sky.root()
    }

    fn judge(&self, t: Task) -> Verdict {
        self.sky.judge(t)
    }

    fn judge_quarters(&self, t: Task, kept: &mut KeptSky) -> [Judged; 4] {
        self.sky.judge_quarters(t, kept)
    }
}
