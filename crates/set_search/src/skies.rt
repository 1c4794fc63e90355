// The skies over the districts of a set.
ghost use Rattle.std.specs.Prelude.{◌≡◌, ◌≤◌, length, map, All, IfOk};
ghost use Rattle.cell_judge.specs.Limits.{AreInLimits, IsOver};
ghost use Rattle.cell_split.specs.Cells.{IsRoot};
ghost use Rattle.order_table.specs.Trees.{root_over};
ghost use Rattle.set_reader.specs.Together.{AreParts};
ghost use Rattle.set_search.specs.Scopes.{scope_of, scope_over};

use cell_judge::Sky;
use cell_split::Cell;
use method_table::{Problem, SunChoice};
use no_memory::NoMemory;
use region::District;
use set_reader::Parts;
use std::alloc::Global;

/// The root over all districts of a set together.
pub fn root_of(whole: &District, parts: &Parts) -> Cell
    requires { AreParts whole.now parts.now }
    ensures value { result ≡ root_over whole.now }
    ensures root { IsRoot result }
    ensures over { All (IsOver result) parts.now }
{
    whole.has_no_fault();
    cell_judge::root_over(whole)
}

/// The sky over a district under this sun, with a root that is given.
fn sky_over(
    alloc: Global,
    sun: SunChoice,
    root: Cell,
    district: District,
    problems: [Problem; 7],
) -> Result<Sky, NoMemory>
    requires root { IsRoot root }
    requires over { IsOver root district }
    requires limits { AreInLimits problems }
    ensures { IfOk result (λ sky. scope_of sky ≡ scope_over sun root district) }
{
    let sky = Sky::new_in(alloc, district, problems, root)?;
    Ok(sky.under(sun))
}

/// The sky over each district, all under this sun and with one root. Want of memory is its only fault.
pub fn skies_over(
    alloc: Global,
    sun: SunChoice,
    root: Cell,
    mut parts: Parts,
    problems: [Problem; 7],
) -> Result<Vec<Sky>, NoMemory>
    requires root { IsRoot root }
    requires over { All (IsOver root) parts }
    requires limits { AreInLimits problems }
    ensures { IfOk result (λ skies. map scope_of skies.items ≡ map (scope_over sun root) parts) }
{
    let mut skies = Vec::new(alloc);
    'parts: while let Some(part) = parts.take_first() {
        skies.push(sky_over(alloc, sun, root, part, problems)?)?;
    }
    Ok(skies)
}
