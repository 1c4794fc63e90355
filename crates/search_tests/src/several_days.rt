// Several days of one place in one search.
ghost use Rattle.std.specs.Prelude.{◌≡◌, ◌*◌, ◌<◌, ◌^◌, None, IfOk, length, neg_ℤ, pos, ◌≤ℤ◌};
ghost use Rattle.ring_survey.specs.Faults.{first_fault};
ghost use Rattle.plain_search.specs.Harvests.{IsHarvest};

use cell_judge::Sky;
use cell_split::{Entry, Judge};
use covering::entry_of;
use days_sky::{Day, DaysSky};
use method_table::{Asr, Method, problems};
use plain_search::{Harvest, search_plain};
use region::{District, RegionFault};
use std::alloc::{AllocError, Global};
use std::sync::Wait;
use std::test::Fail;
use std::thread::Threads;
use steal_pool::{OpenGate, search};

// One place, 0.1 degrees east on the equator, as a ring of four equal positions.
fn place(alloc: Global) -> Result<District, RegionFault>
    ensures { IfOk result (λ d. first_fault d ≡ None) }
{
    let mut polygon = Vec::new(alloc);
    polygon.push([(100_000, 0); 4].to_vec(alloc)?)?;
    let mut polygons = Vec::new(alloc);
    polygons.push(polygon)?;
    District::new(alloc, polygons)
}

// A day since 1970-01-01 by the Muslim World League, at Greenwich.
fn day_of(number: i32) -> Day
    requires not_early { neg_ℤ (pos 25567) ≤ℤ number }
    requires not_late { number ≤ℤ pos 47846 }
{
    let problems = problems(Method::Mwl, Asr::Standard, number, 0, 720, 0, 90);
    Day::new(problems)
}

fn entries_of<J: Judge>(
    alloc: Global,
    judge: &J,
    harvest: &Harvest,
) -> Result<Vec<Entry>, AllocError>
    requires { IsHarvest (J.content judge.now) harvest.now.refuted harvest.now.leaves }
{
    let mut entries = Vec::new(alloc);
    for k in 0..judge.problems() {
        entries.push(entry_of(judge, harvest, k))?;
    }
    Ok(entries)
}

// The entries of all days, from one search by two workers.
fn entries_together<R: Threads + Wait + Sync>(
    rt: &R,
    alloc: Global,
    sky: &Sky,
    days: &[Day],
) -> Result<Vec<Entry>, Fail>
    requires { 7 * length days.now < 2 ^ 32 }
{
    let all_days = DaysSky::new(sky, days);
    let harvest = search(rt, alloc, &all_days, 2, &OpenGate)?;
    Ok(entries_of(alloc, &all_days, &harvest)?)
}

// The same day by day, each under its own sky.
fn entries_apart(alloc: Global, sky: &mut Sky, days: &[Day]) -> Result<Vec<Entry>, Fail> {
    let mut entries = Vec::new(alloc);
    for day in days {
        sky.turn_to(day.problems);
        let harvest = search_plain(alloc, sky)?;
        entries.append(&mut entries_of(alloc, sky, &harvest)?)?;
    }
    Ok(entries)
}

#[test]
fn one_search_gives_the_entries_of_every_day(rt: HostRuntime) -> Result<(), Fail> {
    let days = [day_of(10_957), day_of(11_050), day_of(11_140)];
    let mut sky = Sky::new(rt.alloc(), place(rt.alloc())?, days[2].problems)?;
    let together = entries_together(&rt, rt.alloc(), &sky, &days)?;
    let apart = entries_apart(rt.alloc(), &mut sky, &days)?;
    assert_eq!(rt; together.len(), 21);
    assert_eq!(rt; together.as_slice(), apart.as_slice());
    Ok(())
}
