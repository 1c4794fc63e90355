// The ranks that decide an order's entries, by several workers, so many days in a search.
ghost use Rattle.std.specs.Prelude.{◌<◌, ◌≤◌, ◌^◌, length};

use crate::cells::{Day, days_of, order_in};
use anyhow::{Context, Result, anyhow};
use cell_judge::Sky;
use days_sky::DaysSky;
use std::alloc::Global;
use std::io::Read;
use std::sync::Wait;
use std::thread::Threads;
use steal_pool::{OpenGate, search_ranks};

/// The sum of the refuted ranks of the order that the input holds.
pub fn searched<T: Threads + Wait + Sync, R: Read + Drop>(
    rt: &T,
    alloc: Global,
    input: R,
    days_together: usize,
    workers: u32,
) -> Result<u64>
    requires some_days { 1 ≤ days_together }
    requires some_workers { 1 ≤ workers }
    requires few_workers { workers ≤ 16 }
{
    let order = order_in(alloc, input)?;
    let days = days_of(alloc, &order)?;
    let first = days.first().context("no days")?;
    let sky = Sky::new(alloc, order.district, first.problems)
        .ok()
        .context("no memory")?;
    let mut sum = 0u64;
    for part in days.chunks(days_together) {
        sum = sum.wrapping_add(searched_together(rt, alloc, &sky, part, workers)?);
    }
    Ok(sum)
}

// The same of these days, by one search.
fn searched_together<T: Threads + Wait + Sync>(
    rt: &T,
    alloc: Global,
    sky: &Sky,
    days: &[Day],
    workers: u32,
) -> Result<u64>
    requires some { 1 ≤ workers }
    requires few { workers ≤ 16 }
{
    let mut judged = Vec::new(alloc);
    for day in days {
        judged.push(days_sky::Day::new(day.problems))?;
    }
    if judged.len() > 366 {
        return Err(anyhow!("too many days"));
    }
    let all = DaysSky::new(sky, &judged);
    let found = search_ranks(rt, alloc, &all, workers, &OpenGate)
        .ok()
        .context("no memory")?;
    let mut sum = 0u64;
    for ranks in &found {
        sum = sum.wrapping_add(u64::from(ranks.refuted.unwrap_or(0)));
    }
    Ok(sum)
}
