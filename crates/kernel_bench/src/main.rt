// Runs one kernel of the product many times, for measurements alone: no part of the product.
// Contract: none beyond safety; it prints a sum over the results, by which two programs are compared.
#![tactic(auto)]

mod border;
mod boxes;
mod cells;
mod counting;
mod json;
mod pools;
mod series;
mod sums;
mod tree_order;

use anyhow::{Context, Result, bail};
use std::alloc::Global;
use std::env;

const USAGE: &str =
    "usage: kernel_bench series|contains|meets|meets_by_strip COUNT | json | cells[_in_tree_order] | pools DAYS WORKERS";

fn main(rt: HostRuntime) -> Result<()> {
    let mut words = env::args(&rt)?.skip(1);
    let kernel = words.next().context(USAGE)?;
    let sum = match kernel.as_str() {
        "json" => json::items(rt.alloc(), rt.stdin())?,
        "cells" => cells::judged(rt.alloc(), rt.stdin())?,
        "cells_in_tree_order" => cells::judged_in_tree_order(rt.alloc(), rt.stdin())?,
        "pools" => {
            let days = count(words.next().context(USAGE)?.as_str())?.clamp(1, 366);
            let workers = count(words.next().context(USAGE)?.as_str())?.clamp(1, 16);
            pools::searched(&rt, rt.alloc(), rt.stdin(), days as usize, workers as u32)?
        }
        kernel => {
            let times = count(words.next().context(USAGE)?.as_str())?;
            counted(rt.alloc(), kernel, times)?
        }
    };
    println!(rt; "{sum}")?;
    Ok(())
}

fn count(word: &str) -> Result<u64> {
    word.parse::<u64>().context("a count is a whole number")
}

// The sum of a kernel that runs so many times.
fn counted(alloc: Global, kernel: &str, count: u64) -> Result<u64> {
    match kernel {
        "series" => Ok(series::sines(count)),
        "contains" => boxes::contains(alloc, count),
        "meets" => boxes::meets(alloc, count),
        "meets_by_strip" => boxes::meets_by_strip(alloc, count),
        _ => bail!("{USAGE}"),
    }
}
