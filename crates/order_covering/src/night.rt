// The lines of a day's night: sunrise and sunset, searched, settled and written.
ghost use Rattle.std.specs.Prelude.{◌≡◌, ◌≤◌, IfOk};
ghost use Rattle.order_covering.specs.Covering.{sun_word};
ghost use Rattle.order_covering.specs.Made.{IsSettledNight, content_of_night, night_written, settled_line, settled_night};
ghost use Rattle.outcome.specs.Writing.{Writes};

use crate::date::date_of;
use crate::form::Form;
use crate::line::write_line;
use cell_judge::Sky;
use covering::{Settled, settle};
use days_sky::DaysSky;
use night_portion::{Few, repeated};
use no_memory::NoMemory;
use order_table::{Day, Night};
use outcome::Stop;
use source_sink::Sink;
use std::alloc::Global;
use std::sync::Wait;
use std::thread::Threads;
use steal_pool::{Gate, search};

/// The word of sunrise (0) or sunset (1) in the lines of a covering.
pub fn sun_word(which: u32) -> &'static str
    ensures { result.now ≡ sun_word which }
{
    match which {
        0 => "rise",
        _ => "set",
    }
}

/// What is settled of sunrise and sunset.
#[derive(Drop)]
pub(crate) struct SettledNight {
    pub rise: Settled,
    pub set: Settled,
}

/// Searches sunrise and sunset of a night, and settles both.
fn settle_night<R: Threads + Wait + Sync, G: Gate + Sync>(
    rt: &R,
    alloc: Global,
    sky: &Sky,
    night: &Night,
    workers: u32,
    gate: &G,
) -> Result<SettledNight, NoMemory>
    requires some { 1 ≤ workers }
    requires few { workers ≤ 16 }
    ensures { IfOk result (IsSettledNight (content_of_night sky.now.sun sky.now.district sky.now.root night.now)) }
{
    let days = [days_sky::Day::new(repeated(&night.problems))];
    let days_sky = DaysSky::new(sky, &days);
    let judge = Few::new(&days_sky, 2);
    let harvest = search(rt, alloc, &judge, workers, gate)?;
    let rise = settle(alloc, &judge, &harvest, 0)?;
    let set = settle(alloc, &judge, &harvest, 1)?;
    Ok(SettledNight { rise, set })
}

/// Writes the line of what is settled of sunrise or sunset.
fn write_sun<K: Sink>(
    alloc: Global,
    form: Form,
    word: &str,
    date: &str,
    settled: &Settled,
    out: &mut K,
) -> Result<(), Stop>
    ensures { Writes (settled_line form word.now date.now settled.now) result
        (K.faults out.old) (K.faults out.new) (K.held out.old) (K.held out.new) }
{
    match write_line(alloc, form, word, date, settled, out) {
        Ok(_) => Ok(()),
        Err(stop) => Err(stop),
    }
}

/// Writes the lines of what is settled of a night.
fn write_settled<K: Sink>(
    alloc: Global,
    form: Form,
    date: &str,
    settled: &SettledNight,
    out: &mut K,
) -> Result<(), Stop>
    ensures { Writes (settled_night form date.now settled.now) result
        (K.faults out.old) (K.faults out.new) (K.held out.old) (K.held out.new) }
{
    match write_sun(alloc, form, sun_word(0), date, &settled.rise, out) {
        Ok(()) => write_sun(alloc, form, sun_word(1), date, &settled.set, out),
        Err(stop) => Err(stop),
    }
}

/// Searches the night of a day, where it has one, and writes its two lines.
pub(crate) fn write_night<R: Threads + Wait + Sync, K: Sink, G: Gate + Sync>(
    rt: &R,
    alloc: Global,
    sky: &Sky,
    day: &Day,
    workers: u32,
    form: Form,
    gate: &G,
    out: &mut K,
) -> Result<(), Stop>
    requires some { 1 ≤ workers }
    requires few { workers ≤ 16 }
    ensures { Writes (night_written form sky.now.sun sky.now.district sky.now.root day.now) result
        (K.faults out.old) (K.faults out.new) (K.held out.old) (K.held out.new) }
{
    let Some(night) = &day.night else {
        return Ok(());
    };
    let Ok(date) = date_of(alloc, day) else {
        return Err(Stop::NoMemory);
    };
    match settle_night(rt, alloc, sky, night, workers, gate) {
        Ok(settled) => write_settled(alloc, form, date.as_str(), &settled, out),
        Err(_) => Err(Stop::NoMemory),
    }
}
