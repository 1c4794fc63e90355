// The example runs over memory: the exact status of each, and all that it writes.
use no_memory::NoMemory;
use source_sink::SureSink;
use std::alloc::Global;
use std::process::Abort;
use std::test::Fail;
use timetable::Status;
use timetable::examples::{
    first_line, first_sun, first_table, long_calendar, long_order, no_words,
};

const USAGE: &str =
    "usage: timetable table [--workers W] | cover [--workers W] [--form F] | demo [--number M] [--workers W] | plain | check | order | sun MINUTE LON LAT WHAT [meeus] | set [--workers W] | ical [--workers W] | agenda\n";

const LINE: &str =
    "{\"version\":1,\"from\":\"2000-01-01\",\"days\":1,\"method\":\"mwl\",\"asr\":\"standard\",\"zone\":0,\"district\":[[[[0,0],[0,0],[0,0],[0,0]]]]}\n";

const TABLE: &str = "prayer timetable 1
from 2000-01-01 days 1 method mwl asr standard zone 0 positions 4
date         fajr  f.end  dhuhr    asr   magh  m.end   isha
2000-01-01  04:45  05:59  12:04  15:29  18:08  19:17  19:18
end days 1 open 0
";

const SUN: &str = "minute 0 lon 0.000000 lat 0.000000 angle 0.000000 above\n";

/// One byte more than an order or a calendar may have.
const TOO_MANY: usize = 16_777_217;

/// What a run answered.
#[derive(Drop)]
struct Told {
    status: Status,
    out: SureSink,
    err: SureSink,
}

/// Two sinks with room for every text of an example.
fn sinks(alloc: Global) -> Result<(SureSink, SureSink), NoMemory> {
    Ok((SureSink::new(alloc, 1000)?, SureSink::new(alloc, 300)?))
}

/// This is the status, and what the sinks hold.
fn expect(rt: &impl Abort, told: &Told, wanted: (Status, &str, &str)) {
    let (status, text, line) = wanted;
    let found = (told.status, told.out.bytes(), told.err.bytes());
    assert_eq!(rt; found, (status, text.as_bytes(), line.as_bytes()));
}

#[test]
fn no_words_get_the_usage_line(rt: HostRuntime) -> Result<(), Fail> {
    let (mut out, mut err) = sinks(rt.alloc())?;
    let status = no_words(rt.alloc(), &mut out, &mut err);
    expect(&rt, &Told { status, out, err }, (Status::Usage, "", USAGE));
    Ok(())
}

#[test]
fn the_first_sun_is_above(rt: HostRuntime) -> Result<(), Fail> {
    let (mut out, mut err) = sinks(rt.alloc())?;
    let status = first_sun(rt.alloc(), &mut out, &mut err)?;
    expect(&rt, &Told { status, out, err }, (Status::Done, SUN, ""));
    Ok(())
}

#[test]
fn the_first_order_gets_its_line(rt: HostRuntime) -> Result<(), Fail> {
    let (mut out, mut err) = sinks(rt.alloc())?;
    let status = first_line(rt.alloc(), &mut out, &mut err)?;
    expect(&rt, &Told { status, out, err }, (Status::Done, LINE, ""));
    Ok(())
}

#[test]
fn the_first_order_gets_its_table(rt: HostRuntime) -> Result<(), Fail> {
    let (mut out, mut err) = sinks(rt.alloc())?;
    let status = first_table(rt.alloc(), &mut out, &mut err)?;
    expect(&rt, &Told { status, out, err }, (Status::Done, TABLE, ""));
    Ok(())
}

#[test]
fn a_long_order_is_refused(rt: HostRuntime) -> Result<(), Fail> {
    let bytes = vec![in rt.alloc(); 32u8; TOO_MANY]?;
    let (mut out, mut err) = sinks(rt.alloc())?;
    let status = long_order(rt.alloc(), bytes, &mut out, &mut err)?;
    expect(
        &rt,
        &Told { status, out, err },
        (Status::OrderRefused, "", "order refused 8 long\n"),
    );
    Ok(())
}

#[test]
fn a_long_calendar_is_refused(rt: HostRuntime) -> Result<(), Fail> {
    let bytes = vec![in rt.alloc(); 32u8; TOO_MANY]?;
    let (mut out, mut err) = sinks(rt.alloc())?;
    let status = long_calendar(rt.alloc(), bytes, &mut out, &mut err)?;
    expect(
        &rt,
        &Told { status, out, err },
        (Status::IcalRefused, "", "ical refused long\n"),
    );
    Ok(())
}
