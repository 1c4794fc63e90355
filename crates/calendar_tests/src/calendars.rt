// The commands `ical` and `agenda`.
use no_memory::NoMemory;
use run_samples::{
    Answer, ORDER_B, TEN_DAYS, TWO_PARTS, answer_to, expect, expect_text, expect_texts,
    expect_usage, order_over, text_of,
};
use std::alloc::{AllocError, Global};
use std::process::Abort;
use std::sync::Wait;
use std::test::Fail;
use std::thread::Threads;
use timetable::Status;

/// The minutes of one place and one day.
const MINUTES: [(&str, &str); 7] = [
    ("fajr", "0445"),
    ("fajr_end", "0559"),
    ("dhuhr", "1203"),
    ("asr", "1529"),
    ("maghrib", "1807"),
    ("maghrib_end", "1917"),
    ("isha", "1918"),
];

const AGENDA_B: &str = "2000-01-01T04:45Z fajr
2000-01-01T05:59Z fajr_end
2000-01-01T12:03Z dhuhr
2000-01-01T15:29Z asr
2000-01-01T18:07Z maghrib
2000-01-01T19:17Z maghrib_end
2000-01-01T19:18Z isha
end events 7
";

/// Without its first line.
const AGENDA_WITHOUT_FAJR: &str = "2000-01-01T05:59Z fajr_end
2000-01-01T12:03Z dhuhr
2000-01-01T15:29Z asr
2000-01-01T18:07Z maghrib
2000-01-01T19:17Z maghrib_end
2000-01-01T19:18Z isha
end events 6
";

/// The calendar's event of a column.
fn event_of(alloc: Global, column: &str, time: &str) -> Result<String, AllocError> {
    format!(in alloc;
        "BEGIN:VEVENT\r\nUID:2000-01-01-{column}-100000-0@timetable.invalid\r\nDTSTAMP:20000101T000000Z\r\nDTSTART:20000101T{time}00Z\r\nSUMMARY:{column}\r\nDESCRIPTION:Safe at every point of the district. Method mwl\\, asr standard\\\r\n , zone 0\r\nEND:VEVENT\r\n"
    )
}

/// The calendar's events behind a text.
fn push_events(alloc: Global, text: &mut String) -> Result<(), AllocError> {
    for (column, time) in &MINUTES {
        text.push_str(event_of(alloc, column, time)?.as_str())?;
    }
    Ok(())
}

/// The calendar of one place and one day.
fn calendar_b(alloc: Global) -> Result<String, AllocError> {
    let mut text = String::from_str(
        alloc,
        "BEGIN:VCALENDAR\r\nVERSION:2.0\r\nPRODID:-//district timetables//ical 1//EN\r\n",
    )?;
    push_events(alloc, &mut text)?;
    text.push_str("END:VCALENDAR\r\n")?;
    Ok(text)
}

const WRONG_LINES: [&str; 5] = [
    "ical now",
    "ical --workers 0",
    "ical --form 1",
    "agenda now",
    "agenda --",
];

#[test]
fn an_order_gets_its_calendar(rt: HostRuntime) -> Result<(), Fail> {
    let calendar = calendar_b(rt.alloc())?;
    let lines = ["ical", "ical --workers 2"];
    expect_texts(&rt, &lines, ORDER_B.as_bytes(), calendar.as_str())?;
    expect_usage(&rt, &WRONG_LINES)
}

/// What is replaced in the calendar and by what, and its agenda.
const CHANGES: [(&str, &str, &str); 5] = [
    ("\0", "", AGENDA_B),
    ("SUMMARY", "SUMM\r\n\tARY", AGENDA_B),
    ("BEGIN:VEVENT", "begin:vevent", AGENDA_B),
    ("SUMMARY:fajr\r\n", "", AGENDA_WITHOUT_FAJR),
    ("20000101T044500Z", "20000101T044501Z", AGENDA_WITHOUT_FAJR),
];

#[test]
fn a_calendar_gets_its_agenda(rt: HostRuntime) -> Result<(), Fail> {
    for (old, new, agenda) in &CHANGES {
        let calendar = calendar_b(rt.alloc())?.replace(rt.alloc(), old, new)?;
        expect_text(&rt, "agenda", calendar.as_bytes(), agenda)?;
    }
    Ok(())
}

/// What is no calendar, and the line that refuses it.
const NO_CALENDARS: [(&str, &str); 4] = [
    ("", "ical refused line 1 fault 2\n"),
    ("BEGIN:VCALENDAR", "ical refused line 2 fault 2\n"),
    ("HELLO", "ical refused line 1 fault 1\n"),
    (
        "BEGIN:VCALENDAR\nEND:VCALENDAR\n",
        "ical refused line 1 fault 1\n",
    ),
];

#[test]
fn what_is_no_calendar_is_refused_at_its_line(rt: HostRuntime) -> Result<(), Fail> {
    for (text, line) in &NO_CALENDARS {
        expect(
            &rt,
            "agenda",
            text.as_bytes(),
            Status::IcalRefused,
            "",
            line,
        )?;
    }
    let uid = "UID:2000-01-01-fajr-100000-0@timetable.invalid\r\n";
    let calendar = calendar_b(rt.alloc())?.replace(rt.alloc(), uid, "")?;
    let line = "ical refused line 9 fault 3\n";
    expect(
        &rt,
        "agenda",
        calendar.as_bytes(),
        Status::IcalRefused,
        "",
        line,
    )
}

/// The agenda of the calendar that the words write of an order.
fn agenda_of<R: Threads + Wait + Sync + AllocGlobal>(
    rt: &R,
    line: &str,
    order: &[u8],
) -> Result<Answer, NoMemory> {
    let calendar = answer_to(rt, line, order)?;
    answer_to(rt, "agenda", calendar.out.bytes())
}

/// The agenda has this beginning and this end.
fn expect_ends(rt: &impl Abort, agenda: &Answer, first: &str, last: &str) {
    let text = text_of(&agenda.out);
    assert_eq!(rt; agenda.status, Status::Done);
    assert!(rt; text.starts_with(first) && text.ends_with(last));
}

#[test]
fn a_first_day_may_begin_in_the_year_before(rt: HostRuntime) -> Result<(), Fail> {
    let early = ORDER_B
        .replace(rt.alloc(), "2000", "1900")?
        .replace(rt.alloc(), "\"zone\":0", "\"zone\":840")?;
    let agenda = agenda_of(&rt, "ical", early.as_bytes())?;
    expect_ends(&rt, &agenda, "1899-12-31T04:45Z fajr\n", "end events 7\n");
    Ok(())
}

#[test]
fn days_that_are_searched_together_are_in_order(rt: HostRuntime) -> Result<(), Fail> {
    let order = order_over(rt.alloc(), TEN_DAYS, TWO_PARTS)?;
    let agenda = agenda_of(&rt, "ical --workers 3", order.as_bytes())?;
    expect_ends(&rt, &agenda, "2025-02-22T", "end events 70\n");
    Ok(())
}
