// Calendars, right ones and wrong ones, and events as they are written. The answers are those of the reference.
use ical_text::laws::{
    calendars_are_read_again, lines_decide, reading_is_exact, readings_agree, tables_are_read_again,
};
use ical_text::{Event, Events, IcalFault, calendar_end, calendar_head, event_text, read_ical};
use method_table::{Asr, Method, problems};
use no_memory::NoMemory;
use std::alloc::{AllocError, Global};
use std::process::Abort;
use std::test::Fail;

// whole texts, in which | stands for CR LF
const TEXTS: [(&str, &str); 21] = [
    ("", "frame 1"),
    ("HELLO|", "no line 1"),
    ("BEGIN:VCALENDAR|", "frame 2"),
    ("BEGIN:VCALENDAR", "frame 2"),
    ("BEGIN:VCALENDAR|END:VCALENDAR|", ""),
    ("BEGIN:VCALENDAR|END:VCALENDAR", ""),
    ("BEGIN:VCALENDAR|END:VCALENDAR||", "no line 3"),
    ("BEGIN:VCALENDAR|END:VCALENDAR|X:1|", "frame 3"),
    ("BEGIN:VCALENDAR|END:VCALENDAR|\n", "no line 3"),
    ("|", "no line 1"),
    ("|BEGIN:VCALENDAR|END:VCALENDAR|", "no line 1"),
    (" BEGIN:VCALENDAR|END:VCALENDAR|", "no line 1"),
    ("BEGIN:VCALENDAR\nEND:VCALENDAR\n", "no line 1"),
    ("BEGIN:VCAL| ENDAR|END:VCALENDAR", ""),
    ("BEGIN:VCALENDAR| |\tX|END:VCALENDAR", "frame 1"),
    ("begin;x=\":\":vcalendar|END;Y:VCalendar|", ""),
    ("BEGIN:VCALENDAR |END:VCALENDAR|", "frame 1"),
    ("BEGIN:VEVENT|END:VEVENT|", "frame 1"),
    ("END:VCALENDAR|", "frame 1"),
    ("BEGIN:VCALENDAR|BEGIN:A|", "frame 3"),
    (
        "BEGIN:VCALENDAR|BEGIN:VEVENT|UID:u|DTSTART:20000101T120000Z|SUMMARY:s|END:VEVENT|BEGIN:VEVENT|END:VEVENT|HELLO|",
        "event 8",
    ),
];

// lines in a calendar
const LINES: [(&str, &str); 22] = [
    ("X-1;A=\"b:c\";D=e:f:g|", ""),
    ("X;A=\"b:c|", "no line 2"),
    ("X;A=\"b\"c\":d:e|", "no line 2"),
    ("X\"a:b|", "no line 2"),
    (":v|", "no line 2"),
    (";a:v|", "no line 2"),
    ("X;:v|", ""),
    ("X|", "no line 2"),
    ("X_:1|", "no line 2"),
    ("X:a\rb|", "no line 2"),
    ("X:a\nb|", "no line 2"),
    ("X:a\r|", "no line 2"),
    ("END:VEVENT|", "frame 2"),
    ("BEGIN:A|BEGIN:B|END:A|END:B|", "frame 4"),
    ("BEGIN:a|END:A|", ""),
    ("BEGIN:A|", "frame 3"),
    (
        "BEGIN:A|BEGIN:A|BEGIN:A|BEGIN:A|BEGIN:A|BEGIN:A|BEGIN:A|END:A|END:A|END:A|END:A|END:A|END:A|END:A|",
        "",
    ),
    (
        "BEGIN:A|BEGIN:A|BEGIN:A|BEGIN:A|BEGIN:A|BEGIN:A|BEGIN:A|BEGIN:A|END:A|END:A|END:A|END:A|END:A|END:A|END:A|END:A|",
        "frame 9",
    ),
    (
        "BEGIN:X|BEGIN:VEVENT|UID:u|DTSTART:20000101T120000Z|SUMMARY:s|END:VEVENT|END:X|",
        "",
    ),
    (
        "BEGIN:VTODO|DTSTART:20000101T120000Z|SUMMARY:s|END:VTODO|",
        "",
    ),
    ("UID:a|UID:b|", ""),
    (
        "begin:vevent|UID:u|DTSTART:20000101T120000Z|SUMMARY:s|End:VEvent|BEGIN:VEVENT|UID:v|SUMMARY:|DTSTART:20000101T120100Z|END:VEVENT|",
        "0 u s;1 v ;",
    ),
];

// lines in an event
const PROPERTIES: [(&str, &str); 11] = [
    ("DTSTART:20000101T120000Z|UID:u|SUMMARY:s|X:1|", "0 u s;"),
    (
        "uid:u|dtstart;VALUE=DATE-TIME:20000101T120000Z|Summary:S|",
        "0 u S;",
    ),
    ("UID:u|DTSTART:20000101T120000Z|", ""),
    ("UID:u|SUMMARY:s|", ""),
    ("DTSTART:20000101T120000Z|SUMMARY:s|", "event 5"),
    ("UID:u|UID:u|DTSTART:20000101T120000Z|SUMMARY:s|", "event 7"),
    (
        "UID:u|DTSTART:20000101T120000Z|DTSTART:20000101T120000Z|SUMMARY:s|",
        "event 7",
    ),
    (
        "UID:u|DTSTART:20000101T120000Z|SUMMARY:s|BEGIN:VALARM|UID:a|SUMMARY:b|SUMMARY:c|DTSTART:d|END:VALARM|",
        "0 u s;",
    ),
    (
        "BEGIN:VALARM|UID:a|END:VALARM|DTSTART:20000101T120000Z|SUMMARY:s|",
        "event 8",
    ),
    (
        "U| ID:u|  v|DTSTART:20000101|\tT120000Z|SUMMARY:s| \tt|",
        "0 u v s\tt;",
    ),
    (
        "UID:u|DTSTART:20000101T120000Z|SUMMARY:s|SUMMARY:s|",
        "event 7",
    ),
];

// values of DTSTART
const MOMENTS: [(&str, &str); 16] = [
    ("20000101T120000Z", "0 u s;"),
    ("20000101", ""),
    ("20000101T120001Z", ""),
    ("20000101T120000", ""),
    ("20000230T120000Z", ""),
    ("20000229T235900Z", "85679 u s;"),
    ("19000229T235900Z", ""),
    ("18981231T235900Z", ""),
    ("18990101T000000Z", "-53120880 u s;"),
    ("21011231T235900Z", "53646479 u s;"),
    ("21020101T000000Z", ""),
    ("20000101T240000Z", ""),
    ("20000101T126000Z", ""),
    ("2000010aT120000Z", ""),
    ("00000101T000000Z", ""),
    ("20001301T000000Z", ""),
];

fn fault_text(alloc: Global, fault: IcalFault) -> Result<String, AllocError> {
    match fault {
        IcalFault::NotLine(line) => format!(in alloc; "no line {line}"),
        IcalFault::Frame(line) => format!(in alloc; "frame {line}"),
        IcalFault::Event(line) => format!(in alloc; "event {line}"),
        IcalFault::NoMemory => String::from_str(alloc, "no memory"),
    }
}

fn push_word(text: &mut Vec<u8>, word: &[u8], end: u8) -> Result<(), AllocError> {
    text.extend_from_slice(word)?;
    Ok(text.push(end)?)
}

fn push_event(alloc: Global, text: &mut Vec<u8>, event: &Event) -> Result<(), AllocError> {
    push_word(text, event.start.to_string(alloc)?.as_bytes(), b' ')?;
    push_word(text, event.uid.bytes(), b' ')?;
    push_word(text, event.summary.bytes(), b';')
}

// of each event its minute, its UID and its SUMMARY
fn events_text(alloc: Global, events: &Events) -> Result<Vec<u8>, AllocError> {
    let mut text = Vec::new(alloc);
    for i in 0..events.count() {
        push_event(alloc, &mut text, events.event(i))?;
    }
    Ok(text)
}

fn answer(alloc: Global, text: &str) -> Result<Vec<u8>, AllocError> {
    match read_ical(alloc, text.as_bytes()) {
        Ok(events) => events_text(alloc, &events),
        Err(fault) => Ok(fault_text(alloc, fault)?.into_bytes()),
    }
}

// a text with something in front and behind, and the ends of its lines
fn calendar_of(alloc: Global, front: &str, lines: &str, back: &str) -> Result<String, AllocError> {
    let text = format!(in alloc; "{front}{lines}{back}")?;
    text.replace(alloc, "|", "\r\n")
}

fn expect_answer(
    rt: &(impl Abort + AllocGlobal),
    text: &str,
    want: &str,
    lines: &str,
) -> Result<(), Fail> {
    let got = answer(rt.alloc(), text)?;
    assert_eq!(rt; (lines, got.as_slice()), (lines, want.as_bytes()));
    Ok(())
}

// the answers to texts with something in front and behind
fn with_lines(
    rt: &(impl Abort + AllocGlobal),
    front: &str,
    rows: &[(&str, &str)],
    back: &str,
) -> Result<(), Fail> {
    for (lines, want) in rows {
        let text = calendar_of(rt.alloc(), front, lines, back)?;
        expect_answer(rt, text.as_str(), want, lines)?;
    }
    Ok(())
}

#[test]
fn texts_are_calendars_or_have_a_first_fault(rt: HostRuntime) -> Result<(), Fail> {
    with_lines(&rt, "", &TEXTS, "")
}

#[test]
fn lines_are_properties_in_their_place(rt: HostRuntime) -> Result<(), Fail> {
    with_lines(&rt, "BEGIN:VCALENDAR|", &LINES, "END:VCALENDAR|")
}

#[test]
fn events_have_their_own_properties(rt: HostRuntime) -> Result<(), Fail> {
    let front = "BEGIN:VCALENDAR|BEGIN:VEVENT|";
    let back = "END:VEVENT|END:VCALENDAR|";
    with_lines(&rt, front, &PROPERTIES, back)
}

#[test]
fn moments_are_real_and_near(rt: HostRuntime) -> Result<(), Fail> {
    let front = "BEGIN:VCALENDAR|BEGIN:VEVENT|UID:u|DTSTART:";
    let back = "|SUMMARY:s|END:VEVENT|END:VCALENDAR|";
    with_lines(&rt, front, &MOMENTS, back)
}

// The event of Fajr at rank 285 of 2000-01-01 at a place of no longitude, and that of Isha's last rank of the last day.
const FAJR: &str =
    "BEGIN:VEVENT\r\nUID:2000-01-01-fajr-100000-0@timetable.invalid\r\nDTSTAMP:20000101T000000Z\r\nDTSTART:20000101T044500Z\r\nSUMMARY:fajr\r\nDESCRIPTION:Safe at every point of the district. Method mwl\\, asr standard\\\r\n , zone 0\r\nEND:VEVENT\r\n";

const ISHA: &str =
    "BEGIN:VEVENT\r\nUID:2100-12-31-isha--180000000-65000000@timetable.invalid\r\nDTSTAMP:21001231T000000Z\r\nDTSTART:21010101T120000Z\r\nSUMMARY:isha\r\nDESCRIPTION:Safe at every point of the district. Method mwl\\, asr standard\\\r\n , zone EST12EDT\\,M3.2.0\\,M11.1.0\r\nEND:VEVENT\r\n";

fn fajr_event(alloc: Global) -> Result<Vec<u8>, NoMemory> {
    let (mwl, standard) = (Method::Mwl, Asr::Standard);
    let [fajr, _, _, _, _, _, _] = problems(mwl, standard, 10_957, 0, 720, 0, 90);
    event_text(
        alloc, 10_957, &fajr, 285, 10_957, 100_000, 0, mwl, standard, "0",
    )
}

fn isha_event(alloc: Global) -> Result<Vec<u8>, NoMemory> {
    let (mwl, standard) = (Method::Mwl, Asr::Standard);
    let [_, _, _, _, _, _, isha] = problems(mwl, standard, 47_846, -720, 720, 0, 90);
    event_text(
        alloc,
        47_846,
        &isha,
        720,
        47_846,
        -180_000_000,
        65_000_000,
        mwl,
        standard,
        "EST12EDT,M3.2.0,M11.1.0",
    )
}

fn expect_event(rt: &impl Abort, got: Result<Vec<u8>, NoMemory>, want: &str) -> Result<(), Fail> {
    let got = got?;
    assert_eq!(rt; got.as_slice(), want.as_bytes());
    Ok(())
}

const EVENTS: &str =
    "-435 2000-01-01-fajr-100000-0@timetable.invalid fajr;53121600 2100-12-31-isha--180000000-65000000@timetable.invalid isha;";

fn the_laws_stand() {
    reading_is_exact();
    readings_agree();
    lines_decide();
    calendars_are_read_again();
    tables_are_read_again();
}

#[test]
fn events_are_written_and_read_again(rt: HostRuntime) -> Result<(), Fail> {
    let alloc = rt.alloc();
    expect_event(&rt, fajr_event(alloc), FAJR)?;
    expect_event(&rt, isha_event(alloc), ISHA)?;
    the_laws_stand();
    let text = format!(in alloc; "{}{FAJR}{ISHA}{}", calendar_head(), calendar_end())?;
    expect_answer(&rt, text.as_str(), EVENTS, "two events")
}
