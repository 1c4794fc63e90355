// What lines show, and why they show nothing.
use crate::settled::settled;
use cell_split::{Entry, Judge, root_at};
use covering::{cover_line, cover_line_1};
use covering_check::{CoverFault, check_line};
use plane_edges::Point;
use sample_judges::{Late, Sure, Threshold};
use std::alloc::Global;
use std::process::Abort;
use std::test::Fail;

// What a line of these members shows of a judge's first problem.
fn shown<J: Judge>(
    rt: &impl Abort,
    alloc: Global,
    judge: &J,
    members: &str,
) -> Result<Result<Entry, CoverFault>, Fail> {
    assert!(rt; judge.problems() > 0);
    let line = format!(in alloc; "{{\"column\":\"fajr\",\"day\":\"2000-01-01\",{members}}}")?;
    Ok(check_line(alloc, judge, 0, "fajr", "2000-01-01", line.as_bytes()))
}

#[test]
fn letters_are_read_one_by_one_or_in_runs(rt: HostRuntime) -> Result<(), Fail> {
    let rows = [
        (r#""tree":"p""#, Ok(Entry::Whole)),
        (r#""runs":"p""#, Ok(Entry::Whole)),
        (r#""runs":"1p""#, Ok(Entry::Whole)),
        (r#""runs":"p","tree":7"#, Ok(Entry::Whole)),
        (r#""tree":"""#, Err(CoverFault::Short)),
        (r#""tree":"pk""#, Err(CoverFault::Long)),
        (r#""tree":"p?""#, Err(CoverFault::Long)),
        (r#""tree":"s""#, Err(CoverFault::NotShown(0))),
        (r#""tree":"1p""#, Err(CoverFault::Letter(0))),
        (r#""runs":"2p""#, Err(CoverFault::Long)),
        (r#""runs":"p7""#, Err(CoverFault::Long)),
        (r#""runs":"02p""#, Err(CoverFault::Letter(0))),
        (r#""runs":"12""#, Err(CoverFault::Short)),
        (r#""runs":"1234567890p""#, Err(CoverFault::Letter(9))),
        (r#""runs":"12x""#, Err(CoverFault::NotShown(2))),
        (r#""runs":"x""#, Err(CoverFault::NotShown(0))),
        (r#""runs":7,"tree":"p""#, Err(CoverFault::NotLine)),
    ];
    for (letters, wanted) in &rows {
        let members = format!(in rt.alloc(); "\"point\":[],\"r\":-1,\"refuted\":[],{letters}")?;
        let found = shown(&rt, rt.alloc(), &Sure, members.as_str())?;
        assert_eq!(rt; found, *wanted);
    }
    Ok(())
}

#[test]
fn members_have_their_forms(rt: HostRuntime) -> Result<(), Fail> {
    let rows = [
        (
            r#""point":[],"r":721,"refuted":[],"tree":"p""#,
            CoverFault::NotLine,
        ),
        (
            r#""point":[],"r":-1.0,"refuted":[],"tree":"p""#,
            CoverFault::NotLine,
        ),
        (
            r#""point":[],"r":null,"refuted":[],"tree":"p""#,
            CoverFault::NotLine,
        ),
        (
            r#""point":[1],"r":-1,"refuted":[],"tree":"p""#,
            CoverFault::NotLine,
        ),
        (
            r#""point":[],"r":-1,"refuted":{},"tree":"p""#,
            CoverFault::NotLine,
        ),
        (
            r#""point":["12800000","0","1"],"r":720,"refuted":[12800000,0,4,720],"tree":"k""#,
            CoverFault::NotLine,
        ),
        (
            r#""point":["12800000","0","01"],"r":720,"refuted":[12800000,0,4,720,720],"tree":"k""#,
            CoverFault::NotLine,
        ),
        (
            r#""point":["12800000","-0","1"],"r":720,"refuted":[12800000,0,4,720,720],"tree":"k""#,
            CoverFault::NotLine,
        ),
        (
            r#""point":["12800000","0","0"],"r":720,"refuted":[12800000,0,4,720,720],"tree":"k""#,
            CoverFault::NotLine,
        ),
        (
            r#""point":["1180591620717411303425","0","1"],"r":720,"refuted":[12800000,0,4,720,720],"tree":"k""#,
            CoverFault::NotLine,
        ),
        (
            r#""point":["11111111111111111111111111111111111111111","0","1"],"r":720,"refuted":[12800000,0,4,720,720],"tree":"k""#,
            CoverFault::NotLine,
        ),
        (
            r#""point":["1","0","1"],"r":720,"refuted":[1,0,256,720,720],"tree":"k""#,
            CoverFault::NotLine,
        ),
        (
            r#""point":["12800000","0","1"],"r":720,"refuted":[12800000,0,4,720,720],"tree":"k""#,
            CoverFault::NotFailing,
        ),
        (
            r#""point":["1","0","1"],"r":720,"refuted":[-9223372036854775808,9223372036854775807,255,4294967295,720],"tree":"k""#,
            CoverFault::NotFailing,
        ),
    ];
    for (members, wanted) in &rows {
        let found = shown(&rt, rt.alloc(), &Sure, members)?;
        assert_eq!(rt; found, Err(*wanted));
    }
    let column = check_line(
        rt.alloc(),
        &Sure,
        0,
        "isha",
        "2000-01-01",
        br#"{"column":"fajr","day":"2000-01-01","point":[],"r":-1,"refuted":[],"tree":"p"}"#,
    );
    assert_eq!(rt; column, Err(CoverFault::Column));
    let text = check_line(rt.alloc(), &Sure, 0, "fajr", "2000-01-01", b"\xff");
    assert_eq!(rt; text, Err(CoverFault::NotLine));
    Ok(())
}

#[test]
fn a_place_is_compared_by_its_numbers(rt: HostRuntime) -> Result<(), Fail> {
    let judge = Late::new(root_at(100_000, 0), Point::new(12_800_000, 0, 1));
    let same = shown(
        &rt,
        rt.alloc(),
        &judge,
        r#""point":["12800000","0","1"],"r":720,"refuted":[12800000,0,29,360,720],"runs":"k""#,
    )?;
    let twice = shown(
        &rt,
        rt.alloc(),
        &judge,
        r#""point":["25600000","0","2"],"r":720,"refuted":[12800000,0,29,360,720],"runs":"k""#,
    )?;
    let earlier = shown(
        &rt,
        rt.alloc(),
        &judge,
        r#""point":["12800000","0","1"],"r":720,"refuted":[12800000,0,29,360,719],"runs":"k""#,
    )?;
    let cut_late = shown(
        &rt,
        rt.alloc(),
        &judge,
        r#""point":["12800000","0","1"],"r":719,"refuted":[12800000,0,29,360,719],"runs":"k""#,
    )?;
    assert_eq!(rt; same, Ok(Entry::Never));
    assert_eq!(rt; twice, Err(CoverFault::NotFailing));
    assert_eq!(rt; earlier, Err(CoverFault::NotFailing));
    assert_eq!(rt; cut_late, Err(CoverFault::NotShown(0)));
    Ok(())
}

#[test]
fn written_lines_are_accepted_and_a_million_letters_are_too_many(
    rt: HostRuntime,
) -> Result<(), Fail> {
    let judge = Threshold::new(root_at(100_000, 0), Point::new(12_800_000, 0, 1));
    assert!(rt; judge.problems() > 0);
    let settled = settled(&rt, rt.alloc(), &judge)?;
    let runs = cover_line(rt.alloc(), "fajr", "2000-01-01", &settled)?;
    let tree = cover_line_1(rt.alloc(), "fajr", "2000-01-01", &settled)?;
    let by_runs = check_line(rt.alloc(), &judge, 0, "fajr", "2000-01-01", runs.as_slice());
    let by_tree = check_line(rt.alloc(), &judge, 0, "fajr", "2000-01-01", tree.as_slice());
    assert_eq!(rt; by_runs, Ok(settled.entry));
    assert_eq!(rt; by_tree, Ok(settled.entry));
    let many = shown(
        &rt,
        rt.alloc(),
        &judge,
        r#""point":["12800000","0","1"],"r":99,"refuted":[12800000,0,25,99,99],"runs":"1000000s""#,
    )?;
    assert_eq!(rt; many, Err(CoverFault::NotShown(7)));
    Ok(())
}
