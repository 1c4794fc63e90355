// Sets of districts, right ones and wrong ones, with the first refusal of each.
use crate::order_faults::fault_text;
use set_reader::laws::{every_text_is_a_set_or_refused, set_readings_agree, sets_keep_the_rule};
use set_reader::{Parts, SetOrder, read_set};
use std::alloc::{AllocError, Global};
use std::process::Abort;
use std::test::Fail;

const SET: &str =
    r#"{"from":"2000-01-01","days":1,"method":"mwl","asr":"standard","zone":0,"district":{"type":"FeatureCollection","features":[{"type":"Feature","geometry":{"type":"Polygon","coordinates":[[[0,0],[1,0],[0,1],[0,0]]]}},{"type":"Feature","geometry":{"type":"MultiPolygon","coordinates":[[[[2,2],[2,2],[2,2],[2,2],[2,2]]],[[[0,0],[0,0],[0,0],[0,0]]]]}}]}}"#;

const FEATURES: &str =
    r#"[{"type":"Feature","geometry":{"type":"Polygon","coordinates":[[[0,0],[1,0],[0,1],[0,0]]]}},{"type":"Feature","geometry":{"type":"MultiPolygon","coordinates":[[[[2,2],[2,2],[2,2],[2,2],[2,2]]],[[[0,0],[0,0],[0,0],[0,0]]]]}}]"#;

const FEATURE: &str =
    r#"{"type":"Feature","geometry":{"type":"Polygon","coordinates":[[[1,1],[1,1],[1,1],[1,1]]]}},"#;

fn answer(alloc: Global, text: &str) -> Result<String, AllocError> {
    match read_set(alloc, text.as_bytes()) {
        Ok(_) => String::from_str(alloc, "set"),
        Err(fault) => fault_text(alloc, fault),
    }
}

/// A set's text has this answer.
fn expect_answer(rt: &(impl Abort + AllocGlobal), text: &str, want: &str) -> Result<(), Fail> {
    let got = answer(rt.alloc(), text)?;
    assert_eq!(rt; got.as_str(), want, "at {text}");
    Ok(())
}

/// The answer to the set in which a part is another one.
fn expect_changed(
    rt: &(impl Abort + AllocGlobal),
    old: &str,
    new: &str,
    want: &str,
) -> Result<(), Fail> {
    let text = SET.replace(rt.alloc(), old, new)?;
    expect_answer(rt, text.as_str(), want)
}

/// What is replaced in the set and by what, and what it is answered.
const MEMBERS: [(&str, &str, &str); 11] = [
    ("", "", "set"),
    ("mwl", "mecca", "range method"),
    (r#""zone":0"#, r#""zone":0,"sun":"meeus""#, "set"),
    (r#""zone":0"#, r#""zone":0,"night":"half""#, "range night"),
    (r#""zone":0"#, r#""zone":0,"night":"third""#, "range night"),
    (r#""zone":0"#, r#""zone":0,"night":7"#, "kind night"),
    (
        r#""zone":0"#,
        r#""zone":0,"night":7,"night":"half""#,
        "twice night",
    ),
    (
        r#""zone":0"#,
        r#""zone":0,"night":"half","sun":7"#,
        "kind sun",
    ),
    (
        r#""district":{"#,
        r#""night":"half","rest":{"#,
        "range night",
    ),
    (r#""district":{"#, r#""rest":{"#, "missing district"),
    (
        r#""district":{"#,
        r#""district":7,"rest":{"#,
        "kind district",
    ),
];

#[test]
fn a_set_is_an_order_without_a_rule_for_nights(rt: HostRuntime) -> Result<(), Fail> {
    for (old, new, want) in &MEMBERS {
        expect_changed(&rt, old, new, want)?;
    }
    Ok(())
}

/// The same in its features.
const FORMS: [(&str, &str, &str); 11] = [
    ("FeatureCollection", "Feature", "geometry"),
    (FEATURES, "[]", "geometry"),
    (FEATURES, "{}", "geometry"),
    ("[1,0],[0,1],", "", "region 1 ring 0"),
    ("[0,1],[0,0]", "[0,1],[0,2]", "region 2 ring 0"),
    (
        "[[[0,0],[0,0],[0,0],[0,0]]]",
        "[[[0,0],[0,0],[0,0]]]",
        "region 1 ring 1",
    ),
    ("[[[0,0],[0,0],[0,0],[0,0]]]", "[]", "region 6"),
    ("MultiPolygon", "Point", "geometry"),
    (
        r#"[1,0],[0,1],[0,0]]]}},{"type":"Feature""#,
        r#"[0,1]]]}},{"type":"Polygon""#,
        "geometry",
    ),
    (
        "[2,2],[2,2],[2,2],[2,2],[2,2]",
        "[4.194305,2],[4.194305,2],[4.194305,2],[4.194305,2]",
        "region 4",
    ),
    (
        "[[[2,2],[2,2],[2,2],[2,2],[2,2]]],[[[0,0],[0,0],[0,0],[0,0]]]",
        "[[[4.194305,2],[4.194305,2],[4.194305,2],[4.194305,2]]]",
        "region 4",
    ),
];

#[test]
fn the_form_of_all_features_comes_before_their_districts(rt: HostRuntime) -> Result<(), Fail> {
    for (old, new, want) in &FORMS {
        expect_changed(&rt, old, new, want)?;
    }
    Ok(())
}

/// The answer to the set with this many features in front.
fn expect_with_more(rt: &(impl Abort + AllocGlobal), more: usize, want: &str) -> Result<(), Fail> {
    let features = FEATURE.repeat(rt.alloc(), more)?;
    let start = format!(in rt.alloc(); "\"features\":[{}", features.as_str())?;
    expect_changed(rt, r#""features":["#, start.as_str(), want)
}

#[test]
fn a_set_has_at_most_64_districts(rt: HostRuntime) -> Result<(), Fail> {
    expect_with_more(&rt, 62, "set")?;
    expect_with_more(&rt, 63, "geometry")
}

fn set(alloc: Global) -> Result<SetOrder, Fail> {
    match read_set(alloc, SET.as_bytes()) {
        Ok(set) => Ok(set),
        Err(_) => Err(Fail::from("refused")),
    }
}

/// The next part has this many positions.
fn expect_part(rt: &impl Abort, parts: &mut Parts, want: u32) -> Result<(), Fail> {
    match parts.take_first() {
        Some(part) => assert_eq!(rt; part.positions(), want),
        None => return Err(Fail::from("no part is left")),
    }
    Ok(())
}

#[test]
fn a_set_has_the_districts_of_its_features(rt: HostRuntime) -> Result<(), Fail> {
    let SetOrder { whole, mut parts } = set(rt.alloc())?;
    assert_eq!(rt; whole.district.positions(), 13);
    assert_eq!(rt; whole.district.polygon_count(), 3);
    assert_eq!(rt; parts.count(), 2);
    expect_part(&rt, &mut parts, 4)?;
    expect_part(&rt, &mut parts, 9)?;
    assert!(rt; parts.take_first().is_none());
    assert_eq!(rt; parts.count(), 0);
    Ok(())
}

#[test]
fn the_laws_are_called(_rt: HostRuntime) {
    set_readings_agree();
    every_text_is_a_set_or_refused();
    sets_keep_the_rule();
}
