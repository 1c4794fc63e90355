// Named pairs of a district and a border, with the verdicts of a slow reference; and inputs that are refused.
use border_answer::{Status, run};
use source_sink::{MemSink, SureSource};
use std::alloc::{AllocError, Global};
use std::process::Abort;
use std::test::Fail;

const WHOLE: &str = "[[[[44,17],[44.1,17],[44.1,17.1],[44,17.1],[44,17]]]]";

const WITH_A_HOLE: &str =
    "[[[[44,17],[44.1,17],[44.1,17.1],[44,17.1],[44,17]],[[44.04,17.04],[44.06,17.04],[44.06,17.06],[44.04,17.06],[44.04,17.04]]]]";

/// The district, the border, and what is said of them.
const PAIRS: [(&str, &str, &str); 10] = [
    // equal borders
    (
        WHOLE,
        WHOLE,
        "not shown cell 5631999999 2175999999 size 0\n",
    ),
    // ten microdegrees inside on all sides
    (
        WHOLE,
        "[[[[44.00001,17.00001],[44.09999,17.00001],[44.09999,17.09999],[44.00001,17.09999],[44.00001,17.00001]]]]",
        "holds\n",
    ),
    // outside by a microdegree at a vertex
    (
        WHOLE,
        "[[[[44.00001,17.00001],[44.100001,17.05],[44.00001,17.09999],[44.00001,17.00001]]]]",
        "not shown cell 5644799999 2182399935 size 0\n",
    ),
    // touching at a vertex
    (
        WHOLE,
        "[[[[44.00001,17.00001],[44.1,17.05],[44.00001,17.09999],[44.00001,17.00001]]]]",
        "not shown cell 5644799999 2182399999 size 0\n",
    ),
    // an island outside
    (
        WHOLE,
        "[[[[44.00001,17.00001],[44.09999,17.00001],[44.09999,17.09999],[44.00001,17.09999],[44.00001,17.00001]]],[[[44.2,17],[44.20001,17],[44.20001,17.00001],[44.2,17.00001],[44.2,17]]]]",
        "not shown cell 5657599999 2175999999 size 0\n",
    ),
    // over a hole of the district
    (
        WITH_A_HOLE,
        "[[[[44.00001,17.00001],[44.09999,17.00001],[44.09999,17.09999],[44.00001,17.09999],[44.00001,17.00001]]]]",
        "not shown cell 5637119999 2181119999 size 0\n",
    ),
    // with a hole round that hole
    (
        WITH_A_HOLE,
        "[[[[44.00001,17.00001],[44.09999,17.00001],[44.09999,17.09999],[44.00001,17.09999],[44.00001,17.00001]],[[44.03999,17.03999],[44.06001,17.03999],[44.06001,17.06001],[44.03999,17.06001],[44.03999,17.03999]]]]",
        "holds\n",
    ),
    // crossing itself inside
    (
        WHOLE,
        "[[[[44.00001,17.00001],[44.09999,17.09999],[44.09999,17.00001],[44.00001,17.09999],[44.00001,17.00001]]]]",
        "holds\n",
    ),
    // crossing itself outside
    (
        WHOLE,
        "[[[[44.00001,17.00001],[44.10001,17.09999],[44.10001,17.00001],[44.00001,17.09999],[44.00001,17.00001]]]]",
        "not shown cell 5644799999 2176002559 size 0\n",
    ),
    // a place
    (
        WHOLE,
        "[[[[44.000005,17.000005],[44.000005,17.000005],[44.000005,17.000005],[44.000005,17.000005]]]]",
        "holds\n",
    ),
];

/// The order, the border, and the line that refuses them.
const REFUSED: [(&str, &str); 7] = [
    ("", "order refused 1 json 1 at 0\n"),
    ("[]", "order refused 4 kind order\n"),
    (r#"{"border":{}}"#, "order refused 2 missing order\n"),
    (
        r#"{"order":{},"border":{}}"#,
        "order refused 2 missing from\n",
    ),
    (r#"{"order":ORDER}"#, "border refused 2 missing border\n"),
    (
        r#"{"order":ORDER,"border":{"type":"Point"}}"#,
        "border refused 6 geometry\n",
    ),
    (
        r#"{"order":ORDER,"border":{"type":"Polygon","coordinates":[[[44,17],[44,17],[45,17],[44,18]]]}}"#,
        "border refused 7 region 2 ring 0\n",
    ),
];

fn order_over(alloc: Global, district: &str) -> Result<String, AllocError> {
    format!(in alloc;
        "{{\"from\":\"2025-03-01\",\"days\":1,\"method\":\"makkah\",\"asr\":\"standard\",\"zone\":180,\"district\":{{\"type\":\"MultiPolygon\",\"coordinates\":{district}}}}}"
    )
}

fn expect(
    rt: &(impl Abort + AllocGlobal),
    input: &str,
    status: Status,
    out: &str,
    err: &str,
) -> Result<(), Fail> {
    let words: Vec<String> = Vec::new(rt.alloc());
    let mut source = SureSource::new(input.as_bytes().to_vec(rt.alloc())?);
    let mut written = MemSink::new(rt.alloc(), 200, Vec::new(rt.alloc()), 1)?;
    let mut reported = MemSink::new(rt.alloc(), 200, Vec::new(rt.alloc()), 1)?;
    let found = run(rt.alloc(), &words, &mut source, &mut written, &mut reported);
    assert_eq!(rt; found, status, "wanted {out}{err}");
    assert_eq!(rt; written.bytes(), out.as_bytes(), "wanted {out}");
    assert_eq!(rt; reported.bytes(), err.as_bytes(), "wanted {err}");
    Ok(())
}

#[test]
fn borders_hold_or_are_not_shown(rt: HostRuntime) -> Result<(), Fail> {
    for (district, border, said) in PAIRS {
        let order = order_over(rt.alloc(), district)?;
        let input = format!(in rt.alloc();
            "{{\"order\":{order},\"border\":{{\"type\":\"MultiPolygon\",\"coordinates\":{border}}}}}"
        )?;
        let status = if said == "holds\n" {
            Status::Done
        } else {
            Status::Open
        };
        expect(&rt, input.as_str(), status, said, "")?;
    }
    Ok(())
}

#[test]
fn other_inputs_are_refused(rt: HostRuntime) -> Result<(), Fail> {
    let order = order_over(rt.alloc(), WHOLE)?;
    for (text, line) in REFUSED {
        let input = text.replace(rt.alloc(), "ORDER", order.as_str())?;
        expect(&rt, input.as_str(), Status::OrderRefused, "", line)?;
    }
    Ok(())
}
