// Texts, with the trees, the numbers or the first faults that an independent reader gives.
use exact_json::{Decimal, Json, JsonFault, read};
use std::alloc::{AllocError, Global};
use std::process::Abort;
use std::test::Fail;

fn write_bytes(alloc: Global, out: &mut String, bytes: &[u8]) -> Result<(), AllocError> {
    out.push('\'')?;
    for b in bytes {
        out.push_str(format!(in alloc; "{b:02x}")?.as_str())?;
    }
    out.push('\'')?;
    Ok(())
}

fn write_decimal(alloc: Global, out: &mut String, decimal: &Decimal) -> Result<(), AllocError> {
    if decimal.negative {
        out.push('-')?;
    }
    for digit in decimal.digits.as_slice() {
        out.push_str(format!(in alloc; "{digit}")?.as_str())?;
    }
    let exponent = decimal.exponent;
    out.push_str(format!(in alloc; "e{exponent}")?.as_str())
}

/// `n`, `t`, `f`, a number's digits and exponent, a text's bytes in hexadecimal, and lists and tables of these.
fn write_tree(alloc: Global, out: &mut String, value: &Json, depth: u8) -> Result<(), AllocError> {
    if depth == 0 {
        return out.push_str("too deep");
    }
    match value {
        Json::Null => out.push_str("n"),
        Json::Flag(true) => out.push_str("t"),
        Json::Flag(false) => out.push_str("f"),
        Json::Number(decimal) => write_decimal(alloc, out, decimal),
        Json::Text(text) => write_bytes(alloc, out, text.text().as_bytes()),
        Json::List(list) => {
            out.push_str("[")?;
            for i in 0..list.count() {
                if i > 0 {
                    out.push_str(",")?;
                }
                write_tree(alloc, out, list.item(i), depth - 1)?;
            }
            out.push_str("]")
        }
        Json::Table(table) => {
            out.push_str("{")?;
            for i in 0..table.count() {
                if i > 0 {
                    out.push_str(",")?;
                }
                write_bytes(alloc, out, table.name(i).text().as_bytes())?;
                out.push_str(":")?;
                write_tree(alloc, out, table.value(i), depth - 1)?;
            }
            out.push_str("}")
        }
    }
}

fn answer(alloc: Global, bytes: &[u8]) -> Result<String, AllocError> {
    match read(alloc, bytes) {
        Ok(value) => {
            let mut out = String::new(alloc);
            write_tree(alloc, &mut out, &value, 100)?;
            Ok(out)
        }
        Err(JsonFault::NotJson(place)) => format!(in alloc; "1@{place}"),
        Err(JsonFault::TooDeep(place)) => format!(in alloc; "2@{place}"),
        Err(JsonFault::LongNumber(place)) => format!(in alloc; "3@{place}"),
        Err(JsonFault::NoMemory) => String::from_str(alloc, "no memory"),
    }
}

fn millionths(alloc: Global, text: &str) -> Result<String, AllocError> {
    match read(alloc, text.as_bytes()) {
        Ok(Json::Number(decimal)) => decimal.micro().to_string(alloc),
        _ => String::from_str(alloc, "no number"),
    }
}

fn whole(alloc: Global, text: &str) -> Result<String, AllocError> {
    match read(alloc, text.as_bytes()) {
        Ok(Json::Number(decimal)) => match decimal.whole() {
            Some(n) => n.to_string(alloc),
            None => String::from_str(alloc, "none"),
        },
        _ => String::from_str(alloc, "no number"),
    }
}

fn expect_same(rt: &impl Abort, found: (&str, &str), wanted: (&str, &str)) {
    assert_eq!(rt; found, wanted);
}

/// What is made of the text is this.
fn expect(
    rt: &impl Abort,
    text: &str,
    got: Result<String, AllocError>,
    want: &str,
) -> Result<(), Fail> {
    let got = got?;
    expect_same(rt, (text, got.as_str()), (text, want));
    Ok(())
}

/// Texts and their trees.
const TREES: [(&str, &str); 9] = [
    (" null ", "n"),
    ("[true,false]", "[t,f]"),
    ("1.250", "1250e-3"),
    ("-0", "-e0"),
    ("12e-5", "12e-5"),
    ("1E+2000000", "1e1000000"),
    ("{\"a\":1,\"a\":[]}", "{'61':1e0,'61':[]}"),
    ("\"\\u00e9\\n\"", "'c3a90a'"),
    ("\"\\ud83d\\ude00\"", "'f09f9880'"),
];

#[test]
fn texts_give_their_trees(rt: HostRuntime) -> Result<(), Fail> {
    for (text, want) in &TREES {
        expect(&rt, text, answer(rt.alloc(), text.as_bytes()), want)?;
    }
    Ok(())
}

/// Numbers and their millionths.
const MILLIONTHS: [(&str, &str); 8] = [
    ("46.712345678901234", "46712346"),
    ("1.25e1", "12500000"),
    ("-0.0000005", "-1"),
    ("0.0000004999", "0"),
    ("-0", "0"),
    ("999999999.9999994", "999999999999999"),
    ("1e-1000000", "0"),
    ("-1e1000000", "-1000000000000000"),
];

#[test]
fn millionths_are_rounded_half_away_from_zero(rt: HostRuntime) -> Result<(), Fail> {
    for (text, want) in &MILLIONTHS {
        expect(&rt, text, millionths(rt.alloc(), text), want)?;
    }
    Ok(())
}

/// Numbers, and the whole ones themselves.
const WHOLE: [(&str, &str); 7] = [
    ("-150e-1", "-15"),
    ("1.5", "none"),
    ("0.00e-7", "0"),
    ("1e15", "1000000000000000"),
    ("-1000000000000001", "none"),
    ("1e1000000", "none"),
    ("1e-1000000", "none"),
];

#[test]
fn whole_numbers_have_no_fraction_and_are_within_the_bound(rt: HostRuntime) -> Result<(), Fail> {
    for (text, want) in &WHOLE {
        expect(&rt, text, whole(rt.alloc(), text), want)?;
    }
    Ok(())
}

/// Texts that are none, and their faults with their places.
const FAULTS: [(&str, &str); 10] = [
    ("", "1@0"),
    ("{\"from\"", "1@7"),
    ("{\"a\":1,}", "1@7"),
    ("\"\\ud800\"", "1@7"),
    ("\"\\udc00\"", "1@4"),
    ("01", "1@1"),
    ("-", "1@1"),
    ("nul", "1@3"),
    (
        "[[[[[[[[[[[[[[[[[[[[[[[[[[[[[[[[[[[[[[[[[[[[[[[[[[[[[[[[[[[[[[[[[",
        "2@64",
    ),
    (
        "11111111111111111111111111111111111111111111111111111111111111111",
        "3@0",
    ),
];

#[test]
fn the_first_fault_is_told_with_its_place(rt: HostRuntime) -> Result<(), Fail> {
    for (text, want) in &FAULTS {
        expect(&rt, text, answer(rt.alloc(), text.as_bytes()), want)?;
    }
    Ok(())
}
