//! Values as lines.

use exact_json::{Decimal, Json, JsonList, JsonTable, JsonText};
use percent_encoding::{AsciiSet, CONTROLS, ascii_set, percent_encode};
use std::alloc::{AllocError, Global};

// what is escaped in a text, besides all that is not ASCII
const ESCAPED: AsciiSet = ascii_set!(CONTROLS.add(b' ').add(b'"').add(b'%'));

// more lists and tables than stand inside each other in any tree
const DEPTH: u8 = 100;

/// Digits and exponent, the value in millionths, and as a whole number.
pub fn number_line(alloc: Global, decimal: &Decimal) -> Result<String, AllocError> {
    let mut line = String::new(alloc);
    write_decimal(alloc, &mut line, decimal)?;
    let micro = decimal.micro();
    line.push_str(format!(in alloc; " micro {micro} whole ")?.as_str())?;
    match decimal.whole() {
        Some(whole) => line.push_str(format!(in alloc; "{whole}")?.as_str())?,
        None => line.push_str("none")?,
    }
    Ok(line)
}

/// A value as JSON writes it, but numbers as digits and exponent, and texts percent-encoded.
pub fn tree_line(alloc: Global, value: &Json) -> Result<String, AllocError> {
    let mut line = String::new(alloc);
    write_tree(alloc, &mut line, value, DEPTH)?;
    Ok(line)
}

fn write_decimal(alloc: Global, out: &mut String, decimal: &Decimal) -> Result<(), AllocError> {
    if decimal.negative {
        out.push('-')?;
    }
    for digit in decimal.digits.as_slice() {
        out.push_str(format!(in alloc; "{digit}")?.as_str())?;
    }
    let exponent = decimal.exponent;
    out.push_str(format!(in alloc; "e{exponent}")?.as_str())
}

fn write_text(out: &mut String, text: &JsonText) -> Result<(), AllocError> {
    out.push('"')?;
    percent_encode(text.text().as_bytes(), ESCAPED).append_to(out)?;
    out.push('"')
}

#[cycle(tree)]
fn write_list(
    alloc: Global,
    out: &mut String,
    list: &JsonList,
    depth: u8,
) -> Result<(), AllocError> {
    out.push('[')?;
    for i in 0..list.count() {
        if i > 0 {
            out.push(',')?;
        }
        write_tree(alloc, out, list.item(i), depth)?;
    }
    out.push(']')
}

#[cycle(tree)]
fn write_table(
    alloc: Global,
    out: &mut String,
    table: &JsonTable,
    depth: u8,
) -> Result<(), AllocError> {
    out.push('{')?;
    for i in 0..table.count() {
        if i > 0 {
            out.push(',')?;
        }
        write_text(out, table.name(i))?;
        out.push(':')?;
        write_tree(alloc, out, table.value(i), depth)?;
    }
    out.push('}')
}

#[cycle(tree)]
fn write_tree(alloc: Global, out: &mut String, value: &Json, depth: u8) -> Result<(), AllocError> {
    if depth == 0 {
        return out.push_str("too deep");
    }
    match value {
        Json::Null => out.push_str("null"),
        Json::Flag(true) => out.push_str("true"),
        Json::Flag(false) => out.push_str("false"),
        Json::Number(decimal) => write_decimal(alloc, out, decimal),
        Json::Text(text) => write_text(out, text),
        Json::List(list) => write_list(alloc, out, list, depth - 1),
        Json::Table(table) => write_table(alloc, out, table, depth - 1),
    }
}
