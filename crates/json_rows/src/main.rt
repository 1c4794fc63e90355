// Reads a text a line, percent-encoded, and prints the tree that `exact_json` gives for it, or the fault and its place.
// Contract: none beyond safety. `stdin` goes through the grammar's states, and `stdout` says what each line must give.
#![tactic(auto)]

mod tree;

use exact_json::{Json, JsonFault, read};
use percent_encoding::percent_decode;
use std::alloc::{AllocError, Global};
use std::io;
use tree::{number_line, tree_line};

fn main(rt: HostRuntime) -> io::Result<()> {
    for line in rt.lines(rt.alloc()) {
        let answer = answer(rt.alloc(), line?.as_str())?;
        println!(rt; "{answer}")?;
    }
    Ok(())
}

fn answer(alloc: Global, line: &str) -> Result<String, AllocError> {
    let mut text = Vec::new(alloc);
    percent_decode(line.as_bytes()).append_to(&mut text)?;
    match read(alloc, text.as_slice()) {
        Ok(Json::Number(decimal)) => number_line(alloc, &decimal),
        Ok(value) => tree_line(alloc, &value),
        Err(JsonFault::NotJson(place)) => format!(in alloc; "not JSON at {place}"),
        Err(JsonFault::TooDeep(place)) => format!(in alloc; "too deep at {place}"),
        Err(JsonFault::LongNumber(place)) => format!(in alloc; "long number at {place}"),
        Err(JsonFault::NoMemory) => String::from_str(alloc, "no memory"),
    }
}
