// A JSON text, read whole.

use anyhow::{Context, Result, bail};
use exact_json::{Json, read};
use source_sink::{StdSource, read_all};
use std::alloc::Global;
use std::io::Read;

const LIMIT: usize = 67_108_864;

/// How many items the list that the input holds has.
pub fn items<R: Read + Drop>(alloc: Global, input: R) -> Result<u64> {
    let mut source = StdSource::new(input);
    let bytes = read_all(alloc, &mut source, LIMIT)
        .ok()
        .context("no input")?;
    match read(alloc, bytes.as_slice()) {
        Ok(Json::List(list)) => Ok(list.count() as u64),
        _ => bail!("no list"),
    }
}
