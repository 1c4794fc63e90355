// Runs over memory that meet the premises of each law on words and inputs.
ghost use Rattle.std.specs.Prelude.{◌≡◌, ◌<◌, ◌⊎◌, IfOk, length};
ghost use Rattle.command_input.specs.Input.{a_calendar, an_order, limit_of};
ghost use Rattle.order_table.specs.RightTable.{IsRightTable};
ghost use Rattle.order_table.specs.Trees.{table_of};
ghost use Rattle.order_text.specs.Line.{order_line};
ghost use Rattle.source_sink.specs.Outside.{Adds};
ghost use Rattle.source_sink.specs.Sure.{told_of};
ghost use Rattle.timetable.specs.Examples.{first_asked, first_order};

use crate::memory::run_in_memory;
use no_memory::NoMemory;
use outcome::Status;
use source_sink::{SureSink, SureSource};
use std::alloc::{AllocError, Global};

/// No words: they are wrong, and answered by `Usage`, want of memory aside.
pub fn no_words(alloc: Global, out: &mut SureSink, err: &mut SureSink) -> Status
    ensures { (result ≡ Status.Usage) ⊎ (result ≡ Status.NoMemory) }
{
    let words: Vec<String> = Vec::new(alloc);
    let mut source = SureSource::new(Vec::new(alloc));
    run_in_memory(alloc, &words, &mut source, out, err)
}

/// More bytes than an order may have: they are refused, want of memory aside.
pub fn long_order(
    alloc: Global,
    bytes: Vec<u8>,
    out: &mut SureSink,
    err: &mut SureSink,
) -> Result<Status, NoMemory>
    requires { limit_of an_order < length bytes.items }
    ensures { IfOk result (λ status. (status ≡ Status.OrderRefused) ⊎ (status ≡ Status.NoMemory)) }
{
    let words = [String::from_str(alloc, "order")?];
    let mut source = SureSource::new(bytes);
    Ok(run_in_memory(alloc, &words, &mut source, out, err))
}

/// More bytes than a calendar may have: they are refused, want of memory aside.
pub fn long_calendar(
    alloc: Global,
    bytes: Vec<u8>,
    out: &mut SureSink,
    err: &mut SureSink,
) -> Result<Status, NoMemory>
    requires { limit_of a_calendar < length bytes.items }
    ensures { IfOk result (λ status. (status ≡ Status.IcalRefused) ⊎ (status ≡ Status.NoMemory)) }
{
    let words = [String::from_str(alloc, "agenda")?];
    let mut source = SureSource::new(bytes);
    Ok(run_in_memory(alloc, &words, &mut source, out, err))
}

/// The sun at the first minute, on the equator: right words are answered, want of memory aside.
pub fn first_sun(alloc: Global, out: &mut SureSink, err: &mut SureSink) -> Result<Status, NoMemory>
    ensures { IfOk result (λ status. (status ≡ Status.Done) ⊎ (status ≡ Status.Open) ⊎ (status ≡ Status.NoMemory)) }
{
    let words = [
        String::from_str(alloc, "sun")?,
        String::from_str(alloc, "0")?,
        String::from_str(alloc, "0")?,
        String::from_str(alloc, "0")?,
        String::from_str(alloc, "0")?,
    ];
    let mut source = SureSource::new(Vec::new(alloc));
    Ok(run_in_memory(alloc, &words, &mut source, out, err))
}

/// One place on the equator, on one day.
const FIRST_ORDER: &str =
    r#"{"from":"2000-01-01","days":1,"method":"mwl","asr":"standard","zone":0,"district":{"type":"Polygon","coordinates":[[[0,0],[0,0],[0,0],[0,0]]]}}"#;

/// The examples' order in memory.
#[tactic(auto, unfolding(crate::specs::Examples::first_order))]
fn first_order(alloc: Global) -> Result<SureSource, AllocError>
    ensures { IfOk result (λ source. source ≡ first_order) }
{
    Ok(SureSource::new(FIRST_ORDER.as_bytes().to_vec(alloc)?))
}

/// The canonical line of the examples' order: it is written whole, want of memory aside.
pub fn first_line(alloc: Global, out: &mut SureSink, err: &mut SureSink) -> Result<Status, NoMemory>
    ensures status { IfOk result (λ status. (status ≡ Status.Done) ⊎ (status ≡ Status.NoMemory)) }
    ensures written { IfOk result (λ status. status ≡ Status.Done → Adds (told_of out.old) (told_of out.new) (order_line first_asked)) }
{
    let words = [String::from_str(alloc, "order")?];
    let mut source = first_order(alloc)?;
    Ok(run_in_memory(alloc, &words, &mut source, out, err))
}

/// The table of the examples' order: it is written whole, want of memory aside, and right.
#[tactic(auto, using(crate::proofs::ExampleLemmas::first_is_right))]
pub fn first_table(
    alloc: Global,
    out: &mut SureSink,
    err: &mut SureSink,
) -> Result<Status, NoMemory>
    ensures status { IfOk result (λ status. (status ≡ Status.Done) ⊎ (status ≡ Status.Open) ⊎ (status ≡ Status.NoMemory)) }
    ensures written { IfOk result (λ status. (status ≡ Status.Done) ⊎ (status ≡ Status.Open) → Adds (told_of out.old) (told_of out.new) (table_of first_asked)) }
    ensures right { IsRightTable first_asked }
{
    let words = [String::from_str(alloc, "plain")?];
    let mut source = first_order(alloc)?;
    Ok(run_in_memory(alloc, &words, &mut source, out, err))
}
