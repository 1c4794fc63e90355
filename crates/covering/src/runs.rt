// The letters of a tree in runs.
ghost use Rattle.std.specs.Prelude.{◌≡◌, ◌<◌, ◌++◌, pos, true, flat_map, string_bytes, IfOk, OnOk};
ghost use Rattle.std.specs.List.{list_all};
ghost use Rattle.covering.specs.Letters.{is_letter};
ghost use Rattle.covering.specs.Runs.{run_text, runs_text, with_run};

use no_memory::NoMemory;
use std::alloc::Global;

/// The letters in runs: for each longest run of equal letters their number, where it is above 1, and
/// then the letter.
pub(crate) fn runs_text(alloc: Global, letters: &[u8]) -> Result<String, NoMemory>
    requires { list_all is_letter letters.now ≡ true }
    ensures { IfOk result (λ text. string_bytes text ≡ runs_text letters.now) }
{
    let mut text = String::new(alloc);
    let Some(first) = letters.first() else {
        return Ok(text);
    };
    let mut run = *first;
    let mut count = 1;
    for letter in &letters[1..] {
        if *letter == run {
            count += 1;
        } else {
            write_run(alloc, count, run, &mut text)?;
            run = *letter;
            count = 1;
        }
    }
    write_run(alloc, count, run, &mut text)?;
    Ok(text)
}

// writes one run behind those there are
fn write_run(alloc: Global, count: u64, letter: u8, text: &mut String) -> Result<(), NoMemory>
    requires { letter < 128 }
    ensures { OnOk result (string_bytes text.new ≡ string_bytes text.old ++ run_text (count, letter)) }
{
    if count != 1 {
        text.push_str(count.to_string(alloc)?.as_str())?;
    }
    text.push(letter as char)?;
    Ok(())
}
