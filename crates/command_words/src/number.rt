// Whole numbers as words spell them.
ghost use Rattle.std.specs.Prelude.{◌≡◌, ◌<◌, ◌^◌, IfOk, IfSome};
ghost use Rattle.command_words.specs.Numbers.{number_in};

use no_memory::NoMemory;
use std::alloc::Global;

/// The number that a word spells without a sign and without a zero before it, where it is below 2^32.
#[tactic(auto, unfolding(crate::specs::Numbers::number_in))]
pub(crate) fn number(alloc: Global, word: &str) -> Result<Option<u32>, NoMemory>
    ensures { IfOk result (λ n. n ≡ number_in word.now) }
{
    let Ok(number) = word.parse::<u32>() else {
        return Ok(None);
    };
    let spelled = number.to_string(alloc)?;
    Ok(if spelled.as_str() == word {
        Some(number)
    } else {
        None
    })
}
