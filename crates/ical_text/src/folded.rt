// Lines as they are written.
ghost use Rattle.std.specs.Prelude.{◌≡◌, ◌∷◌, ◌++◌, List, ℕ, IfOk, OnOk};
ghost use Rattle.ical_text.specs.Lines.{folded, folded_from};

use no_memory::NoMemory;

// one byte of a line, where `room` more fit before it is folded; how many fit behind the byte
#[tactic(auto, unfolding(crate::specs::Lines::folded_from))]
fn push_byte(text: &mut Vec<u8>, room: u32, b: u8) -> Result<u32, NoMemory>
    ensures { IfOk result (λ left. (more : List ℕ) → text.new.items ++ folded_from left more ≡ text.old.items ++ folded_from room (b ∷ more)) }
{
    if room == 0 {
        text.extend_from_slice(b"\r\n ")?;
        text.push(b)?;
        Ok(73)
    } else {
        text.push(b)?;
        Ok(room - 1)
    }
}

/// The line with its CR LF, folded where it is longer than 75 bytes.
#[tactic(auto, unfolding(crate::specs::Lines::folded, crate::specs::Lines::folded_from))]
pub(crate) fn push_folded(text: &mut Vec<u8>, line: &[u8]) -> Result<(), NoMemory>
    ensures { OnOk result (text.new.items ≡ text.old.items ++ folded line.now) }
{
    let mut room = 75;
    for b in line {
        room = push_byte(text, room, *b)?;
    }
    text.extend_from_slice(b"\r\n")?;
    Ok(())
}
