// The letters of a tree.
ghost use Rattle.std.specs.Prelude.{◌≡◌, ◌++◌, flat_map, OnOk};
ghost use Rattle.std.specs.Option.{option_to_list};
ghost use Rattle.cell_split.specs.Judges.{IsTask};
ghost use Rattle.cell_split.specs.Tree.{child_tasks};
ghost use Rattle.plain_search.specs.Harvests.{ordinal_of};
ghost use Rattle.covering.specs.Letters.{letter_of, letters_of};

use cell_split::{Judge, Task, Verdict, children};
use no_memory::NoMemory;
use plain_search::is_cut;

/// Writes the letters of the tree below a task behind those there are. It judges each cell anew that
/// isn't cut: the cells above the refuted rank.
#[cycle(writes)]
pub(crate) fn write_letters<J: Judge>(
    judge: &J,
    task: Task,
    refuted: Option<u32>,
    letters: &mut Vec<u8>,
) -> Result<(), NoMemory>
    requires { IsTask (J.content judge.now) task }
    ensures { OnOk result (letters.new.items ≡ letters.old.items ++ letters_of (J.content judge.now) (ordinal_of refuted) task) }
{
    if is_cut(&task.cell, refuted) {
        letters.push(b'k')?;
        return Ok(());
    }
    let verdict = judge.judge(task);
    write_letter(verdict, letters)?;
    if verdict.splits() {
        write_letters_below(judge, task, refuted, letters)?;
    }
    Ok(())
}

// Writes the letters of the trees below the children of a task, the first child first.
#[cycle(writes)]
fn write_letters_below<J: Judge>(
    judge: &J,
    task: Task,
    refuted: Option<u32>,
    letters: &mut Vec<u8>,
) -> Result<(), NoMemory>
    requires { IsTask (J.content judge.now) task }
    ensures { OnOk result (letters.new.items ≡ letters.old.items ++ flat_map (letters_of (J.content judge.now) (ordinal_of refuted)) (child_tasks task)) }
{
    let below = children(&task.cell);
    for cell in &below.cells[..below.count as usize] {
        let child = Task {
            problem: task.problem,
            cell: *cell,
        };
        write_letters(judge, child, refuted, letters)?;
    }
    Ok(())
}

// Writes the letter of a cell that isn't cut.
fn write_letter(verdict: Verdict, letters: &mut Vec<u8>) -> Result<(), NoMemory>
    ensures { OnOk result (letters.new.items ≡ letters.old.items ++ option_to_list (letter_of verdict)) }
{
    if let Some(letter) = letter_of(verdict) {
        letters.push(letter)?;
    }
    Ok(())
}

/// The letter of a cell that isn't cut; none for a refuted one.
pub fn letter_of(verdict: Verdict) -> Option<u8>
    ensures { result ≡ letter_of verdict }
{
    match verdict {
        Verdict::Outside => Some(b'x'),
        Verdict::Proved => Some(b'p'),
        Verdict::Refuted(_) => None,
        Verdict::Open(_) => Some(b'o'),
        Verdict::Split => Some(b's'),
    }
}
