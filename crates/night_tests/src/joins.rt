// Entries of districts taken together, beside those of a slow reference program.
ghost use Rattle.district_set.specs.Joins.{IsInFrame};

use cell_split::{Cell, Entry, root_at};
use district_set::join_entries;
use std::process::Abort;
use std::test::Fail;

// What an entry is, with its ranks.
type Told = (&'static str, u32, u32);

const WHOLE: Told = ("whole", 0, 0);

const NEVER: Told = ("never", 0, 0);

// Three entries, their join, and the number of the one whose cell is left.
const JOINS: &[((Told, Told, Told), Told, i64)] = &[
    ((("minute", 5, 0), WHOLE, WHOLE), ("minute", 5, 0), 0),
    (
        (("minute", 5, 0), ("open", 5, 3), WHOLE),
        ("minute", 5, 0),
        0,
    ),
    ((WHOLE, NEVER, ("minute", 700, 0)), NEVER, 0),
    ((WHOLE, WHOLE, WHOLE), WHOLE, 0),
    (
        (("open", 10, 3), ("minute", 9, 0), ("open", 10, 9)),
        ("open", 10, 9),
        0,
    ),
    (
        (("open", 10, 3), ("minute", 10, 0), ("minute", 2, 0)),
        ("minute", 10, 0),
        0,
    ),
    (
        (("open", 10, 3), ("minute", 9, 0), ("open", 20, 1)),
        ("open", 20, 9),
        2,
    ),
    ((("open", 721, 720), NEVER, WHOLE), NEVER, 0),
    (
        (("open", 721, 0), ("minute", 720, 0), ("open", 721, 5)),
        ("open", 721, 720),
        0,
    ),
    ((("open", 1, 0), WHOLE, WHOLE), ("open", 1, 0), 0),
    (
        (("open", 30, 10), ("open", 40, 2), ("open", 40, 25)),
        ("open", 40, 25),
        1,
    ),
];

// The entry, its cell marked by a number.
fn entry_of(rt: &impl Abort, told: Told, mark: i64) -> Entry
    ensures { IsInFrame result }
{
    let (word, safe, from) = told;
    match word {
        "minute" => {
            assert!(rt; safe <= 720);
            Entry::Minute { rank: safe }
        }
        "whole" => Entry::Whole,
        "never" => Entry::Never,
        _ => {
            assert!(rt; from < safe && safe <= 721);
            let cell = Cell {
                x: mark,
                ..root_at(0, 0)
            };
            Entry::Open { safe, from, cell }
        }
    }
}

fn join_of(rt: &impl Abort, told: (Told, Told, Told)) -> Entry {
    join_entries(&[
        entry_of(rt, told.0, 0),
        entry_of(rt, told.1, 1),
        entry_of(rt, told.2, 2),
    ])
}

#[test]
fn entries_are_joined_as_by_the_reference(rt: HostRuntime) -> Result<(), Fail> {
    for case in JOINS {
        let (told, join, mark) = *case;
        assert_eq!(rt; join_of(&rt, told), entry_of(&rt, join, mark), "{mark}");
    }
    Ok(())
}
