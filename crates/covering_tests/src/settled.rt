// What is settled of the trees of a few judges.
use cell_split::{Cell, Entry, Judge, root_at};
use covering::{Settled, cover_line, cover_line_1, entry_of, settle};
use plain_search::search_plain;
use plane_edges::Point;
use sample_judges::{Late, Nobody, Threshold};
use std::alloc::Global;
use std::process::Abort;
use std::test::Fail;

// Settles a judge's first problem, whose entry is the same without the letters.
pub(crate) fn settled<J: Judge>(
    rt: &impl Abort,
    alloc: Global,
    judge: &J,
) -> Result<Settled, Fail> {
    assert!(rt; judge.problems() > 0);
    let harvest = search_plain(alloc, judge)?;
    let settled = settle(alloc, judge, &harvest, 0)?;
    assert_eq!(rt; entry_of(judge, &harvest, 0), settled.entry);
    Ok(settled)
}

#[test]
fn an_open_tree_names_its_first_open_and_its_first_refuted_cell(
    rt: HostRuntime,
) -> Result<(), Fail> {
    let judge = Threshold::new(root_at(100_000, 0), Point::new(12_800_000, 0, 1));
    let settled = settled(&rt, rt.alloc(), &judge)?;
    let smallest = Cell {
        x: 12_800_000,
        y: 0,
        size: 4,
        first: 100,
        last: 100,
    };
    let refuted = Cell {
        size: 25,
        first: 99,
        last: 99,
        ..smallest
    };
    let open = Entry::Open {
        safe: 101,
        from: 100,
        cell: smallest,
    };
    let letters =
        b"spspsspspspsssssssssssssssssssssssssssssoxxxxxxxxxxxxxxxxxxxxxxxxxxxxxxxxxxxxxxxxxxxxxxxxxxxxxxxxxxxxxxxkxxxkxxxkxxxkxxxk";
    assert_eq!(rt; settled.entry, open);
    assert_eq!(rt; settled.r, 99);
    assert_eq!(rt; settled.refuted, Some((refuted, judge.point)));
    assert_eq!(rt; settled.letters.as_bytes(), letters.as_slice());
    Ok(())
}

#[test]
fn a_tree_that_is_refuted_to_its_last_rank_has_one_letter(rt: HostRuntime) -> Result<(), Fail> {
    let judge = Late::new(root_at(100_000, 0), Point::new(12_800_000, 0, 1));
    let settled = settled(&rt, rt.alloc(), &judge)?;
    let later_half = Cell {
        first: 360,
        ..judge.root
    };
    assert_eq!(rt; settled.entry, Entry::Never);
    assert_eq!(rt; settled.r, 720);
    assert_eq!(rt; settled.refuted, Some((later_half, judge.point)));
    assert_eq!(rt; settled.letters.as_bytes(), b"k".as_slice());
    Ok(())
}

#[test]
fn a_tree_that_is_nowhere_refuted_names_no_cell(rt: HostRuntime) -> Result<(), Fail> {
    let settled = settled(&rt, rt.alloc(), &Nobody)?;
    assert_eq!(rt; settled.entry, Entry::Whole);
    assert_eq!(rt; settled.r, -1);
    assert_eq!(rt; settled.refuted, None);
    assert_eq!(rt; settled.letters.as_bytes(), b"x".as_slice());
    Ok(())
}

#[test]
fn a_line_has_its_members_in_the_order_of_their_names(rt: HostRuntime) -> Result<(), Fail> {
    let judge = Late::new(root_at(100_000, 0), Point::new(-12_800_001, 0, 3));
    let settled = settled(&rt, rt.alloc(), &judge)?;
    let runs = cover_line(rt.alloc(), "f.end", "2025-03-01", &settled)?;
    let tree = cover_line_1(rt.alloc(), "f.end", "2025-03-01", &settled)?;
    assert_eq!(rt;
        runs.as_slice(),
        b"{\"column\":\"f.end\",\"day\":\"2025-03-01\",\"point\":[\"-12800001\",\"0\",\"3\"],\"r\":720,\"refuted\":[12800000,0,29,360,720],\"runs\":\"k\"}\n".as_slice()
    );
    assert_eq!(rt;
        tree.as_slice(),
        b"{\"column\":\"f.end\",\"day\":\"2025-03-01\",\"point\":[\"-12800001\",\"0\",\"3\"],\"r\":720,\"refuted\":[12800000,0,29,360,720],\"tree\":\"k\"}\n".as_slice()
    );
    Ok(())
}
