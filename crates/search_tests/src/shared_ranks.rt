// Ranks that threads share.
ghost use Rattle.std.specs.Prelude.{◌≡◌, ◌≤◌};
ghost use Rattle.bound_word.specs.Bounds.{count_of, content_of, IsSeatOf};

use bound_word::{Bound, BoundSeat, Fact, State};
use std::test::Fail;
use std::thread::join;

/// Each rank is at most the content.
#[derive(Drop)]
struct AtMost(u32);

impl Fact for AtMost {
    ghost fact = { λ most _ rank. rank ≤ most.0 };
}

#[test]
fn a_word_gives_the_greatest_rank_raised(rt: HostRuntime) -> Result<(), Fail> {
    let (bound, mut seat) = Bound::new(rt.alloc(), 2, AtMost(720))?;
    assert_eq!(rt; bound.read(&mut seat, 0), None);
    bound.raise(&mut seat, 0, 5);
    assert_eq!(rt; bound.read(&mut seat, 0), Some(5));
    bound.raise(&mut seat, 0, 3);
    assert_eq!(rt; bound.read(&mut seat, 0), Some(5));
    bound.raise(&mut seat, 0, 720);
    assert_eq!(rt; bound.read(&mut seat, 0), Some(720));
    assert_eq!(rt; bound.read(&mut seat, 1), None);
    Ok(())
}

#[test]
fn a_seat_reads_what_another_raised(rt: HostRuntime) -> Result<(), Fail> {
    let (bound, mut seat) = Bound::new(rt.alloc(), 1, AtMost(5))?;
    let mut other = bound.split(&mut seat);
    bound.raise(&mut seat, 0, 5);
    assert_eq!(rt; bound.read(&mut other, 0), Some(5));
    bound.join(&mut seat, other);
    assert_eq!(rt; bound.read(&mut seat, 0), Some(5));
    Ok(())
}

fn raised(
    bound: &Bound<AtMost>,
    mut seat: BoundSeat<AtMost>,
    rank: u32,
) -> (BoundSeat<AtMost>, Option<u32>)
    requires bound { (count_of bound.now ≡ 1) × (content_of bound.now ≡ record { 0 = 720 }) }
    requires seat { IsSeatOf bound.now seat }
    requires rank { rank ≤ 720 }
    ensures { IsSeatOf bound.now result.0 }
{
    bound.raise(&mut seat, 0, rank);
    let found = bound.read(&mut seat, 0);
    (seat, found)
}

#[test]
fn two_threads_share_a_word(rt: HostRuntime) -> Result<(), Fail> {
    let (bound, mut seat) = Bound::new(rt.alloc(), 1, AtMost(720))?;
    let other = bound.split(&mut seat);
    let ((mut seat, low), (other, high)) = join(
        &rt,
        || raised(&bound, seat, 5),
        || raised(&bound, other, 300),
    );
    bound.join(&mut seat, other);
    assert!(rt; low >= Some(5) && high == Some(300));
    assert_eq!(rt; bound.read(&mut seat, 0), Some(300));
    Ok(())
}

#[test]
fn the_hints_count_the_busy_until_they_halt(rt: HostRuntime) -> Result<(), Fail> {
    let (bound, mut seat) = Bound::new(rt.alloc(), 1, AtMost(0))?;
    bound.begin(&mut seat);
    bound.begin(&mut seat);
    bound.finish(&mut seat);
    assert_eq!(rt; bound.state(&mut seat), State::Busy(1));
    bound.halt(&mut seat);
    assert_eq!(rt; bound.state(&mut seat), State::Halted);
    bound.finish(&mut seat);
    assert_eq!(rt; bound.state(&mut seat), State::Halted);
    assert_eq!(rt; bound.read(&mut seat, 0), None);
    Ok(())
}
