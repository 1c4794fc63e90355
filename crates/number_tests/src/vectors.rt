// What rows of vectors are made of: numbers behind each other, ranges of minutes, boxes of places, ends of intervals.
use altitude_test::Place;
use fixed_interval::Interval;
use solar_terms::Minutes;
use std::process::Abort;
use std::str::SplitWhitespace;

pub(crate) fn number(rt: &impl Abort, words: &mut SplitWhitespace<'_>) -> i128 {
    let word = words.next().expect(rt, "a word");
    word.parse::<i128>().ok().expect(rt, "a number")
}

fn short_number(rt: &impl Abort, words: &mut SplitWhitespace<'_>) -> i64 {
    let word = words.next().expect(rt, "a word");
    word.parse::<i64>().ok().expect(rt, "a short number")
}

fn next_range(rt: &impl Abort, words: &mut SplitWhitespace<'_>) -> (i64, i64) {
    let first = short_number(rt, words);
    let last = short_number(rt, words);
    (first, last)
}

/// The minutes of the next two numbers.
pub(crate) fn minutes(rt: &impl Abort, words: &mut SplitWhitespace<'_>) -> Minutes {
    let (first, last) = next_range(rt, words);
    assert!(rt; -53_200_000 <= first && first <= last && last <= 53_200_000);
    assert!(rt; last - first <= 720);
    Minutes::new(first, last)
}

fn place_of(rt: &impl Abort, (x0, x1): (i64, i64), (y0, y1): (i64, i64)) -> Place {
    assert!(rt; -47_000_000_000 <= x0);
    assert!(rt; x0 <= x1);
    assert!(rt; x1 <= 47_000_000_000);
    assert!(rt; -8_900_000_000 <= y0);
    assert!(rt; y0 <= y1);
    assert!(rt; y1 <= 8_900_000_000);
    assert!(rt; x1 - x0 <= 536_870_912);
    assert!(rt; y1 - y0 <= 536_870_912);
    Place::new(x0, x1, y0, y1)
}

/// The box of the next four numbers.
pub(crate) fn place(rt: &impl Abort, words: &mut SplitWhitespace<'_>) -> Place {
    let x = next_range(rt, words);
    let y = next_range(rt, words);
    place_of(rt, x, y)
}

/// The ends of an interval.
pub(crate) type Ends = (i128, i128);

pub(crate) fn ends_of(a: Interval) -> Ends {
    (a.lo, a.hi)
}

/// The next two numbers.
pub(crate) fn next_ends(rt: &impl Abort, words: &mut SplitWhitespace<'_>) -> Ends {
    let lo = number(rt, words);
    let hi = number(rt, words);
    (lo, hi)
}

pub(crate) fn expect_ends(rt: &impl Abort, found: Ends, wanted: Ends) {
    assert_eq!(rt; found, wanted);
}

/// The next two numbers are the ends of this interval.
pub(crate) fn expect_interval(rt: &impl Abort, words: &mut SplitWhitespace<'_>, a: Interval) {
    let wanted = next_ends(rt, words);
    expect_ends(rt, ends_of(a), wanted);
}

pub(crate) fn expect_no_more(rt: &impl Abort, words: &mut SplitWhitespace<'_>) {
    assert!(rt; words.next().is_none());
}
