// The rule that the words and all seats keep between any two steps, and what each step tells its seat.
ghost use Rattle.std.specs.Prelude.{ℕ, [], None};
ghost use Rattle.bound_word.specs.Sights.{sight, joined};
ghost use Rattle.bound_word.specs.Rule.{Keeps, first_sight, Reads, Raises, Passes};

use atomic_table::{Join, Play, Split, TableRule};
use std::collections::LinkedList;

/// What a rank means. The value itself is the content that all seats of a bound have in common.
pub trait Fact {
    /// Of the content, a word and a rank: what holds where the word has that rank.
    ghost fact: { Self → ℕ → ℕ → Type 0 };
}

/// What a seat knows: the content, and each word that it has seen. No value of it is made.
pub struct Sight<F> {
    /// None once the seat has been joined to another.
    pub content: Option<F>,
    /// Words with the values that they had: 0 for nothing, else one more than a rank.
    pub saw: LinkedList<(u32, u64)>,
}

/// What a bound is told once.
#[derive(Drop)]
pub(crate) struct About<F> {
    /// How many words have ranks. One more stands behind them for the hints.
    pub count: u32,
    pub content: F,
}

/// Words that only rise, each a fact of the content.
pub(crate) struct RisingFacts;

impl<F: Fact> TableRule<(), Sight<F>, About<F>> for RisingFacts {
    ghost holds = { Keeps F.fact };

    ghost first = { first_sight };
}

/// A load of a word with ranks.
pub(crate) struct Read;

impl<F: Fact> Play<(), Sight<F>> for Read {
    ghost then = { Reads F.fact };
}

/// A raise of a word with ranks.
pub(crate) struct Raise;

impl<F> Play<(), Sight<F>> for Raise {
    ghost then = { Raises };
}

/// A step on the word of the hints.
pub(crate) struct Pass;

impl<F> Play<(), Sight<F>> for Pass {
    ghost then = { Passes };
}

/// Both seats have seen what the one had seen.
pub(crate) struct Alike;

impl<F> Split<Sight<F>> for Alike {
    ghost left = { λ v. v };

    ghost right = { λ v. v };
}

/// One seat has seen what either had seen.
pub(crate) struct Both;

impl<F> Join<Sight<F>> for Both {
    ghost both = { joined };

    ghost spent = { sight None [] };
}
