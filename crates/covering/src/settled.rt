// What is settled of a tree.
ghost use Rattle.std.specs.Prelude.{◌≡◌, ◌≤ℤ◌, neg_ℤ, pos, true};
ghost use Rattle.std.specs.List.{list_all};
ghost use Rattle.std.specs.Option.{is_none};
ghost use Rattle.std.specs.Ordering.{int_eq};
ghost use Rattle.covering.specs.Letters.{is_letter};

use cell_split::{Cell, Entry};
use plane_edges::Point;
use std::marker::Model;

/// The letters of a tree: `k`, `x`, `p`, `o` and `s`, in ASCII. Contracts see a list of bytes.
#[derive(Drop)]
pub struct Letters {
    pub(crate) letters: Vec<u8>,
}

impl Model for Letters {
    ghost use Rattle.std.specs.Prelude.{ℕ, List};

    ghost Value = { List ℕ };

    ghost view = { λ l. l.letters.items };
}

impl Letters {
    /// The letters in tree order.
    pub fn as_bytes(&self) -> &[u8]
        ensures { result.now ≡ self.now }
    {
        self.letters.as_slice()
    }

    /// The same as a text.
    pub(crate) fn as_str(&self) -> &str
        requires { list_all is_letter self.now ≡ true }
        ensures { result.now ≡ self.now }
    {
        match str::from_utf8(self.as_bytes()) {
            Ok(text) => text,
            Err(_) => unreachable!(),
        }
    }
}

/// What is settled of the tree of one problem.
#[derive(Drop)]
pub struct Settled {
    pub entry: Entry,
    /// The greatest refuted rank, from 0 to 720, or -1 where no rank is refuted.
    pub r: i32,
    /// The tree in tree order, cut at each cell whose last rank is at most `r`.
    pub letters: Letters,
    /// The first refuted leaf of the tree with last rank `r`, and the place that refutes it; `None`
    /// exactly where `r` is -1.
    pub refuted: Option<(Cell, Point)>,
    pub ghost not_low: { neg_ℤ (pos 1) ≤ℤ r },
    pub ghost not_high: { r ≤ℤ pos 720 },
    pub ghost shown: { is_none refuted ≡ int_eq r (neg_ℤ (pos 1)) },
    pub ghost spelled: { list_all is_letter letters ≡ true },
}
