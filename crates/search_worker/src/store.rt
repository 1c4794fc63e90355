// What a search keeps of what it finds.
ghost use Rattle.std.specs.Prelude.{ℕ, [], ◌++◌, ◌∷◌, List, IfOk, OnOk};
ghost use Rattle.cell_split.specs.declared.verdict.Leaf.{Leaf};

use cell_split::Leaf;
use no_memory::NoMemory;
use std::alloc::Global;

/// What is kept of leaves. Its meaning, for so many problems, is of which leaves it is what is kept.
pub trait Store: Drop {
    ghost keeps: { ℕ → Self → List Leaf → Type 0 };

    /// What is kept of no leaf.
    fn new(alloc: Global, problems: u32) -> Result<Self, NoMemory>
        ensures { IfOk result (λ s. keeps problems s []) };

    /// Takes in a leaf.
    fn keep(&mut self, leaf: Leaf) -> Result<(), NoMemory>
        ensures { OnOk result ((problems : ℕ) (kept : List Leaf) → keeps problems self.old kept → keeps problems self.new (kept ++ leaf ∷ [])) };

    /// Takes in what another has kept.
    fn join(&mut self, other: Self) -> Result<(), NoMemory>
        ensures { OnOk result ((problems : ℕ) (kept others : List Leaf) → keeps problems self.old kept → keeps problems other others → keeps problems self.new (kept ++ others)) };
}
