// Leaves, kept one and all.
ghost use Rattle.std.specs.Prelude.{◌≡◌};

use crate::store::Store;
use cell_split::Leaf;
use no_memory::NoMemory;
use std::alloc::Global;

/// All leaves that were taken in.
#[derive(Drop)]
pub struct KeptLeaves {
    pub leaves: Vec<Leaf>,
}

impl Store for KeptLeaves {
    ghost keeps = { λ problems s kept. s.leaves.items ≡ kept };

    fn new(alloc: Global, _: u32) -> Result<KeptLeaves, NoMemory> {
        Ok(KeptLeaves {
            leaves: Vec::new(alloc),
        })
    }

    fn keep(&mut self, leaf: Leaf) -> Result<(), NoMemory> {
        self.leaves.push(leaf)?;
        Ok(())
    }

    fn join(&mut self, mut other: KeptLeaves) -> Result<(), NoMemory> {
        self.leaves.append(&mut other.leaves)?;
        Ok(())
    }
}
