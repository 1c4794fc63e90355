// The districts of a set.
ghost use Rattle.std.specs.Prelude.{◌≡◌, ◌++◌, [], ◌∷◌, length, MatchOption, OnOk};

use no_memory::NoMemory;
use region::District;
use std::alloc::Global;
use std::collections::VecDeque;
use std::marker::Model;

/// The districts of a set's Features, in their order.
///
/// A clause sees them as a list of districts, each a list of polygons.
#[derive(Drop)]
pub struct Parts {
    districts: VecDeque<District>,
}

impl Model for Parts {
    ghost use Rattle.std.specs.Prelude.{List};
    ghost use Rattle.ring_survey.specs.Polygons.{Polygon};

    ghost Value = { List (List Polygon) };

    ghost view = { λ p. p.districts.items };
}

impl Parts {
    /// No district.
    pub(crate) fn new(alloc: Global) -> Parts
        ensures { result ≡ [] }
    {
        Parts {
            districts: VecDeque::new(alloc),
        }
    }

    /// Puts one more behind them.
    pub(crate) fn push(&mut self, district: District) -> Result<(), NoMemory>
        ensures { OnOk result (self.new ≡ self.old ++ district ∷ []) }
    {
        self.districts.push_back(district)?;
        Ok(())
    }

    pub fn count(&self) -> usize
        ensures { result ≡ length self.now }
    {
        self.districts.len()
    }

    /// Takes the first district out, and gives it; `None` exactly where none is left.
    pub fn take_first(&mut self) -> Option<District>
        ensures { MatchOption result ((self.old ≡ []) × (self.new ≡ [])) (λ first. self.old ≡ first ∷ self.new) }
    {
        self.districts.pop_front()
    }
}
