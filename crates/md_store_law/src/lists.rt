//! Lists that lie one behind another.

ghost use Rattle.std.specs.Prelude.{◌≡◌, ◌++◌, [], ◌∷◌, length, IfOk, OnOk};
ghost use Rattle.md_store_law.specs.Lists.{HasList, between};

use std::alloc::{AllocError, Global};

/// Lists that lie one behind another, in two allocations. The list of a number ends where the next
/// one begins: at the bound with the number of the next.
#[derive(Drop)]
pub struct Lists<T> {
    pub joined: Vec<T>,
    pub bounds: Vec<usize>,
}

impl<T: Drop> Lists<T> {
    /// No list.
    pub(crate) fn new(alloc: Global) -> Result<Lists<T>, AllocError>
        ensures joined { IfOk result (λ lists. lists.joined.items ≡ []) }
        ensures bounds { IfOk result (λ lists. lists.bounds.items ≡ 0 ∷ []) }
    {
        let joined = Vec::new(alloc);
        let bounds = vec![in alloc; 0]?;
        Ok(Lists { joined, bounds })
    }

    /// Ends a list: its elements are those that were pushed behind the lists before it.
    pub(crate) fn end(&mut self) -> Result<(), AllocError>
        ensures joined { self.new.joined.items ≡ self.old.joined.items }
        ensures bounds { OnOk result (self.new.bounds.items
            ≡ self.old.bounds.items ++ length self.old.joined.items ∷ []) }
    {
        let bound = self.joined.len();
        self.bounds.push(bound)?;
        Ok(())
    }

    /// The list of a number, counted from 0.
    pub fn list(&self, number: usize) -> &[T]
        requires { HasList self.now.joined.items self.now.bounds.items number }
        ensures { result.now ≡ between self.now.joined.items self.now.bounds.items number }
    {
        &self.joined[self.bounds[number]..self.bounds[number + 1]]
    }
}
