//! A vector that reserves the memory for all that it may ever hold when it is made: no later call allocates.
#![tactic(auto)]

ghost use Rattle.std.specs.Prelude.{◌≡◌, ◌<◌, ◌==◌, ◌↔◌, ◌++◌, ◌∷◌, [], length, remove, slice_get, vec_capacity, IsOk, IfOk, IfErr, OnOk, OnErr};

use std::alloc::{AllocError, Global};

// Not an array beside a length, as the kit's `ArrayVec` is: a book is moved when it is opened, and its rows would move with it.
/// At most `CAP` items, with memory for all of them.
#[derive(Drop)]
pub struct Reserved<T, const CAP: usize> {
    items: Vec<T>,
    ghost reserved: { vec_capacity items ≡ CAP },
}

impl<T, const CAP: usize> Reserved<T, CAP> {
    ghost use Rattle.reserved.specs.Reserved.{items};
    ghost use Rattle.reserved.specs.Lends.{lends_item};
    ghost use Rattle.std.specs.Borrow.{sem};
    ghost use Rattle.std.specs.List.{IsItemAtMut};

    /// No item yet. This call alone asks for memory.
    pub fn new(heap: Global) -> Result<Self, AllocError>
        ensures holds_nothing { IfOk result (λ table. items table ≡ []) }
    {
        let items = Vec::with_capacity(heap, CAP)?;
        Ok(Reserved { items })
    }

    /// The items in their order.
    pub fn as_slice(&self) -> &[T]
        ensures all_items { result.now ≡ items self.now }
    {
        self.items.as_slice()
    }

    pub fn is_empty(&self) -> bool
        ensures no_item { result ≡ (length (items self.now) == 0) }
    {
        self.items.is_empty()
    }

    /// Whether there is no room for another item.
    pub fn is_full(&self) -> bool
        ensures no_room { result ≡ (length (items self.now) == CAP) }
    {
        self.items.len() == CAP
    }

    /// Adds an item at the end, or hands it back where there is no room.
    pub fn push(&mut self, item: T) -> Result<(), T>
        ensures fails_when_full { IsOk result ↔ (length (items self.old) < CAP) }
        ensures item_is_last { OnOk result (items self.new ≡ items self.old ++ item ∷ []) }
        ensures item_comes_back { IfErr result (λ back. back ≡ item) }
        ensures full_stays { OnErr result (self.new ≡ self.old) }
    {
        if self.is_full() {
            return Err(item);
        }
        self.items.push_reserved(item);
        Ok(())
    }

    /// The item at a place for writing, `None` where none stands there.
    pub fn get_mut(&mut self, at: usize) -> Option<&mut T>
        ensures* lends { sem 𝓛 (lends_item T.row CAP.row self.entry at result) }
        ensures item { IsItemAtMut (items self.old) at result }
    {
        self.items.get_mut(at)
    }

    /// Takes out the item at a place, `None` where none stands there; those after it move up.
    pub fn remove(&mut self, at: usize) -> Option<T>
        ensures item_taken { result ≡ slice_get (items self.old) at }
        ensures others_stay { items self.new ≡ remove (items self.old) at }
    {
        if at >= self.items.len() {
            return None;
        }
        Some(self.items.remove(at))
    }
}

impl<T: Drop, const CAP: usize> Reserved<T, CAP> {
    ghost use Rattle.reserved.specs.Reserved.{items};

    /// Drops every item.
    pub fn clear(&mut self)
        ensures holds_nothing { items self.new ≡ [] }
    {
        self.items.clear();
    }
}

#[cfg(test)]
mod tests {
    use super::*;
    use std::test::Fail;

    #[test]
    fn full_after_its_last_item(rt: HostRuntime) -> Result<(), Fail> {
        let mut two = Reserved::<u8, 2>::new(rt.alloc())?;
        assert!(rt; two.is_empty());
        assert_eq!(rt; two.push(7), Ok(()));
        assert!(rt; !two.is_full());
        assert_eq!(rt; two.push(8), Ok(()));
        assert!(rt; two.is_full());
        assert_eq!(rt; two.push(9), Err(9));
        assert!(rt; two.as_slice() == [7, 8].as_slice());
        Ok(())
    }

    #[test]
    fn items_changed_and_removed(rt: HostRuntime) -> Result<(), Fail> {
        let mut two = Reserved::<u8, 2>::new(rt.alloc())?;
        two.push(7).unwrap();
        two.push(8).unwrap();
        if let Some(item) = two.get_mut(1) {
            *item = 9;
        }
        assert!(rt; two.get_mut(2).is_none());
        assert_eq!(rt; two.remove(2), None);
        assert_eq!(rt; two.remove(0), Some(7));
        assert!(rt; two.as_slice() == [9].as_slice());
        two.clear();
        assert!(rt; two.is_empty());
        Ok(())
    }
}
