//! Growing lists that contracts see as the list of what they hold.

ghost use Rattle.std.specs.Prelude.{◌≡◌, IsTrue, ◌↔◌, OnOk, OnErr, IfOk, [], ◌∷◌, ◌++◌, length};
ghost use Rattle.std.specs.Bool.{Decides};
ghost use Rattle.std.specs.Cmp.Lexicographic.{pointwise, lists_per, lists_equiv};

use std::alloc::{AllocError, Global};
use std::marker::Model;

/// A growing list. Contracts see it as the list of its items, so that two with the same items are equal, whatever memory they have.
#[derive(Debug, Drop)]
pub struct Listed<T> {
    items: Vec<T>,
}

impl<T> Model for Listed<T> {
    ghost use Rattle.std.specs.Prelude.{List};

    ghost Value = { List T };

    ghost view = { λ l. l.items.items };
}

impl<T> Listed<T> {
    /// Returns a list of no item. It takes no memory.
    pub fn new(alloc: Global) -> Listed<T>
        ensures { result ≡ [] }
    {
        Listed {
            items: Vec::new(alloc),
        }
    }

    /// Returns the list of these items, whose memory it keeps.
    pub fn from_vec(items: Vec<T>) -> Listed<T>
        ensures { result ≡ items.items }
    {
        Listed { items }
    }

    /// Returns the items in order.
    pub fn as_slice(&self) -> &[T]
        ensures { result.now ≡ self.now }
    {
        self.items.as_slice()
    }

    /// Returns the number of items.
    pub fn len(&self) -> usize
        ensures { result ≡ length self.now }
    {
        self.items.len()
    }

    /// True if there is no item.
    pub fn is_empty(&self) -> bool
        ensures { IsTrue result ↔ (self.now ≡ []) }
    {
        self.items.is_empty()
    }
}

impl<T: Drop> Listed<T> {
    /// Adds an item after the others. Refused only when out of memory: the list is as before, and the item is given up.
    pub fn push(&mut self, item: T) -> Result<(), AllocError>
        ensures ok { OnOk result (self.new ≡ self.old ++ item ∷ []) }
        ensures err { OnErr result (self.new ≡ self.old) }
    {
        self.items.push(item)?;
        Ok(())
    }
}

impl<T: Copy> Listed<T> {
    /// Returns an equal list. Refused only when out of memory.
    pub fn clone_in(&self, alloc: Global) -> Result<Listed<T>, AllocError>
        ensures { IfOk result (λ copy. copy ≡ self.now) }
    {
        let copies = Vec::from_slice(alloc, &self.items)?;
        Ok(Listed::from_vec(copies))
    }
}

impl<T: PartialEq> PartialEq for Listed<T> {
    ghost eq = { pointwise T.eq };

    ghost laws = { lists_per T.laws };

    /// True if the items are equal, one by one. If `==` of the items is equality, so it is of the lists.
    fn eq(&self, other: &Listed<T>) -> bool
        ensures value { result ≡ pointwise T.eq self.now other.now }
        ensures same { ((a b : T) → Decides (T.eq a b) (a ≡ b)) → (IsTrue result ↔ (self.now ≡ other.now)) }
    {
        self.as_slice() == other.as_slice()
    }
}

impl<T: Eq> Eq for Listed<T> {
    ghost laws = { lists_equiv T.Eq.laws };
}
