ghost use Rattle.std.specs.Prelude.{◌≡◌, [], ◌∷◌, ◌++◌, ◌↔◌, length, IsTrue, OnOk, OnErr, IfErr};

use std::alloc::{AllocError, AllocFailed, Global};
use std::marker::Model;

/// A list of values, in which a type may contain itself. A clause sees the list of its elements.
#[derive(Debug)]
pub struct List<T> {
    items: Vec<T>,
}

impl<T: Drop> Drop for List<T> {
    fn drop(self) {
        match self {
            List { items } => drop(items),
        }
    }
}

impl<T> Model for List<T> {
    ghost use Rattle.std.specs.Prelude.{List as Elements};
    ghost use Rattle.std.specs.Coded.{coded_list};

    ghost Value = { Elements T };

    ghost coded = { coded_list T.code };

    ghost view = { λ list. list.items.items };
}

impl<T> List<T> {
    /// The empty list. It takes no memory, and keeps the allocator for what is pushed.
    pub fn new(alloc: Global) -> List<T>
        ensures { result ≡ [] }
    {
        List {
            items: Vec::new(alloc),
        }
    }

    /// Adds the value at the end. After want of memory, which is the one error, the list is as it was and the error holds the value.
    pub fn push(&mut self, value: T) -> Result<(), AllocFailed<T>>
        ensures { record {
          added : OnOk result (self.new ≡ self.old ++ value ∷ []);
          unchanged : OnErr result (self.new ≡ self.old);
          handed_back : IfErr result (λ failed. failed.value ≡ value);
        } }
    {
        self.items.push(value)
    }

    /// The elements, in their order.
    pub fn as_slice(&self) -> &[T]
        ensures { result.now ≡ self.now }
    {
        self.items.as_slice()
    }

    /// How many elements there are.
    pub fn len(&self) -> usize
        ensures { result ≡ length self.now }
    {
        self.items.len()
    }

    /// Whether there is no element.
    pub fn is_empty(&self) -> bool
        ensures { IsTrue result ↔ (self.now ≡ []) }
    {
        self.items.is_empty()
    }
}

impl<T: PartialEq> PartialEq for List<T> {
    ghost use Rattle.std.specs.Cmp.Lexicographic.{pointwise, lists_per};

    ghost eq = { pointwise T.eq };

    ghost laws = { lists_per T.laws };

    fn eq(&self, other: &Self) -> bool {
        self.items.as_slice() == other.items.as_slice()
    }
}

impl<T: Eq> Eq for List<T> {
    ghost use Rattle.std.specs.Cmp.Lexicographic.{lists_equiv};

    ghost laws = { lists_equiv T.Eq.laws };
}

impl<T: Clone> Clone for List<T> {
    ghost use Rattle.std.specs.List.{AllZip};

    ghost is_clone = { AllZip T.is_clone };

    fn clone(&self) -> Result<List<T>, AllocError> {
        let items = self.items.clone()?;
        Ok(List { items })
    }
}
