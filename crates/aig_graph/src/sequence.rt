ghost use Rattle.std.specs.Prelude.{◌≡◌, ◌==◌, [], length};

use std::alloc::Global;
use std::marker::Model;

/// A list of values: a `Vec` that contracts see as a list, so that two sequences are equal if their
/// elements are, with any room. It is made from a `Vec` and given back without taking memory.
pub struct Sequence<T> {
    elements: Vec<T>,
}

impl<T: Drop> Drop for Sequence<T> {
    // written out: docs/PROOFS.md, Drops and exits
    fn drop(self) {
        let Sequence {
            elements: _elements,
        } = self;
    }
}

impl<T> Model for Sequence<T> {
    ghost use Rattle.std.specs.Prelude.{List};

    ghost Value = { List T };

    ghost view = { λ s. s.elements.items };
}

impl<T> Sequence<T> {
    /// Returns the sequence of no elements. Takes no memory.
    pub fn empty(alloc: Global) -> Sequence<T>
        ensures { result ≡ [] }
    {
        Sequence::from_vec(Vec::new(alloc))
    }

    /// Returns the sequence of the vector's elements.
    pub fn from_vec(elements: Vec<T>) -> Sequence<T>
        ensures { result ≡ elements.items }
    {
        Sequence { elements }
    }

    /// Returns the vector of the elements.
    pub fn into_vec(self) -> Vec<T>
        ensures { result.items ≡ self }
    {
        let Sequence { elements } = self;
        elements
    }

    /// Returns the elements.
    pub fn as_slice(&self) -> &[T]
        ensures { result.now ≡ self.now }
    {
        self.elements.as_slice()
    }

    /// Returns the number of elements.
    pub fn len(&self) -> usize
        ensures { result ≡ length self.now }
    {
        self.elements.len()
    }

    /// Returns true if there is no element.
    pub fn is_empty(&self) -> bool
        ensures { result ≡ (length self.now == 0) }
    {
        self.elements.is_empty()
    }
}
