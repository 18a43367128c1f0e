ghost use Rattle.std.specs.Prelude.{◌≡◌, ◌<◌, ◌++◌, ◌∷◌, [], length, slice_index_or, slice_set, IfOk, IfErr, OnOk};

use std::alloc::{AllocError, Global};
use std::marker::Model;

/// A list that contracts see as just its elements. It is made from a `Vec` and gives it back, and takes no memory for either.
#[derive(Debug, Drop)]
pub struct Items<T> {
    vec: Vec<T>,
}

impl<T> Model for Items<T> {
    ghost use Rattle.std.specs.Prelude.{List};

    ghost Value = { List T };

    ghost view = { λ a. a.vec.items };
}

impl<T> Items<T> {
    pub fn new(alloc: Global) -> Items<T>
        ensures { result ≡ [] }
    {
        Items {
            vec: Vec::new(alloc),
        }
    }

    pub fn into_vec(self) -> Vec<T>
        ensures { result.items ≡ self }
    {
        let Items { vec } = self;
        vec
    }

    pub fn as_slice(&self) -> &[T]
        ensures { result.now ≡ self.now }
    {
        self.vec.as_slice()
    }
}

impl<T> From<Vec<T>> for Items<T> {
    ghost use Rattle.std.specs.Prelude.{◌≡◌};

    ghost from_gives = { λ vec a. a ≡ vec.items };

    fn from(vec: Vec<T>) -> Items<T> {
        Items { vec }
    }
}

impl<T: Copy> Items<T> {
    /// Puts the element at the end. If memory runs out, the list is unchanged.
    pub fn push(&mut self, element: T) -> Result<(), AllocError>
        ensures ok { OnOk result (self.new ≡ self.old ++ element ∷ []) }
        ensures err { IfErr result (λ _. self.new ≡ self.old) }
    {
        match self.vec.push(element) {
            Ok(()) => Ok(()),
            Err(failed) => Err(AllocError::from(failed)),
        }
    }

    /// Puts the element in the place of the one that stands there.
    pub fn set(&mut self, at: usize, element: T)
        requires { at < length self.old }
        ensures { self.new ≡ slice_set self.old at element }
    {
        self.vec[at] = element;
    }

    /// An equal list.
    pub fn copy(&self, alloc: Global) -> Result<Items<T>, AllocError>
        ensures { IfOk result (λ copy. copy ≡ self.now) }
    {
        Ok(Items {
            vec: Vec::from_slice(alloc, self.vec.as_slice())?,
        })
    }
}

impl<T: Drop> Items<T> {
    /// Puts an element that owns memory at the end. If memory runs out, the list is unchanged.
    pub(crate) fn append(&mut self, element: T) -> Result<(), AllocError>
        ensures ok { OnOk result (self.new ≡ self.old ++ element ∷ []) }
        ensures err { IfErr result (λ _. self.new ≡ self.old) }
    {
        self.vec.push(element)?;
        Ok(())
    }
}

impl<T: Copy> Items<Items<T>> {
    /// Puts the element in the place of the one that stands there, in the list of this row.
    pub(crate) fn set_in(&mut self, row: usize, at: usize, element: T)
        requires row { row < length self.old }
        requires at { at < length (slice_index_or self.old row []) }
        ensures { self.new ≡ slice_set self.old row
            (slice_set (slice_index_or self.old row []) at element) }
    {
        self.vec[row].set(at, element);
    }
}
