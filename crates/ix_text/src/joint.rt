ghost use Rattle.std.specs.Prelude.{◌≡◌, IfOk};

use std::alloc::{AllocError, Global};
use std::marker::Model;
use std::rc::Rc;

/// One value that several owners hold jointly: a further owner takes no copy of it. A clause sees the value alone, and not where it lies.
pub struct Joint<T: Drop> {
    inner: Rc<T>,
}

impl<T: Drop> Drop for Joint<T> {
    fn drop(self) {
        match self {
            Joint { inner } => drop(inner),
        }
    }
}

impl<T: Drop> Model for Joint<T> {
    ghost Value = { T };

    ghost coded = { T.code };

    ghost view = { λ joint. joint.inner.value };
}

impl<T: Drop> Joint<T> {
    /// The value with its first owner. The one error is want of memory.
    pub fn new(alloc: Global, value: T) -> Result<Joint<T>, AllocError>
        ensures { IfOk result (λ joint. joint ≡ value) }
    {
        match Rc::new(alloc, value) {
            Ok(inner) => Ok(Joint { inner }),
            Err(_) => Err(AllocError),
        }
    }

    /// The value, lent.
    pub fn get(&self) -> &T
        ensures { result.now ≡ self.now }
    {
        &self.inner
    }

    /// The same value with one owner more. The one error is that of a count of owners that is at its end.
    pub fn join(&self) -> Result<Joint<T>, AllocError>
        ensures { IfOk result (λ joint. joint ≡ self.now) }
    {
        let inner = self.inner.clone()?;
        Ok(Joint { inner })
    }
}
