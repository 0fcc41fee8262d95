ghost use Rattle.std.specs.Prelude.{◌≡◌, IfOk};

use crate::boxed::Boxed;
use crate::vector::Vector;
use std::alloc::{AllocError, Global};

/// A type whose values can be copied, where contracts see the copy as the same value.
pub trait TryClone {
    /// An equal value, or that memory was refused.
    fn try_clone(&self, alloc: Global) -> Result<Self, AllocError>
        ensures { IfOk result (λ copy. copy ≡ self.now) };
}

impl TryClone for u64 {
    fn try_clone(&self, _alloc: Global) -> Result<u64, AllocError> {
        Ok(*self)
    }
}

impl TryClone for u32 {
    fn try_clone(&self, _alloc: Global) -> Result<u32, AllocError> {
        Ok(*self)
    }
}

impl TryClone for bool {
    fn try_clone(&self, _alloc: Global) -> Result<bool, AllocError> {
        Ok(*self)
    }
}

impl<T: TryClone> TryClone for Option<T> {
    fn try_clone(&self, alloc: Global) -> Result<Option<T>, AllocError> {
        match self {
            None => Ok(None),
            Some(a) => Ok(Some(a.try_clone(alloc)?)),
        }
    }
}

impl<A: TryClone + Drop, B: TryClone> TryClone for (A, B) {
    fn try_clone(&self, alloc: Global) -> Result<(A, B), AllocError> {
        let first = self.0.try_clone(alloc)?;
        Ok((first, self.1.try_clone(alloc)?))
    }
}

impl<T: TryClone + Drop> TryClone for Boxed<T> {
    fn try_clone(&self, alloc: Global) -> Result<Boxed<T>, AllocError> {
        Boxed::new(alloc, self.get().try_clone(alloc)?)
    }
}

impl<T: TryClone + Drop> TryClone for Vector<T> {
    fn try_clone(&self, alloc: Global) -> Result<Vector<T>, AllocError> {
        let mut copy = Vector::new(alloc);
        for item in self.as_slice() {
            copy.push(item.try_clone(alloc)?)?;
        }
        Ok(copy)
    }
}
