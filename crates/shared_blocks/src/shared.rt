//! Values that copies share.
ghost use Rattle.std.specs.Prelude.{◌≡◌, IfOk};

use std::alloc::{AllocError, Global};
use std::marker::Model;
use std::sync::Arc;

/// A value that copies share. Contracts see the value.
#[derive(Drop)]
pub struct Shared<T> {
    held: Arc<T>,
}

impl<T> Model for Shared<T> {
    ghost Value = { T };

    ghost coded = { T.code };

    ghost view = { λ s. s.held.value };
}

impl<T: Drop> Shared<T> {
    /// A value that can be shared from now on.
    pub fn new(alloc: Global, value: T) -> Result<Shared<T>, AllocError>
        ensures { IfOk result (λ shared. shared ≡ value) }
    {
        Ok(Shared {
            held: Arc::new(alloc, value)?,
        })
    }

    /// The value.
    pub fn get(&self) -> &T
        ensures { result.now ≡ self.now }
    {
        &self.held
    }
}

impl<T: Drop> Clone for Shared<T> {
    ghost is_clone = { λ shared copy. copy ≡ shared };

    fn clone(&self) -> Result<Shared<T>, AllocError> {
        Ok(Shared {
            held: Arc::try_clone(&self.held)?,
        })
    }
}
