//! Released books that several hold.
ghost use Rattle.std.specs.Prelude.{◌≡◌, IfOk};

use pb_base::Memory;
use release::Released;
use std::alloc::Global;
use std::marker::Model;
use std::sync::Arc;

/// A released book in memory that the desk shares with those who judge by it.
#[derive(Drop)]
pub struct SharedBook {
    released: Arc<Released>,
}

impl Model for SharedBook {
    ghost use Rattle.release.specs.Release.{Release};
    ghost use Rattle.release.specs.ReleaseCode.{release_code};

    ghost Value = { Release };

    ghost coded = { release_code };

    ghost view = { λ s. s.released.value };
}

impl SharedBook {
    /// Takes a released book into the memory that is shared.
    pub fn new(alloc: Global, released: Released) -> Result<SharedBook, Memory>
        ensures { IfOk result (λ book. book ≡ released) }
    {
        let released = Arc::new(alloc, released)?;
        Ok(SharedBook { released })
    }

    /// The released book.
    pub fn released(&self) -> &Released
        ensures { result.now ≡ self.now }
    {
        &self.released
    }

    /// The book as it is shared.
    pub(crate) fn shared(&self) -> &Arc<Released>
        ensures { result.now.value ≡ self.now }
    {
        &self.released
    }

    /// A further holder of the same book. Nothing is copied.
    pub fn share(&self) -> Result<SharedBook, Memory>
        ensures { IfOk result (λ book. book ≡ self.now) }
    {
        let released = self.released.clone()?;
        Ok(SharedBook { released })
    }
}
