//! The names of files.
ghost use Rattle.std.specs.Prelude.{◌≡◌, IfOk};

use pb_base::Memory;
use std::alloc::Global;
use std::marker::Model;

/// The name of a file, as a word gave it.
#[derive(Drop)]
pub struct FileName {
    text: String,
}

impl Model for FileName {
    ghost use Rattle.std.specs.Prelude.{List, ℕ, string_bytes};

    ghost Value = { List ℕ };

    ghost view = { λ f. string_bytes f.text };
}

impl FileName {
    pub fn of(alloc: Global, text: &str) -> Result<FileName, Memory>
        ensures { IfOk result (λ file. file ≡ text.now) }
    {
        Ok(FileName {
            text: String::from_str(alloc, text)?,
        })
    }

    pub fn as_str(&self) -> &str
        ensures { result.now ≡ self.now }
    {
        self.text.as_str()
    }
}
