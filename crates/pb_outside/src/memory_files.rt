//! Files in memory.
ghost use Rattle.std.specs.Prelude.{◌≡◌, ◌↔◌, IsTrue, Some, IfOk, OnOk};
ghost use Rattle.std.specs.Option.{option_map};
ghost use Rattle.pb_outside.specs.Faults.{IsLater};
ghost use Rattle.pb_outside.specs.FaultPlan.{faults_of};
ghost use Rattle.pb_outside.specs.Files.{ReadsFile, FailsToRead};
ghost use Rattle.pb_outside.specs.MemoryFiles.{told_by, refuses, after_call_for};

use crate::{FaultPlan, Files, NamedFile, OutError};
use std::alloc::Global;
use std::marker::Model;

/// Files in memory, with chosen calls that fail. Of files with one name the first counts. It tells all.
#[derive(Drop)]
pub struct MemoryFiles {
    files: Vec<NamedFile>,
    plan: FaultPlan,
}

impl Model for MemoryFiles {
    ghost use Rattle.pb_outside.specs.MemoryFiles.{Shelf};

    ghost Value = { Shelf };

    ghost use Rattle.pb_outside.specs.NamedFile.{named_bytes};

    ghost view = { λ f. record { files = named_bytes f.files.items; plan = f.plan } };
}

impl MemoryFiles {
    ghost use Rattle.pb_outside.specs.NamedFile.{named_bytes};

    /// A call fails exactly where its number is among `fails` or there is no file of its name.
    pub fn new(files: Vec<NamedFile>, fails: Vec<u64>) -> MemoryFiles
        ensures files { result.files ≡ named_bytes files.items }
        ensures plan { result.plan ≡ record { fails = fails.items; next_call = 0; faults = 0 } }
    {
        MemoryFiles {
            files,
            plan: FaultPlan::new(fails),
        }
    }
}

impl Files for MemoryFiles {
    ghost told = { told_by };

    fn read(&mut self, alloc: Global, name: &str, max: usize) -> Result<Option<Vec<u8>>, OutError>
        ensures content { let content = option_map (λ bytes. bytes.items) in
            IfOk result (λ found. ReadsFile name.now max (Some self.old.files) (content found)) }
        ensures stays { OnOk result (self.new.plan.faults ≡ self.old.plan.faults) }
        ensures cause { let fails = FailsToRead name.now (told_by self.old) (told_by self.new) in
            result ≡ Err OutError.Failed → fails }
        ensures kept { self.new.files ≡ self.old.files }
        ensures later { IsLater (faults_of self.old.plan) (faults_of self.new.plan) }

        // Exactly the calls that are to fail, and those for a file that is not there, do so.
        ensures fails { (result ≡ Err OutError.Failed) ↔ IsTrue (refuses self.old name.now) }
        ensures after { self.new ≡ after_call_for self.old name.now }
    {
        if self.plan.begin_call() {
            return Err(OutError::Failed);
        }
        let Some(content) = NamedFile::content_of(&self.files, name) else {
            self.plan.count_fault();
            return Err(OutError::Failed);
        };
        if content.len() > max {
            return Ok(None);
        }
        Ok(Some(content.to_vec(alloc)?))
    }

    fn faults(&self) -> u64 {
        self.plan.faults()
    }
}
