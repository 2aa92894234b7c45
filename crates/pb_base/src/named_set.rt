//! Sets of codes from their names.
ghost use Rattle.std.specs.Prelude.{◌<◌, length};
ghost use Rattle.pb_base.specs.Answers.{Answers, IfRefused};
ghost use Rattle.pb_base.specs.NamedSet.{set_of_names, place_of_fault};

use crate::answer::Fail;
use crate::code_set::CodeSet;
use crate::code_table::CodeTable;
use crate::names::CodeName;
use std::alloc::Global;

/// Why names make no set: the first of them that is at fault, by its place, counted from 0.
#[derive(Clone, Copy, Debug, PartialEq, Eq)]
pub enum NameFault {
    /// The name at this place is no code of the table.
    Unknown(usize),
    /// The name at this place stands further left already.
    Repeated(usize),
}

impl CodeSet {
    /// The set of the codes that these names name, over the codes of a table.
    pub fn of_names(
        alloc: Global,
        table: &CodeTable,
        names: &[CodeName],
    ) -> Result<CodeSet, Fail<NameFault>>
        ensures set { Answers result (set_of_names table.now names.now) }
        ensures place { IfRefused result (λ fault. place_of_fault fault < length names.now) }
    {
        let mut set = CodeSet::none(alloc, table.len())?;
        for (place, name) in names.iter().enumerate() {
            let Some(code) = table.place_of(name) else {
                return Err(Fail::Refused(NameFault::Unknown(place)));
            };
            if set.has(code) {
                return Err(Fail::Refused(NameFault::Repeated(place)));
            }
            set.with(code);
        }
        Ok(set)
    }
}
