//! The values of the fields of a name, where there is at most one.
ghost use Rattle.std.specs.Prelude.{List, ℕ, [], ◌∷◌, ◌++◌};
ghost use Rattle.http_wire.specs.Few.{IsFew};
ghost use Rattle.http_wire.specs.Fields.{Field, values_of};

use crate::word::same_word;

/// The values of the fields of a name, where there is at most one.
#[derive(Clone, Copy)]
pub enum Few<'a> {
    None,
    One(&'a [u8]),
    More,
}

impl<'a> Few<'a> {
    /// With one value more.
    pub fn and(self, value: &'a [u8]) -> Few<'a>
        ensures { (values : List (List ℕ)) → IsFew values self.entry
            → IsFew (values ++ value.now ∷ []) result }
    {
        match self {
            Few::None => Few::One(value),
            Few::One(_) => Few::More,
            Few::More => Few::More,
        }
    }

    /// With one field more, whose value counts where it has this name.
    pub fn with_field(self, word: &[u8], name: &[u8], value: &'a [u8]) -> Few<'a>
        ensures { (fields : List Field) → IsFew (values_of word.now fields) self.entry
            → IsFew (values_of word.now (fields ++ (name.now, value.now) ∷ [])) result }
    {
        if same_word(name, word) {
            self.and(value)
        } else {
            self
        }
    }
}
