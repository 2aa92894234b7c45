//! What holds of names.
ghost use Rattle.std.specs.Prelude.{◌≡◌, All, true};
ghost use Rattle.pb_base.specs.Names.{is_code_name, is_name};

use pb_base::{CodeList, Id};

/// A name is well formed. The call does nothing.
pub(crate) fn name_law(name: &Id)
    ensures { is_name name.now ≡ true }
{
    let _bytes = name.bytes();
}

/// The codes of an order are code names. The call does nothing.
pub(crate) fn code_names_law(codes: &CodeList)
    ensures { All (λ code. is_code_name code ≡ true) codes.now }
{
    for code in codes.as_slice() {
        let _code = code.bytes();
    }
}
