//! Texts that have a name.

use pb_base::Text;

/// A text that the cases behind it name, or a file of one case.
#[derive(Drop)]
pub struct NamedText<'a> {
    pub name: &'a str,
    pub text: Text,
}

/// The bytes of the text of this name, or none where there is no such text.
pub fn text_of<'t>(texts: &'t [NamedText<'_>], name: &str) -> &'t [u8] {
    for named in texts {
        if named.name == name {
            return named.text.bytes();
        }
    }
    b""
}

/// Whether a text has this name.
pub fn has_name(texts: &[NamedText<'_>], name: &str) -> bool {
    texts.iter().any(|named| named.name == name)
}
