//! A file in memory.

/// A file in memory.
#[derive(Drop)]
pub struct NamedFile {
    pub name: String,
    pub content: Vec<u8>,
}

impl NamedFile {
    ghost use Rattle.std.specs.Prelude.{◌≡◌};
    ghost use Rattle.std.specs.Option.{option_map};
    ghost use Rattle.pb_outside.specs.Files.{content_of};
    ghost use Rattle.pb_outside.specs.NamedFile.{named_bytes};

    /// The content of the first file of a name.
    pub fn content_of<'a>(files: &'a [NamedFile], name: &str) -> Option<&'a [u8]>
        ensures { option_map (λ bytes. bytes.now) result ≡ content_of (named_bytes files.now) name.now }
    {
        for file in files {
            if file.name.as_str() == name {
                return Some(&file.content);
            }
        }
        None
    }
}
