//! Files that a world in memory holds.

ghost use Rattle.std.specs.Prelude.{◌≡◌, OnOk, OnErr};
ghost use Rattle.std.specs.List.{find, position};
ghost use Rattle.std.specs.Option.{option_copied};
ghost use Rattle.std.specs.Str.{bytes_eq};
ghost use Rattle.std.specs.String.{string_bytes};
ghost use Rattle.ccsl_edge.specs.World.{file_at};
ghost use Rattle.ccsl_edge.specs.Stored.{Stores};

use std::alloc::{AllocError, Global};
use std::marker::Model;

/// A file in memory: a name and a content.
#[derive(Drop)]
pub struct HeldFile {
    name: String,
    content: Vec<u8>,
}

impl Model for HeldFile {
    ghost use Rattle.std.specs.Prelude.{List, ℕ};
    ghost use Rattle.std.specs.String.{string_bytes};

    ghost Value = { List ℕ × List ℕ };

    ghost view = { λ f. (string_bytes f.name, f.content.items) };
}

impl HeldFile {
    /// A file of this name with these bytes. It takes no memory.
    pub fn new(name: String, bytes: Vec<u8>) -> HeldFile
        ensures { result ≡ (string_bytes name, bytes.items) }
    {
        HeldFile {
            name,
            content: bytes,
        }
    }

    pub(crate) fn is_named(&self, name: &str) -> bool
        ensures { result ≡ bytes_eq self.now.0 name.now }
    {
        self.name.as_str() == name
    }

    pub(crate) fn content(&self) -> &[u8]
        ensures { result.now ≡ self.now.1 }
    {
        self.content.as_slice()
    }

    pub(crate) fn refill(&mut self, content: Vec<u8>)
        ensures { self.new ≡ (self.old.0, content.items) }
    {
        self.content = content;
    }
}

/// Makes the file of this name hold these bytes.
pub(crate) fn store(
    alloc: Global,
    files: &mut Vec<HeldFile>,
    name: &str,
    bytes: &[u8],
) -> Result<(), AllocError>
    ensures ok { OnOk result (Stores name.now bytes.now files.old.items files.new.items) }
    ensures err { OnErr result (files.new.items ≡ files.old.items) }
{
    let content = Vec::from_slice(alloc, bytes)?;
    match position_of(files.as_slice(), name) {
        Some(at) => {
            let file = &mut files[at];
            file.refill(content);
        }
        None => files.push(HeldFile::new(String::from_str(alloc, name)?, content))?,
    }
    Ok(())
}

/// The place of the first file of this name.
pub(crate) fn position_of(files: &[HeldFile], name: &str) -> Option<usize>
    ensures { result ≡ position (λ file. bytes_eq file.0 name.now) files.now }
{
    files.iter().position(|file| file.is_named(name))
}

/// The first file of this name.
fn file_named<'a>(files: &'a [HeldFile], name: &str) -> Option<&'a HeldFile>
    ensures { option_copied result ≡ find (λ file. bytes_eq file.0 name.now) files.now }
{
    files.iter().find(|file| file.is_named(name))
}

/// The content of the first file of this name.
pub(crate) fn content_of<'a>(files: &'a [HeldFile], name: &str) -> Option<&'a [u8]>
    ensures { option_copied result ≡ file_at files.now name.now }
{
    let file = file_named(files, name)?;
    Some(file.content())
}
