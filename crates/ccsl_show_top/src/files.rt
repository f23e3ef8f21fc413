//! What the words say of files.

ghost use Rattle.std.specs.Prelude.{◌≡◌};
ghost use Rattle.ccsl_show_top.specs.Files.{is_written, is_read_again, are_one};

use ccsl_base::CommandWord;

/// What a file's name leads to.
#[derive(Clone, Copy)]
pub enum Found {
    /// a file on a disk
    File,
    /// a pipe, a folder or a device
    Other,
    Nothing,
}

/// The keys of the files of a command.
pub const FILE_KEYS: [&str; 3] = ["spec", "trace", "cert"];

/// The value of a key: that of the first word that gives it.
pub fn value_of<'a>(words: &'a [CommandWord], key: &str) -> Option<&'a str> {
    for word in words {
        if let Some((name, value)) = word.as_str().split_once('=')
            && name == key
        {
            return Some(value);
        }
    }
    None
}

/// The command that the words begin with, if they do.
pub fn command_of(words: &[CommandWord]) -> &str {
    match words.first() {
        Some(word) => word.as_str(),
        None => "",
    }
}

/// Whether a command writes the file of a key.
pub fn is_written(command: &str, key: &str) -> bool
    ensures { result ≡ is_written command.now key.now }
{
    match command {
        "simulate" => key != "spec",
        "explain" => key == "cert",
        _ => false,
    }
}

/// Whether a file can be read once more: one that lies on a disk, or is still to be written, and is not what stands at
/// standard input.
pub fn is_read_again(name: &str, found: Found) -> bool
    ensures { result ≡ is_read_again name.now found }
{
    match found {
        Found::File | Found::Nothing => name != "/dev/stdin",
        Found::Other => false,
    }
}

/// What the system knows a file by: its device, and its number there.
#[derive(Clone, Copy)]
pub struct Identity {
    pub device: u64,
    pub number: u64,
}

/// Whether two names lead to one file: they are the same, or what they lead to is.
pub fn are_one(one: &str, other: &str, one_is: Option<Identity>, other_is: Option<Identity>) -> bool
    ensures { result ≡ are_one one.now other.now one_is other_is }
{
    match (one_is, other_is) {
        (Some(a), Some(b)) => one == other || (a.device == b.device && a.number == b.number),
        _ => one == other,
    }
}

/// Whether the words begin a session.
pub fn is_session(words: &[CommandWord]) -> bool {
    command_of(words) == "session"
}

/// How many steps the words ask for.
pub fn steps_of(words: &[CommandWord]) -> u64 {
    match value_of(words, "steps") {
        Some(text) => text.parse::<u64>().unwrap_or(0),
        None => 0,
    }
}

/// The folder that a file is to lie in.
pub fn folder_of(name: &str) -> &str {
    match name.rsplit_once('/') {
        Some(("", _)) => "/",
        Some((folder, _)) => folder,
        None => ".",
    }
}
