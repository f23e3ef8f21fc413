//! Closing a file.

use std::fs::File;
use std::io;
use std::io::Write;

/// An open file that is closed by a call, which may tell an error.
pub trait Close {
    fn close(self) -> io::Result<()>;
}

impl Close for File {
    // std closes a file where it is let go, and has no call that tells the system's error.
    fn close(self) -> io::Result<()> {
        Ok(())
    }
}

/// Hands over what a file may hold back, and closes it.
pub(crate) fn finished<F: Write + Close + Drop>(mut file: F) -> io::Result<()> {
    file.flush()?;
    file.close()
}
