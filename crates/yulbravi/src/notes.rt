// The notes: lines for the command, on a descriptor of their own. Where it is not open nobody asked for them, so no failed write is told.
use crate::unread::Unread;
use std::fmt;
use std::fmt::{Display, Write};

// The command's status of what was not run: a file that could not be read.
pub(crate) const NOT_RUN: u32 = 2;

// The descriptor 9. `std` opens none by its number, so the kit's crate `io` writes there.
#[derive(Drop)]
struct Notes {}

impl Notes {
    const DESCRIPTOR: i32 = 9;
}

impl Write for Notes {
    fn write_str(&mut self, text: &str) -> fmt::Result {
        io::write_all(Self::DESCRIPTOR, text.as_bytes());
        Ok(())
    }
}

// One line.
pub(crate) fn note(line: impl Display + Drop) {
    let mut notes = Notes {};
    let _ = writeln!(notes, "{line}");
}

// The first line: the exit status, unless the lines on standard output could not be written.
pub(crate) fn note_status(written: std::io::Result<()>, status: u32) {
    match written {
        Ok(()) => note(status),
        Err(_) => note("unwritten"),
    }
}

// Why a file could not be read, where it could not.
pub(crate) fn note_unread(file: &str, read: Result<&[u8], Unread>) {
    if let Err(unread) = read {
        note(format_args!("{file} {unread}"));
    }
}
