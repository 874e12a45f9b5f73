// Why a file could not be read: the cases that the command has words for, and else the system's number.
use std::env::FillError;
use std::fmt;
use std::io::{Error, ErrorKind};

#[derive(Clone, Copy)]
pub(crate) enum Unread {
    Missing,
    Folder,
    Closed,
    Other(u32),
}

impl Unread {
    // The system's numbers, which `std` has no names for: an argument that is none, and a name that is too long.
    const EINVAL: i32 = 22;

    const ENAMETOOLONG: i32 = 36;

    fn other(number: i32) -> Self {
        Unread::Other(u32::try_from(number).unwrap_or(0))
    }
}

impl From<Error> for Unread {
    fn from(error: Error) -> Self {
        match error.kind() {
            ErrorKind::NotFound | ErrorKind::NotADirectory => Unread::Missing,
            ErrorKind::IsADirectory => Unread::Folder,
            ErrorKind::PermissionDenied => Unread::Closed,
            // Only a name with a NUL in it is refused before the system is asked, and so has no number of the system's.
            _ => Unread::other(error.raw_os_error().unwrap_or(Self::EINVAL)),
        }
    }
}

// Of an argument that is to name a file.
impl From<FillError> for Unread {
    fn from(error: FillError) -> Self {
        match error {
            FillError::TooLong => Unread::other(Self::ENAMETOOLONG),
            FillError::NotPresent => Unread::other(Self::EINVAL),
        }
    }
}

impl fmt::Display for Unread {
    fn fmt<W: fmt::Write>(&self, f: &mut fmt::Formatter<W>) -> fmt::Result {
        match self {
            Unread::Missing => f.write_str("missing"),
            Unread::Folder => f.write_str("folder"),
            Unread::Closed => f.write_str("closed"),
            Unread::Other(number) => write!(f, "unread {number}"),
        }
    }
}
