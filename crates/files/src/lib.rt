// Files: read whole into a room that is one byte longer than the longest right file, so that a longer one is seen to be one.

#![tactic(auto)]

ghost use Rattle.std.specs.Prelude.{◌≡◌, length, replicate, IfOk};
ghost use Rattle.std.specs.Io.{ReadsAtMost};
ghost use Rattle.io.specs.Counts.{IsPrefixLen};

use std::fs::File;
use std::io;
use std::io::Read;
use std::rt::Files;
use std::str::from_utf8;
use trace::Header;

// The system's number, which `std` has no name for, of a name that is no text: `std` opens no such file.
const EILSEQ: i32 = 84;

// Zeros, to read into.
pub fn room<const N: usize>() -> [u8; N]
    ensures size { N ≡ length result }
    ensures zeros { result ≡ replicate N 0 }
{
    [0; N]
}

// The rooms of a table and of a trace, a byte more than the longest: the sizes stand in contracts, which refuse others.
pub fn table_room() -> [u8; table::Counts::BYTES + 1]
    ensures { 289 ≡ length result }
{
    room()
}

pub fn trace_room() -> [u8; Header::BYTES + 1]
    ensures { 65537 ≡ length result }
{
    room()
}

// As far as the room goes: of a full one nothing more is asked. (`read_exact` does not say how much a shorter source has.)
pub fn read_full<S: Read>(source: &mut S, room: &mut [u8]) -> io::Result<usize>
    ensures { ReadsAtMost result room.new }
{
    let mut filled = 0;
    while filled < room.len() {
        let n = source.read(&mut room[filled..])?;
        if n == 0 {
            break;
        }
        filled += n;
    }
    Ok(filled)
}

// The name `-` is standard input; a file of that name is `./-`.
fn read_path<R: Files + Input>(rt: &R, path: &[u8], room: &mut [u8]) -> io::Result<usize>
    ensures { ReadsAtMost result room.new }
{
    if path == b"-".as_slice() {
        return read_full(&mut rt.reader(), room);
    }
    match from_utf8(path) {
        Ok(name) => read_full(&mut File::open(rt, name)?, room),
        Err(_) => Err(io::Error::from_raw_os_error(EILSEQ)),
    }
}

// The part of the room that the file fills, or why it could not be read.
pub fn read_file<'a, R: Files + Input>(
    rt: &R,
    path: &[u8],
    room: &'a mut [u8],
) -> io::Result<&'a [u8]>
    ensures { IfOk result (λ read. IsPrefixLen (length read.now) room.old) }
{
    let filled = read_path(rt, path, room)?;
    Ok(&room[..filled])
}
