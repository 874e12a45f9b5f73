// Reads records: a head of 21 bytes, then the bytes of a table and those of a trace.
ghost use Rattle.std.specs.Prelude.{◌≤◌, length};

use files::read_full;
use little::{bytes_at, u32_at};
use std::io;
use std::io::Read;

// What is compared of a record.
#[derive(Clone, Copy)]
pub(crate) enum Kind {
    Check,
    Judge,
    // Opening the property, and the step of each sample.
    Steps,
    // One step of the monitor whose words come after the record.
    State,
    // One step of the last monitor that was opened, on other bytes; and the step of each sample.
    Stray,
    Shut,
}

// The records end where none can: within one, or at one of no known kind.
#[derive(Clone, Copy)]
pub(crate) struct Cut {}

impl TryFrom<u8> for Kind {
    type Error = Cut;

    fn try_from(code: u8) -> Result<Self, Cut> {
        match code {
            1 => Ok(Kind::Check),
            2 => Ok(Kind::Judge),
            3 => Ok(Kind::Steps),
            4 => Ok(Kind::State),
            5 => Ok(Kind::Stray),
            6 => Ok(Kind::Shut),
            _ => Err(Cut {}),
        }
    }
}

// What a record says before its bytes.
#[derive(Clone, Copy)]
pub(crate) struct Head {
    pub(crate) kind: u8,
    pub(crate) property: u32,
    table: u32,
    trace: u32,
    pub(crate) expected: u64,
}

impl Head {
    const BYTES: usize = 21;
}

#[derive(Clone, Copy)]
pub(crate) struct Record<'a> {
    pub(crate) number: u64,
    pub(crate) head: Head,
    pub(crate) table: &'a [u8],
    pub(crate) trace: &'a [u8],
}

// Room for a trace of one cycle more than a file may hold, and for a table whose total is right modulo 65,536 only.
pub(crate) const ROOM: usize = 66_000;

pub(crate) fn u64_at(bytes: &[u8], at: usize) -> u64 {
    u64::from_le_bytes(bytes_at(bytes, at))
}

impl From<[u8; Head::BYTES]> for Head {
    fn from(bytes: [u8; Head::BYTES]) -> Self {
        Head {
            kind: bytes[0],
            property: u32_at(&bytes, 1),
            table: u32_at(&bytes, 5),
            trace: u32_at(&bytes, 9),
            expected: u64_at(&bytes, 13),
        }
    }
}

// The input, which ends where it cannot be read.
#[derive(Drop)]
struct Ending<S>(S);

impl<S: Read> Read for Ending<S> {
    fn read(&mut self, space: &mut [u8]) -> io::Result<usize> {
        Ok(self.0.read(space).unwrap_or(0))
    }
}

// How many bytes of the input are at the start of the space: as many as it has, unless the input ends before.
pub(crate) fn read(rt: &impl Input, space: &mut [u8]) -> usize
    ensures { result ≤ length space.new }
{
    read_full(&mut Ending(rt.reader()), space).unwrap_or(0)
}

// The head of the next record, unless the input ends where a record can.
fn next_head(rt: &impl Input) -> Result<Option<Head>, Cut> {
    let mut bytes = [0u8; Head::BYTES];
    match read(rt, &mut bytes) {
        0 => Ok(None),
        Head::BYTES => Ok(Some(Head::from(bytes))),
        _ => Err(Cut {}),
    }
}

// Reads so many bytes, if there is room and the input does not end before.
fn read_part<'a>(rt: &impl Input, size: u32, space: &'a mut [u8]) -> Result<&'a [u8], Cut> {
    let part = space.get_mut(..size as usize).ok_or(Cut {})?;
    if read(rt, part) == part.len() {
        Ok(part)
    } else {
        Err(Cut {})
    }
}

// The next record, of this number, with its bytes in these rooms, unless the input ends where a record can.
pub(crate) fn next_record<'a>(
    rt: &impl Input,
    number: u64,
    table: &'a mut [u8],
    trace: &'a mut [u8],
) -> Result<Option<Record<'a>>, Cut> {
    let Some(head) = next_head(rt)? else {
        return Ok(None);
    };
    Ok(Some(Record {
        number,
        head,
        table: read_part(rt, head.table, table)?,
        trace: read_part(rt, head.trace, trace)?,
    }))
}

// The next number of 8 bytes; 0, which is no answer of a step, where the input ends before.
pub(crate) fn next_answer(rt: &impl Input) -> u64 {
    let mut bytes = [0u8; 8];
    read(rt, &mut bytes);
    u64_at(&bytes, 0)
}
