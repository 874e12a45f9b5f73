// Of a refusal the cause that a person can act on: one line, the first that applies.
use crate::notes::note;
use little::u16_at;
use standing::Standing;
use table::{Cause, Refusal};
use trace::Header;

// The version of tables and of traces, and the bytes of a table's header.
const VERSION: u16 = 1;

const TABLE_HEADER: u16 = 16;

// Whether the bytes begin as a trace does, and as a table does.
fn is_trace(bytes: &[u8]) -> bool {
    let header = Header::new(bytes);
    bytes.len() >= Header::SIZE as usize
        && header.version == VERSION
        && header.offset == Header::SIZE
}

fn is_table(bytes: &[u8]) -> bool {
    let roots = u32::from(TABLE_HEADER) + 4 * u32::from(u16_at(bytes, 4));
    bytes.len() >= usize::from(TABLE_HEADER)
        && u16_at(bytes, 0) == VERSION
        && u16_at(bytes, 8) == TABLE_HEADER
        && u32::from(u16_at(bytes, 10)) == roots
}

pub(crate) fn note_standing(table: &[u8], trace: &[u8], standing: Standing) {
    if let Standing::Refused(refusal) = standing {
        if refusal.number <= Cause::CellsTooMany.number() {
            note_table(table, refusal);
        } else {
            note_trace(trace, u16_at(table, 2), refusal);
        }
    }
}

pub(crate) fn note_table(table: &[u8], refusal: Refusal) {
    let Refusal { number, place } = refusal;
    if number <= Cause::TableLength.number() && is_trace(table) {
        note("table trace");
    } else if number == Cause::TableShort.number() && table.is_empty() {
        note("table empty");
    } else {
        note(format_args!("table {number} {place}"));
    }
}

// Refusal 13, whose place is the cycle, and the causes of 15, for a table of so many signals.
fn note_trace(trace: &[u8], signals: u16, refusal: Refusal) {
    let Refusal { number, place } = refusal;
    if number == Cause::SignalUndeclared.number() {
        note(format_args!("trace {number} {place}"));
    } else if trace.is_empty() {
        note("trace empty");
    } else if is_table(trace) {
        note("trace table");
    } else {
        note_file(trace.len(), signals, Header::new(trace));
    }
}

// A file of so many bytes, which begins with this header as far as they go.
fn note_file(length: usize, signals: u16, header: Header) {
    let size = Header::SIZE as usize;
    let Header {
        version,
        cycles,
        offset,
        ..
    } = header;
    if version != VERSION || (length >= size && offset != Header::SIZE) {
        note("trace none");
    } else if length < size {
        note(format_args!("trace cut {size} {length}"));
    } else if cycles > Header::CYCLES {
        note(format_args!("trace cycles {cycles}"));
    } else if header.signals != signals {
        note(format_args!("trace signals {} {signals}", header.signals));
    } else {
        note_length(size + 4 * cycles as usize, length);
    }
}

// So many bytes are needed, and so many were read.
fn note_length(needed: usize, has: usize) {
    if has < needed {
        note(format_args!("trace cut {needed} {has}"));
    } else {
        note(format_args!("trace long {needed}"));
    }
}
