// The program `judge`: reads table.bin and trace.bin where it is run, and writes the verdict of each property.

#![tactic(auto)]

use console::judged;
use files::{read_file, table_room, trace_room};

// A file that can't be read counts as an empty one.
fn main(rt: HostRuntime) {
    let mut table = table_room();
    let mut trace = trace_room();
    let table = read_file(&rt, b"table.bin", &mut table).unwrap_or(b"");
    let trace = read_file(&rt, b"trace.bin", &mut trace).unwrap_or(b"");
    judged(&rt, table, trace);
}
