// Compares answers with a file of cases on standard input: records as the second program writes them, and what it says of
// them there. The file `stdin` beside this folder is what `second fixed` writes; the sixteen small runs of document 01 come first.

#![tactic(auto)]

use compared::Compared;
use files::room;
use reading::{Cut, ROOM, next_record};
use std::io;

mod compared;
mod lent;
mod reading;
mod states;
mod steps;
mod tally;

// Nothing says that the input ends, so the records are counted, up to a number that no run uses up.
fn compare(rt: &(impl Input + Print), compared: &mut Compared) -> Result<(), Cut> {
    let mut table = room::<ROOM>();
    let mut trace = room::<ROOM>();
    for number in 1..=u64::MAX {
        let Some(record) = next_record(rt, number, &mut table, &mut trace)? else {
            break;
        };
        compared.add(rt, record)?;
    }
    Ok(())
}

fn main(rt: HostRuntime) -> io::Result<()> {
    let mut compared = Compared::new();
    if compare(&rt, &mut compared).is_err() {
        let records = compared.records;
        // Where it cannot be said, the counts can neither, and that ends the program.
        let _ = println!(rt; "no whole record after record {records}");
    }
    println!(rt; "{compared}")
}
