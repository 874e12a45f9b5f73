// Runs the table check on the places where implementations go wrong, and on the limits of document 01.

#![tactic(auto)]

use std::ops::Add;
use std::{fmt, io};
use table::{Counts, Refusal};
use tables::Base;

mod cases;
mod tables;

// Cases, and how many went wrong.
#[derive(Clone, Copy, Default)]
pub(crate) struct Tally {
    cases: u16,
    wrong: u16,
}

impl Add for Tally {
    type Output = Tally;

    fn add(self, other: Tally) -> Tally {
        Tally {
            cases: self.cases.saturating_add(other.cases),
            wrong: self.wrong.saturating_add(other.wrong),
        }
    }
}

impl fmt::Display for Tally {
    fn fmt<W: fmt::Write>(&self, f: &mut fmt::Formatter<W>) -> fmt::Result {
        write!(f, "{} cases, {} wrong", self.cases, self.wrong)
    }
}

impl Tally {
    // One case more: the first bytes of a table that is changed are answered with this refusal, or with none.
    fn case(&mut self, length: usize, base: Base, refusal: Option<Refusal>, changes: &[u8]) {
        let mut room = [0u8; 4096];
        base.put(&mut room);
        put_changes(&mut room, changes);
        let right = room
            .get(..length)
            .is_some_and(|table| is_right(table, refusal));
        self.cases = self.cases.saturating_add(1);
        self.wrong = self.wrong.saturating_add(u16::from(!right));
    }

    // As many bytes of the changed table are refused so. The numbers are those of document 01, and not taken from the crate.
    pub(crate) fn refuses_first(
        &mut self,
        length: usize,
        base: Base,
        number: u8,
        place: u32,
        changes: &[u8],
    ) {
        self.case(length, base, Some(Refusal { number, place }), changes);
    }

    pub(crate) fn refuses(&mut self, base: Base, number: u8, place: u32, changes: &[u8]) {
        self.refuses_first(base.length(), base, number, place, changes);
    }

    // Each change by itself has the document's table refused so.
    pub(crate) fn each(&mut self, number: u8, place: u32, changes: &[u8]) {
        for change in changes.chunks_exact(2) {
            self.refuses(Base::Document, number, place, change);
        }
    }

    pub(crate) fn accepts_first(&mut self, length: usize, base: Base, changes: &[u8]) {
        self.case(length, base, None, changes);
    }

    pub(crate) fn accepts(&mut self, base: Base, changes: &[u8]) {
        self.accepts_first(base.length(), base, changes);
    }
}

// Puts a value at an offset, for each change.
fn put_changes(table: &mut [u8], changes: &[u8]) {
    for change in changes.chunks_exact(2) {
        if let [at, value] = change {
            tables::put(&mut *table, usize::from(*at), *value);
        }
    }
}

// The counts are those of the header.
fn counts_right(table: &[u8], counts: Counts) -> bool {
    if let [_, _, signals, _, nodes, _, properties, ..] = table {
        counts.signals == *signals && counts.nodes == *nodes && counts.properties == *properties
    } else {
        false
    }
}

fn is_right(table: &[u8], refusal: Option<Refusal>) -> bool {
    match table::check(table) {
        Ok(counts) => refusal.is_none() && counts_right(table, counts),
        Err(given) => refusal == Some(given),
    }
}

fn tell(rt: &impl Print, name: &str, tally: Tally) -> io::Result<Tally> {
    println!(rt; "{name}: {tally}")?;
    Ok(tally)
}

fn main(rt: HostRuntime) -> io::Result<()> {
    let header = cases::lengths() + cases::headers() + cases::limits();
    let header = tell(&rt, "header, 1 to 4", header)?;
    let rows = cases::kinds() + cases::fields() + cases::classes();
    let rows = tell(&rt, "rows, 5 to 8", rows)?;
    let roots = tell(&rt, "roots, 9", cases::roots())?;
    let uses = tell(&rt, "uses, 10", cases::uses() + cases::sequence_uses())?;
    let cells = tell(&rt, "cells, 11", cases::cells() + cases::many_cells())?;
    tell(&rt, "table", header + rows + roots + uses + cells)?;
    Ok(())
}
