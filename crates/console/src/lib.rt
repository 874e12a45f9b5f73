// The lines on standard output. Each function that says something answers whether all of it was written; what is written after a write
// that failed would be the middle of a text, so nothing is.

#![tactic(auto)]

ghost use Rattle.std.specs.Prelude.{◌≤◌, ◌≡◌};
ghost use Rattle.little.specs.Bytes.{u16_at};
ghost use Rattle.table.specs.Check.{checked_reply, table_reply};
ghost use Rattle.standing.specs.Standing.{Stands};
ghost use Rattle.standing.specs.Adding.{StandsBelow, with_answer};

use monitor::Verdict;
use standing::{Standing, with_answer};
use std::io;
use table::{Counts, Refusal};

// What `judged` answers: whether all lines were written, and how the properties stand.
#[derive(Clone, Copy)]
pub struct Told {
    pub written: io::Result<()>,
    pub standing: Standing,
}

// What `checked` answers: whether all lines were written, and the check's answer.
#[derive(Clone, Copy)]
pub struct Examined {
    pub written: io::Result<()>,
    pub answer: Result<Counts, Refusal>,
}

// Lines of several values are functions: to make a type of each, only to display it, is no plainer.

// A name, a number and the end of the line.
fn say_count(rt: &impl Print, name: &str, n: u32) -> io::Result<()> {
    println!(rt; "{name} {n}")
}

fn say_property(
    rt: &impl Print,
    property: u32,
    answer: Result<Verdict, Refusal>,
) -> io::Result<()> {
    match answer {
        Err(refusal) => println!(rt; "{refusal}"),
        Ok(verdict) => println!(rt; "{property} {verdict}"),
    }
}

fn say_counts(rt: &impl Print, counts: Counts) -> io::Result<()> {
    println!(rt; "accepted")?;
    say_count(rt, "signals", u32::from(counts.signals))?;
    say_count(rt, "rows", u32::from(counts.nodes))?;
    say_count(rt, "properties", u32::from(counts.properties))
}

fn say_checked(rt: &impl Print, answer: Result<Counts, Refusal>) -> io::Result<()> {
    match answer {
        Ok(counts) => say_counts(rt, counts),
        Err(refusal) => println!(rt; "{refusal}"),
    }
}

// A property more, told where all before it was written.
fn with_property(
    rt: &impl Print,
    before: Told,
    property: u32,
    answer: Result<Verdict, Refusal>,
) -> Told
    ensures { result.standing ≡ with_answer before.standing answer }
{
    Told {
        written: before
            .written
            .and_then(|()| say_property(rt, property, answer)),
        standing: with_answer(before.standing, answer),
    }
}

// The properties from the second on, where it is told of the first how it stands.
fn others(rt: &impl Print, table: &[u8], trace: &[u8], first: Told) -> Told
    ensures { 1 ≤ u16_at table.now 6 → StandsBelow table.now trace.now 1 first.standing
        → StandsBelow table.now trace.now (u16_at table.now 6) result.standing }
{
    let properties = u32::from(little::u16_at(table, 6));
    let mut told = first;
    for property in 1..properties {
        told = with_property(rt, told, property, trace::judge(table, trace, property));
    }
    told
}

// A refusal of the table or of the trace is one of each property, so the first tells: one line then; else the cycles, and a line for each property.
pub fn judged(rt: &impl Print, table: &[u8], trace: &[u8]) -> Told
    ensures { Stands table.now trace.now result.standing }
{
    let first = trace::judge(table, trace, 0);
    let mut told = Told {
        written: Ok(()),
        standing: Standing::Settled,
    };
    let Ok(_) = first else {
        return with_property(rt, told, 0, first);
    };
    told.written = say_count(rt, "cycles", trace::samples::cycles_of(trace));
    others(rt, table, trace, with_property(rt, told, 0, first))
}

// An accepted table's counts, or the refusal.
pub fn checked(rt: &impl Print, table: &[u8]) -> Examined
    ensures { checked_reply result.answer ≡ table_reply table.now }
{
    let answer = table::check(table);
    let written = say_checked(rt, answer);
    Examined { written, answer }
}
