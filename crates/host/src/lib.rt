// For a host in C: numbers and byte slices in, one number out. The exports themselves are those of `host_c`.
// An answer becomes a number by functions: a `From` of one crate's type for another's may stand in one of these two alone.

#![tactic(auto)]

ghost use Rattle.std.specs.Prelude.{◌≡◌};
ghost use Rattle.table.specs.Check.{checked_reply, table_reply};
ghost use Rattle.monitor.specs.Follows.{verdict_of, answer_reply};
ghost use Rattle.host.specs.Answers.{refusal_number, check_number, verdict_number, answer_number, JudgedNumber};

use monitor::Verdict;
use table::{Counts, Refusal};

// The parts of an answer's number, as hosts in C take it apart.
#[derive(Clone, Copy, PartialEq, Eq)]
pub struct Packed {}

impl Packed {
    // A refusal's number counts this much each: a place is below it.
    pub const PLACES: u64 = 65_536;

    // 1 broken, 2 settled, 3 pending count this much each: a cycle, and a refusal, is below it.
    pub const LOW: u64 = 4_294_967_296;
}

// 65,536 times the number plus the place.
fn refusal_number(refusal: Refusal) -> u64
    ensures { result ≡ refusal_number refusal.number refusal.place }
{
    Packed::PLACES * u64::from(refusal.number) + u64::from(refusal.place)
}

// 0 for an accepted table; else the refusal.
fn table_answer(checked: Result<Counts, Refusal>) -> u64
    ensures { result ≡ check_number (checked_reply checked) }
{
    match checked {
        Ok(_) => 0,
        Err(refusal) => refusal_number(refusal),
    }
}

// The check's answer.
pub fn check(table: &[u8]) -> u64
    ensures { result ≡ check_number (table_reply table.now) }
{
    table_answer(table::check(table))
}

// 2^32 times (1 broken, 2 settled, 3 pending) plus the cycle.
fn verdict_number(verdict: Verdict) -> u64
    ensures { result ≡ verdict_number (verdict_of verdict) }
{
    match verdict {
        Verdict::Broken(cycle) => Packed::LOW + u64::from(cycle),
        Verdict::Settled(cycle) => 2 * Packed::LOW + u64::from(cycle),
        Verdict::Pending(cycles) => 3 * Packed::LOW + u64::from(cycles),
    }
}

// Any answer, also one that no function here gives: a made-up refusal of place 65,536 or more shares its number with another.
pub fn answer_number(answer: Result<Verdict, Refusal>) -> u64
    ensures { result ≡ answer_number (answer_reply answer) }
{
    match answer {
        Err(refusal) => refusal_number(refusal),
        Ok(verdict) => verdict_number(verdict),
    }
}

// The judge's answer.
pub fn judge(table: &[u8], trace: &[u8], property: u32) -> u64
    ensures { JudgedNumber table.now trace.now property result }
{
    answer_number(trace::judge(table, trace, property))
}
