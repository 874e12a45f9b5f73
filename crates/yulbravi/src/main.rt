// The program below the command `yulbravi`: `judge TABLE TRACE` or `check TABLE`, where a file named `-` is standard input.
// It writes the lines of `console` on standard output. It ends with 0 itself: the notes say the exit status, and what else the command has to tell.

#![tactic(auto)]

mod causes;
mod notes;
mod unread;

ghost use Rattle.std.specs.Prelude.{length, IfOk};
ghost use Rattle.io.specs.Counts.{IsPrefixLen};

use console::{checked, judged};
use files::{read_file, table_room, trace_room};
use notes::{NOT_RUN, note_status, note_unread};
use standing::{Standing, status};
use std::env::FillError;
use std::rt::{Env, Files};
use table::{Counts, Refusal};
use unread::Unread;

// The places of the arguments, and how many there are with the program's own name.
const VERB: usize = 1;

const TABLE: usize = 2;

const TRACE: usize = 3;

const OF_CHECK: usize = 3;

const OF_JUDGE: usize = 4;

// Whether there is an argument in this place, of whatever length.
fn is_given<R: Env>(rt: &R, place: usize) -> bool {
    let mut byte = [0u8; 1];
    !matches!(rt.arg(place, &mut byte), Err(FillError::NotPresent))
}

// How many arguments there are with the program's own name, as far as any verb takes them and one more.
fn arg_count<R: Env>(rt: &R) -> usize {
    (0..=OF_JUDGE)
        .take_while(|place| is_given(rt, *place))
        .count()
}

fn is_verb<R: Env>(rt: &R, verb: &[u8]) -> bool {
    let mut word = io::buffer();
    match rt.arg(VERB, &mut word) {
        Ok(length) => &word[..length] == verb,
        Err(_) => false,
    }
}

// The file that an argument names; a name that does not fit is an error too.
fn argument_file<'a, R: Env + Files + Input>(
    rt: &R,
    place: usize,
    room: &'a mut [u8],
) -> Result<&'a [u8], Unread>
    ensures { IfOk result (λ read. IsPrefixLen (length read.now) room.old) }
{
    let mut name = io::buffer();
    let length = rt.arg(place, &mut name)?;
    Ok(read_file(rt, &name[..length], room)?)
}

// A file that could not be read is judged as an empty one, and then it is noted why.
fn judge_files(rt: &impl Print, table: Result<&[u8], Unread>, trace: Result<&[u8], Unread>) {
    let told = judged(rt, table.unwrap_or(b""), trace.unwrap_or(b""));
    if let (Ok(table), Ok(trace)) = (table, trace) {
        note_status(told.written, status(told.standing));
        causes::note_standing(table, trace, told.standing);
    } else {
        note_status(told.written, NOT_RUN);
        note_unread("table", table);
        note_unread("trace", trace);
    }
}

fn judge<R: Env + Files + Input + Print>(rt: &R) {
    let mut table = table_room();
    let mut trace = trace_room();
    let table = argument_file(rt, TABLE, &mut table);
    let trace = argument_file(rt, TRACE, &mut trace);
    judge_files(rt, table, trace);
}

// 0 for an accepted table; a refused one is refused whoever asks.
fn check_status(answer: Result<Counts, Refusal>) -> u32 {
    match answer {
        Ok(_) => 0,
        Err(refusal) => status(Standing::Refused(refusal)),
    }
}

fn check_file(rt: &impl Print, file: Result<&[u8], Unread>) {
    let examined = checked(rt, file.unwrap_or(b""));
    let Ok(table) = file else {
        note_status(examined.written, NOT_RUN);
        note_unread("table", file);
        return;
    };
    note_status(examined.written, check_status(examined.answer));
    if let Err(refusal) = examined.answer {
        causes::note_table(table, refusal);
    }
}

fn check<R: Env + Files + Input + Print>(rt: &R) {
    let mut table = table_room();
    check_file(rt, argument_file(rt, TABLE, &mut table));
}

fn main(rt: HostRuntime) {
    match arg_count(&rt) {
        OF_JUDGE if is_verb(&rt, b"judge") => judge(&rt),
        OF_CHECK if is_verb(&rt, b"check") => check(&rt),
        _ => {
            let _ = eprintln!(rt; "yulbravi: run bin/yulbravi, which tells how");
        }
    }
}
