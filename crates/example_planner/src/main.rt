//! Reads lines about the steps of a plan, and answers each.
//!
//!     book TIME NAME        ok
//!     at TIME               TIME NAME of each step that is due at this time | none
//!     at HOURS MINUTES      the same, for this time of the day
//!     next TIME             TIME NAME of the first step that is due at this time or later | none
//!     between FROM BEFORE   TIME NAME of each step that is due from a time on and before another one | none
//!     cancel TIME           TIME NAME of the first step that is due at this time, which is removed | none
//!     start TIME            TIME NAME of each step that is due by then, which is removed | none
//!     last                  TIME NAME | none
//!     count                 how many steps there are
//!
//! A time is a number, of minutes where the hours matter. Steps that are due at the same time come in the order in which they
//! were booked. Any other line is answered by `bad line`, also one that is not UTF-8.
#![tactic(auto)]

ghost use Rattle.std.specs.Prelude.{◌≡◌, ◌==◌, true, OnOk};
ghost use Rattle.std.specs.List.{list_any};
ghost use Rattle.iddqd_sorted.specs.Items.{items};

mod book;
mod files;
mod hosts;
mod planner;
mod queue;
mod terms;

use crate::planner::{Plan, Step, at, between, book, cancel, next_due, start_next};
use iddqd_sorted::Iter;
use std::alloc::AllocError;
use std::io;
use std::io::BufRead;

/// What a line asks for, with the name that is in the line.
enum Command<'l> {
    Book(u64, &'l str),
    At(u64),
    Next(u64),
    Between(u64, u64),
    Cancel(u64),
    Start(u64),
    Last,
    Count,
}

/// Returns what the words of a line ask for, if they ask for anything.
fn parse<'l>(words: &[&'l str]) -> Option<Command<'l>> {
    Some(match words {
        ["book", time, name] => Command::Book(time.parse().ok()?, name),
        ["at", time] => Command::At(time.parse().ok()?),
        ["at", hours, minutes] => {
            let (hours, minutes): (u8, u8) = (hours.parse().ok()?, minutes.parse().ok()?);
            Command::At(60 * hours as u64 + minutes as u64)
        }
        ["next", time] => Command::Next(time.parse().ok()?),
        ["between", from, before] => Command::Between(from.parse().ok()?, before.parse().ok()?),
        ["cancel", time] => Command::Cancel(time.parse().ok()?),
        ["start", time] => Command::Start(time.parse().ok()?),
        ["last"] => Command::Last,
        ["count"] => Command::Count,
        _ => return None,
    })
}

/// Prints the step that was found, if there is one.
fn show(rt: &impl Print, found: Option<&Step>) -> io::Result<()> {
    match found {
        Some(step) => println!(rt; "{} {}", step.due, step.name),
        None => rt.println("none"),
    }
}

/// Prints steps.
fn show_all(rt: &impl Print, steps: Iter<'_, Step>) -> io::Result<()> {
    let mut shown = false;
    for step in steps {
        show(rt, Some(step))?;
        shown = true;
    }
    if shown { Ok(()) } else { rt.println("none") }
}

/// Books a step under the number of its line. If there is no memory for it, the error says so, and the program ends. So a step
/// is due at that time once the line is answered.
fn answer_book(
    rt: &(impl Print + AllocGlobal),
    steps: &mut Plan,
    number: u64,
    due: u64,
    name: &str,
) -> io::Result<()>
    ensures there { OnOk result (list_any (λ s. s.due == due) (items steps.new) ≡ true) }
{
    let name = name.to_string(rt.alloc())?;
    match book(steps, Step { number, due, name }) {
        Ok(()) => rt.println("ok"),
        Err(_) => Err(AllocError.into()),
    }
}

/// Cancels the first step that is due at this time, and prints it.
fn answer_cancel(rt: &impl Print, steps: &mut Plan, time: u64) -> io::Result<()> {
    let Some(step) = at(steps, time).next() else {
        return rt.println("none");
    };
    let number = step.number;
    let gone = cancel(steps, number);
    show(rt, gone.as_ref())
}

/// Starts the steps that are due by now, the earliest first.
fn answer_start(rt: &impl Print, steps: &mut Plan, now: u64) -> io::Result<()> {
    let mut started = false;
    for _ in 0..steps.len() {
        let Some(step) = start_next(steps, now) else {
            break;
        };
        started = true;
        show(rt, Some(&step))?;
    }
    if !started {
        rt.println("none")?;
    }
    Ok(())
}

/// Carries out the command of a line with this number, and prints the answer.
fn answer(
    rt: &(impl Print + AllocGlobal),
    steps: &mut Plan,
    number: u64,
    command: Command,
) -> io::Result<()> {
    match command {
        Command::Book(time, name) => answer_book(rt, steps, number, time, name),
        Command::At(time) => show_all(rt, at(steps, time)),
        Command::Next(time) => show(rt, next_due(steps, time)),
        Command::Between(from, before) => show_all(rt, between(steps, from, before)),
        Command::Cancel(time) => answer_cancel(rt, steps, time),
        Command::Start(now) => answer_start(rt, steps, now),
        Command::Last => show(rt, steps.last()),
        Command::Count => println!(rt; "{}", steps.len()),
    }
}

/// Carries out the command of a line with this number, and prints the answer.
fn answer_line(
    rt: &(impl Print + AllocGlobal),
    steps: &mut Plan,
    number: u64,
    line: &[u8],
) -> io::Result<()> {
    let Ok(line) = str::from_utf8(line) else {
        return rt.println("bad line");
    };
    let words: Vec<&str> = line.split_whitespace().collect(rt.alloc())?;
    match parse(words.as_slice()) {
        Some(command) => answer(rt, steps, number, command),
        None => rt.println("bad line"),
    }
}

/// Answers each line of the input.
fn answer_lines(rt: &(impl Print + Input + AllocGlobal), steps: &mut Plan) -> io::Result<()> {
    let mut number: u64 = 0;
    for line in rt.reader().split(rt.alloc(), b'\n') {
        number = number.saturating_add(1);
        answer_line(rt, steps, number, line?.as_slice())?;
    }
    Ok(())
}

fn main(rt: HostRuntime) -> io::Result<()> {
    let mut steps = Plan::new(rt.alloc());
    answer_lines(&rt, &mut steps)
}
