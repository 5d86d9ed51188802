//! What calls are made on, how each call is made, and what is printed of it.
use crate::answer::Answer;
use crate::call::Call;
use crate::listed::{Line, Listed};
use serde_json::Value;
use std::io;

/// What the calls of a row are made on.
pub trait Subject {
    /// Makes the call. `tokens` are its texts, each in its own memory.
    fn answer(&mut self, call: &Call<'_>, tokens: Vec<String>) -> Answer;
}

/// Makes the calls of the lines that follow, up to an empty one.
pub fn run<S: Subject>(
    rt: &HostRuntime,
    listed: &mut Listed<'_>,
    subject: &mut S,
) -> io::Result<()> {
    let mut line = String::new(rt.alloc());
    for _ in 0..u64::MAX {
        listed.next_line(rt, &mut line)?;
        let line = Line::new(line.as_str());
        if line.call.is_empty() {
            break;
        }
        make(rt, listed, line, subject)?;
    }
    println!(rt; "")
}

fn make<S: Subject>(
    rt: &HostRuntime,
    listed: &mut Listed<'_>,
    line: Line<'_>,
    subject: &mut S,
) -> io::Result<()> {
    match Value::from_str(rt.alloc(), line.call) {
        Ok(value) => make_read(rt, listed, line, subject, &value),
        Err(_) => not_made(rt, listed, line),
    }
}

fn make_read<S: Subject>(
    rt: &HostRuntime,
    listed: &mut Listed<'_>,
    line: Line<'_>,
    subject: &mut S,
    value: &Value,
) -> io::Result<()> {
    match Call::read(rt.alloc(), value) {
        Some(call) => make_owned(rt, listed, line, subject, &call),
        None => not_made(rt, listed, line),
    }
}

fn make_owned<S: Subject>(
    rt: &HostRuntime,
    listed: &mut Listed<'_>,
    line: Line<'_>,
    subject: &mut S,
    call: &Call<'_>,
) -> io::Result<()> {
    match call.tokens() {
        Ok(tokens) => {
            let begun = rt.print(line.call);
            let answer = subject.answer(call, tokens);
            let ended = rt.print(" -> ");
            begun.and(ended).and(tell(rt, listed, line, answer))
        }
        Err(_) => not_made(rt, listed, line),
    }
}

/// Ends the line of a call with what it answered.
pub fn tell(
    rt: &HostRuntime,
    listed: &mut Listed<'_>,
    line: Line<'_>,
    answer: Answer,
) -> io::Result<()> {
    match answer.line(rt.alloc()) {
        Ok(told) => {
            rt.println(told.as_str())?;
            listed.note(rt, line, told.as_str())
        }
        Err(_) => rt.println("not told"),
    }
}

/// Tells that a line is no call, or that memory ran out to make it.
pub fn not_made(rt: &HostRuntime, listed: &mut Listed<'_>, line: Line<'_>) -> io::Result<()> {
    println!(rt; "{} -> not made", line.call)?;
    listed.note(rt, line, "not made")
}
