//! Looking for a value in a text of JSON. What is found is still to be checked.
ghost use Rattle.std.specs.Prelude.{◌<◌, length, OnOk};

use crate::member::Step;
use elasticlunr_job_format::lines::{is_blank, is_space};
use json::{Invalid, MAX_DEPTH, Reader, Scratch, Token};
use std::alloc::{AllocError, Global};

/// From where and up to where something stands.
#[derive(Clone, Copy)]
pub(crate) struct Span {
    pub start: usize,
    pub end: usize,
}

/// Where the value that a path leads to stands in a text, or in the line with this number, from 0,
/// of those that are not blank. Each step reads the value before it once.
pub(crate) fn seek(
    alloc: Global,
    text: &[u8],
    line: Option<usize>,
    path: &[Step<'_>],
) -> Result<Option<Span>, AllocError> {
    let mut scratch = Scratch::new(alloc);
    let mut span = span_of(text, line);
    for step in path {
        let Some(around) = text.get(span.start..span.end) else {
            return Ok(None);
        };
        let Ok(around) = std::str::from_utf8(around) else {
            return Ok(None);
        };
        let mut reader = Reader::new(around, &mut scratch)?;
        let Ok(Some(inner)) = seek_in(&mut reader, *step) else {
            return Ok(None);
        };
        span = Span {
            start: span.start.saturating_add(inner.start),
            end: span.start.saturating_add(inner.end),
        };
    }
    Ok(Some(trimmed(text, span)))
}

/// Where a step leads in the value that is read; under a key that comes twice, to the last member.
fn seek_in(reader: &mut Reader<'_>, step: Step<'_>) -> Result<Option<Span>, Invalid> {
    match (step, reader.next()) {
        (Step::Key(key), Some(Token::BeginObject)) => seek_key(reader, key),
        (Step::Item(number), Some(Token::BeginArray)) => {
            for _ in 0..number {
                reader.skip_value(MAX_DEPTH)?;
            }
            Ok(Some(next_span(reader)?))
        }
        _ => Ok(None),
    }
}

/// Where the last member under a key stands.
fn seek_key(reader: &mut Reader<'_>, key: &str) -> Result<Option<Span>, Invalid> {
    let mut found = None;
    while let Some(name) = reader.next_key()? {
        let span = next_span(reader)?;
        if name == key {
            found = Some(span);
        }
    }
    Ok(found)
}

/// Where the next value stands, and what is right before and after it; it is passed over.
fn next_span(reader: &mut Reader<'_>) -> Result<Span, Invalid>
    ensures { OnOk result (length reader.new < length reader.old) }
{
    let start = reader.offset();
    reader.skip_value(MAX_DEPTH)?;
    let end = reader.offset();
    Ok(Span { start, end })
}

/// Where the text stands, or the line with this number.
fn span_of(text: &[u8], line: Option<usize>) -> Span {
    let Some(number) = line else {
        return Span {
            start: 0,
            end: text.len(),
        };
    };
    let mut left = number;
    let mut start = 0_usize;
    for line in text.split(|byte| *byte == b'\n') {
        let end = start.saturating_add(line.len());
        if !is_blank(line) {
            if left == 0 {
                return Span { start, end };
            }
            left -= 1;
        }
        start = end.saturating_add(1);
    }
    Span { start, end: start }
}

/// Without the white space around it, and the comma after it.
fn trimmed(text: &[u8], span: Span) -> Span {
    let Span { mut start, mut end } = span;
    while start < end && text.get(start).is_some_and(|byte| is_between(*byte)) {
        start += 1;
    }
    while start < end && text.get(end - 1).is_some_and(|byte| is_between(*byte)) {
        end -= 1;
    }
    Span { start, end }
}

/// Whether a byte may stand between two values.
fn is_between(byte: u8) -> bool {
    byte == b',' || is_space(byte)
}
