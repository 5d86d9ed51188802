//! The calls that are listed: on standard input, or in the table.
use std::io;

/// A line: a call and, after ` -> `, what it has to answer.
#[derive(Clone, Copy)]
pub struct Line<'a> {
    pub call: &'a str,
    pub wanted: Option<&'a str>,
}

impl<'a> Line<'a> {
    pub fn new(line: &'a str) -> Line<'a> {
        match line.trim().split_once(" -> ") {
            Some((call, wanted)) => Line {
                call,
                wanted: Some(wanted),
            },
            None => Line {
                call: line.trim(),
                wanted: None,
            },
        }
    }
}

/// The remaining lines, and how many calls answered as their lines say, or otherwise.
#[derive(Drop)]
pub struct Listed<'a> {
    // `None`: the lines of standard input
    rest: Option<&'a str>,
    pub right: u64,
    pub wrong: u64,
}

impl<'a> Listed<'a> {
    pub fn on_input() -> Listed<'a> {
        Listed {
            rest: None,
            right: 0,
            wrong: 0,
        }
    }

    pub fn in_table(text: &'a str) -> Listed<'a> {
        Listed {
            rest: Some(text),
            right: 0,
            wrong: 0,
        }
    }

    /// Puts the next line there, an empty one after the last. Whether there was one.
    pub fn next_line(&mut self, rt: &HostRuntime, line: &mut String) -> io::Result<bool> {
        line.clear();
        let Some(rest) = self.rest else {
            return Ok(rt.read_line(line)? > 0);
        };
        let (first, after) = rest.split_once('\n').unwrap_or((rest, ""));
        line.push_str(first)?;
        self.rest = Some(after);
        Ok(!rest.is_empty())
    }

    /// Counts an answer to a line that says what it has to be, and prints a wrong one.
    pub fn note(&mut self, rt: &HostRuntime, line: Line<'_>, answer: &str) -> io::Result<()> {
        let Some(wanted) = line.wanted else {
            return Ok(());
        };
        if answer == wanted {
            self.right = self.right.saturating_add(1);
            return Ok(());
        }
        self.wrong = self.wrong.saturating_add(1);
        println!(rt; "instead of {wanted}")
    }
}
