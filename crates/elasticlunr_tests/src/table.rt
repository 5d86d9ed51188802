//! The rows, one after the other.
use crate::listed::Listed;
use crate::{content_rows, index_rows, rows, stage_rows};
use std::io;

/// How many calls the table has, at least.
const CALLS: u64 = 1_442;

/// Makes the calls that standard input lists. Where that is empty, makes those of the table: each
/// has to answer what its line says.
#[test]
fn calls(rt: HostRuntime) -> io::Result<()> {
    let mut listed = Listed::on_input();
    if make_all(&rt, &mut listed)? > 0 {
        return Ok(());
    }
    let mut right: u64 = 0;
    for text in [content_rows::ROWS, stage_rows::ROWS, index_rows::ROWS] {
        let mut table = Listed::in_table(text);
        make_all(&rt, &mut table)?;
        assert!(rt; table.wrong == 0);
        right = right.saturating_add(table.right);
    }
    assert!(rt; right >= CALLS);
    Ok(())
}

/// Makes the calls of all rows. How many rows there are.
fn make_all(rt: &HostRuntime, listed: &mut Listed<'_>) -> io::Result<u64> {
    let mut line = String::new(rt.alloc());
    for count in 0..u64::MAX {
        if !listed.next_line(rt, &mut line)? {
            return Ok(count);
        }
        rows::row(rt, listed, line.as_str().trim())?;
    }
    Ok(u64::MAX)
}
