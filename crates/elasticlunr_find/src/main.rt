//! Finds documents in a printed index. Standard input has a line with a JSON array of a field, a
//! query and `any` or `all`, and after it the text of the index; the references that are found go
//! to standard output, one a line. It ends with status 0 where it searched, 2 where it refused and
//! printed why, and 1 where a device failed or memory ran out.
#![tactic(auto)]

use elasticlunr_search::answer::{Refusal, answer, reason};
use std::io;
use std::process::ExitCode;

fn main(rt: HostRuntime) -> io::Result<ExitCode> {
    let alloc = rt.alloc();
    let input = io::read_to_string(alloc, rt.stdin())?;
    match answer(alloc, input.as_str()) {
        Ok(lines) => {
            print!(rt; "{lines}")?;
            Ok(ExitCode::from(0u8))
        }
        Err(Refusal::Memory) => Ok(ExitCode::from(1u8)),
        Err(refusal) => {
            let reason = reason(refusal);
            println!(rt; "refused: {reason}")?;
            Ok(ExitCode::from(2u8))
        }
    }
}
