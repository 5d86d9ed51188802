//! Lines of a reader, one by one.
ghost use Rattle.std.specs.Prelude.{◌≡◌, false, if◌then◌else◌, IfOk, OnOk, OnErr};
ghost use Rattle.std.specs.Io.KnownBytes.{Consumes};
ghost use Rattle.elasticlunr_job_format.specs.LineRead.{AreAll, HasNoFeed, fed};

use std::io::{self, BufRead, ErrorKind};

/// Reads the next line over what stands there, and says whether a line feed was after it, which is
/// read as well. After the last line there is none, and that may be empty. After an error the line
/// is what was read of it.
pub fn read_line<R: BufRead>(reader: &mut R, line: &mut Vec<u8>) -> io::Result<bool>
    ensures line { OnOk result (HasNoFeed line.new.items) }
    ensures taken { IfOk result (λ more. Consumes (R.remaining reader.old) (R.remaining reader.new)
        (if more then fed line.new.items else line.new.items)) }
    ensures last { IfOk result (λ more. more ≡ false
        → AreAll (R.remaining reader.old) line.new.items) }
    ensures none_lost { OnErr result (Consumes (R.remaining reader.old) (R.remaining reader.new)
        line.new.items) }
{
    line.clear();
    'parts: for _ in 0..u64::MAX {
        let count = reader.read_until(b'\n', line)?;
        if count == 0 {
            return Ok(false);
        }
        if line[line.len() - 1] == b'\n' {
            line.truncate(line.len() - 1);
            return Ok(true);
        }
    }
    Err(io::Error::from(ErrorKind::Other))
}
