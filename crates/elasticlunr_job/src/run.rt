//! From a source to a sink.

ghost use Rattle.std.specs.Prelude.{◌≡◌, ◌⊎◌, ℕ, List, true, false, Ok, IfOk, OnOk, IsErrOf};
ghost use Rattle.std.specs.Io.KnownBytes.{Appends, Keeps};
ghost use Rattle.elasticlunr_job.specs.Run.{IsAnswerTo};
ghost use Rattle.elasticlunr_device.specs.Device.{AppendsBeginning};
ghost use Rattle.elasticlunr_job.specs.Status.{status_of};
ghost use Rattle.elasticlunr_job.specs.declared.outcome.Outcome.{Outcome};

use crate::answer::answer;
use crate::outcome::Outcome;
use elasticlunr_device::device::{Sink, Source, read_to_end, write_all};
use elasticlunr_device::outcome::RunError;
use std::alloc::Global;

/// Reads a job to the end of the reader, and writes its index, or why it was refused, and a line
/// feed. Nothing is written before the whole text is there. The reader and the writer must not have
/// failed yet.
pub fn run<S: Source, K: Sink>(
    alloc: Global,
    reader: &mut S,
    writer: &mut K,
) -> Result<Outcome, RunError>
    requires reader { S.has_failed reader.old ≡ false }
    requires writer { K.has_failed writer.old ≡ false }

    // The answer to all that the reader had was written.
    ensures ok { IfOk result (λ outcome. (text : List ℕ)
        × IsAnswerTo (S.left reader.old) (S.left reader.new) outcome text
        × Appends (K.taken writer.old) (K.taken writer.new) text) }
    ensures ok_unmarked { OnOk result ((S.has_failed reader.new ≡ false)
        × (K.has_failed writer.new ≡ false)) }

    // Where a write failed, a beginning of the answer to all that the reader had was written.
    ensures writer_fault { K.has_failed writer.new ≡ true → (S.has_failed reader.new ≡ false)
        × ((outcome : Outcome) × (text : List ℕ)
        × IsAnswerTo (S.left reader.old) (S.left reader.new) outcome text
        × AppendsBeginning (K.taken writer.old) (K.taken writer.new) text) }

    // Where a read failed, nothing was written.
    ensures reader_fault { S.has_failed reader.new ≡ true
        → Keeps (K.taken writer.old) (K.taken writer.new) }
    ensures device { IsErrOf result RunError.Device
        → (S.has_failed reader.new ≡ true) ⊎ (K.has_failed writer.new ≡ true) }

    // Memory ran out before anything was written.
    ensures memory { IsErrOf result RunError.Memory
        → Keeps (K.taken writer.old) (K.taken writer.new) }
    ensures memory_unmarked { IsErrOf result RunError.Memory
        → (S.has_failed reader.new ≡ false) × (K.has_failed writer.new ≡ false) }
{
    let bytes = read_to_end(alloc, reader)?;
    let Ok((outcome, text)) = answer(alloc, bytes) else {
        return Err(RunError::Memory);
    };
    match write_all(writer, text.as_str().as_bytes()) {
        Ok(()) => Ok(outcome),
        Err(_) => Err(RunError::Device),
    }
}

/// The status that the process ends with: 0 where an index was printed, 2 where the job was
/// refused, 1 where a device failed or memory ran out.
pub fn status(ended: &Result<Outcome, RunError>) -> u8
    ensures { result ≡ status_of ended.now }
{
    match ended {
        Ok(Outcome::Printed) => 0,
        Ok(Outcome::Refused(_)) => 2,
        Err(_) => 1,
    }
}
