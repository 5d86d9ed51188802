//! The value that bytes are read as.

ghost use Rattle.std.specs.Prelude.{◌≡◌, Some, None, IfOk, IfErr};
ghost use Rattle.serde_json.specs.View.{view};
ghost use Rattle.elasticlunr_job_format.specs.Reading.{reading};
ghost use Rattle.elasticlunr_job_format.specs.JobError.{StopsOnlyBy};
ghost use Rattle.elasticlunr_job_format.specs.declared.outcome.Refusal.TheVariants.{NotJson};

use crate::outcome::{JobError, Refusal};
use serde_json::Value;
use std::alloc::Global;

/// The JSON value that the bytes are. It reads no deeper than 127 steps.
pub fn read_json(alloc: Global, bytes: &[u8]) -> Result<Value, JobError>
    ensures ok { IfOk result (λ value. reading bytes.now ≡ Some (view value)) }
    ensures err { IfErr result (StopsOnlyBy NotJson (reading bytes.now ≡ None)) }
{
    match Value::from_slice(alloc, bytes) {
        Ok(value) => Ok(value),
        Err(e) if e.is_memory() => Err(JobError::Memory),
        Err(_) => Err(JobError::Refused(Refusal::NotJson)),
    }
}
