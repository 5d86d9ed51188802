//! Laws of the definitions.

ghost use Rattle.serde_json.specs.Data.{Data};
ghost use Rattle.elasticlunr_job_format.specs.Job.{IsNoJob};
ghost use Rattle.elasticlunr_job_format.specs.JobFaults.{HasFault};
ghost use Rattle.elasticlunr_job_format.specs.declared.fault.Fault.{Fault};

/// A value with a fault is no job.
pub fn a_fault_is_no_job()
    ensures { (d : Data) (fault : Fault) → HasFault d fault → IsNoJob d }
{}
