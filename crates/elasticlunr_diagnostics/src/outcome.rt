//! How a run over an input ends.
ghost use Rattle.std.specs.Prelude.{◌≡◌};
ghost use Rattle.elasticlunr_diagnostics.specs.Status.{status_of};

/// How a run ends.
#[derive(Clone, Copy)]
pub enum Outcome {
    /// It did what was asked for.
    Done,
    /// The input or the index was refused.
    Refused,
    /// A file or a device failed, memory ran out, or lines were too many.
    Failed,
    /// The command line is wrong.
    Misused,
}

/// The status that the process ends with.
pub fn status(ended: Outcome) -> u8
    ensures { result ≡ status_of ended }
{
    match ended {
        Outcome::Done => 0,
        Outcome::Refused => 2,
        Outcome::Failed => 1,
        Outcome::Misused => 64,
    }
}
