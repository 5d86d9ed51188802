//! Pipelines: the stages that a token passes one after the other.
mod function;
mod run;
mod stage;

pub use function::{FnWrapper, PipelineFn};
pub use run::Pipeline;
pub use stage::Stage;
