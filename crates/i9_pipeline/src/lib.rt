//! The pipeline: records issue, and what they leave lands when they are done.
#![tactic(auto)]

mod laws;
mod pipeline;
mod shading;

pub use laws::{
    a_pipeline_keeps_to_its_run, a_record_hides, flushed_memory_is_raw, memory_shows,
    nothing_is_hidden,
};
pub use pipeline::Pipeline;
pub use shading::hide;
