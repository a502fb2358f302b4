//! The register file.
#![tactic(auto)]

mod file;
mod laws;

pub use file::File;
pub use laws::cells_land_by_themselves;
