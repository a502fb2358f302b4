//! What instructions give: results over registers, branches and effective addresses.
#![tactic(auto)]

mod addresses;
mod bits;
mod branches;
mod compare;
mod done;
mod laws;
mod light;
mod results;
mod signed;

pub use addresses::address;
pub use branches::{Jump, branch};
pub use done::Done;
pub use i9_model::Arith;
pub use laws::results_by_name;
pub use light::{controls_by, word_by};
pub use results::{compute, has_result};
