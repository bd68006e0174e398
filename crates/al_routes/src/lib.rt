//! What the method and the target of a request ask, or the first fault of form.
#![tactic(auto)]

mod asking;
mod kinds;
mod laws;
mod paths;
mod queries;
mod request;
mod target;
mod values;

pub use laws::one_answer;
pub use paths::Routes;
pub use request::{FormFault, Request};
