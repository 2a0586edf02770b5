// The library's calls: any bytes, any numbers, and one answer for each, with a file for every call and one for the trials.
#![tactic(auto)]

mod asking;
mod checking;
mod claiming;
mod converting;
mod refusals;
mod trying;
mod walking;

pub use checking::{check, check_finding};
pub use claiming::claim;
pub use converting::convert;
pub use refusals::refusal_finding;
pub use trying::{trial_check, trial_part, trial_walk};
pub use walking::walk;
