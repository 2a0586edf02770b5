// The calls for the chassis controller, which is written in C: the crate fiswalend_c exports them, and include/fiswalend.h has
// them for C and says what the caller must see to.
#![tactic(auto)]

mod add_call;
mod buffers;
mod check_call;
mod claim_call;
mod convert_call;
mod found;
mod trial_check_call;
mod trial_walk_call;
mod version_call;
mod walk_call;
mod walked;
mod wind_back_call;

pub use add_call::fpb_history_add;
pub use check_call::fpb_check;
pub use claim_call::fpb_claim;
pub use convert_call::fpb_convert;
pub use trial_check_call::fpb_trial_check;
pub use trial_walk_call::fpb_trial_walk;
pub use version_call::fpb_history_version;
pub use walk_call::fpb_walk;
pub use wind_back_call::fpb_history_wind_back;
