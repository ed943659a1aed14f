// The tolerance e, the limits of the settings and the passes, with questions 4 and 5. The struct SearchConfig is in search_feed.
#![tactic(auto)]

pub mod pass_limits;
pub mod passes;
pub mod settings_limits;
pub mod tolerance;
