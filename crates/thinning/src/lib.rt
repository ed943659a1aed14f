// The kept list of a pass: the spots with no earlier kept spot too close, cut to the first pattern_checking_stars of them.
#![tactic(auto)]

pub mod kept_list;
pub mod separation;
