// The C interface. specs/ states what a host may rely on.
#![tactic(auto)]

pub mod exports;
