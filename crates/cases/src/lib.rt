// Document 01's eleven cases, and an example of demand 3. The crate has definitions and laws and no code.
#![tactic(auto)]
