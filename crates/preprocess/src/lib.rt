// The source's preprocess.rs: the centroid slice, its unit vectors and the brightness list, with questions 1, 2 and 3.
#![tactic(auto)]

pub mod brightness_list;
pub mod unit_vectors;
