// The mathematics of the filter on covariances: their checks, and the squared distance.
#![tactic(auto)]

pub mod linalg;
