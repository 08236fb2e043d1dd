// The shared estimate of the prediction estimators, SP 800-90B 6.3.7 to 6.3.10 (Rust: prediction.rs).
#![tactic(auto)]

pub mod estimate;
