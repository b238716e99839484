//! Triggers that fire by themselves: each watches the samples that its client is given, and answers
//! for each of them whether it fires.
#![tactic(auto)]

mod auto;
mod counted;
mod laterals;
mod ranked;
mod rising;
mod sampled;
mod value_counts;

pub use auto::Auto;
pub use sampled::Sampled;
