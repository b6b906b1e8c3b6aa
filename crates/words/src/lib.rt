// The models of the 64 sets of a word, for the engine alone: it has asked the questions that these functions require.
#![tactic(auto)]

mod known;
mod plan;

pub use known::Words;
pub use plan::Plan;
