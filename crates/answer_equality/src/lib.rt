//! Whether two answers are the same: what trials compare the engine's answers with, which are the plain evaluator's.
#![tactic(auto)]

mod equality;

pub use equality::is_same_answer;
