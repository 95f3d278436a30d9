//! Words and laws that several crates share: results of steps that may fail, steps repeated over a text,
//! and the text that characters spell. There is no code here: what the crate holds stands in `specs/` and `proofs/`.
#![tactic(auto)]
