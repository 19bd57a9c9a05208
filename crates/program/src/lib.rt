// The program of document 01 as functions on bytes: the frame of its input, its values, and the text of its answer. Assumes nothing.
#![tactic(auto)]

pub mod answer;
pub mod input;
pub mod output;
