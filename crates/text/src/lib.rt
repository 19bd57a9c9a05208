// The text of the program's output, document 01, 'The program': each function writes one text into a lent buffer, after what stands in it
// already. What a text is, is said by a definition of crate alpha; how a write changes the buffer, by specs/Wrote.antt. Assumes nothing.
#![tactic(auto)]

pub mod line;
pub mod number;
pub mod outcome;
pub mod report;
pub mod writer;
