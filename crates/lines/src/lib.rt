// Lines of text that a test program reads and writes: words, the numbers and bytes that they stand for, text made of these,
// and the count of the lines that were right.
#![tactic(auto)]

pub mod compare;
pub mod input;
pub mod text;
pub mod words;
