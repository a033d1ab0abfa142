// Lines of test cases: their contents, the inputs that they set, what is printed and compared. Crate `test_cases` says what a file of them is.
#![tactic(auto)]

pub mod compare;
pub mod contents;
pub mod given;
pub mod report;
pub mod texts;
