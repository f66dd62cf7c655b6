//! What no clause says of acceptors: that their calls succeed where there is memory, and printed
//! texts.

mod accepting_tests;
mod builder_tests;
mod dynamic_tests;
mod mode_tests;
mod test_values;
mod text_tests;
