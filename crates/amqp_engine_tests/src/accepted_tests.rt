//! What no clause says of accepted sessions: that the calls succeed where there is memory, also
//! those of a transactional session over a listener, by an engine and without one.

mod accepting_tests;
mod builder_tests;
mod call_tests;
mod driven_tests;
mod engine_calls;
mod link_tests;
mod stop_tests;
mod test_values;
