//! What no clause says: which calls are made on the control link, and that the calls succeed where
//! there is memory.

mod acquiring;
mod ending;
mod fixtures;
mod owned;
mod receiving;
