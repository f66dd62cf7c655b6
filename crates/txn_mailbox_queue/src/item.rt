//! The items, and what a pass knows.

use std::collections::LinkedList;

/// What a sender puts: its number, 0 or 1, and a place in its list.
#[derive(Clone, Copy)]
pub struct Item {
    /// The sender.
    pub sender: u8,
    /// The place in the sender's list, counted from 0.
    pub place: usize,
}

/// What a pass may do and knows. Contracts alone speak of it: no value of it is made.
pub struct View {
    /// Whether it may put items of the first sender.
    pub first: bool,
    /// Whether it may put items of the second sender.
    pub second: bool,
    /// Whether it may take items.
    pub takes: bool,
    /// How many items of the first sender were put, where it may put them.
    pub first_put: u64,
    /// How many items of the second sender were put, where it may put them.
    pub second_put: u64,
    /// The items that were taken, in order, where it may take them.
    pub taken: LinkedList<Item>,
}
