//! What a session of part 4 of the standard (OASIS AMQP 1.0) keeps for its live transactions: the
//! live ids with their frames, and the open control links with the ids that each declared.
//!
//! [`Held`] is this value, and each function here is one change of it: a link is opened or ends, an
//! id is declared or ends, with its frames dropped or taken out in order. None calls a layer below.
//! [`draw_unused`] draws the id that a declare answers.
//!
//! ```text
//! let mut held = Held::new(alloc);
//! held.links.reserve(1)?;
//! open_link(&mut held.links, alloc, 0);
//! make_room(&mut held, 0)?;
//! declare_on(&mut held, 0, id);
//! held.work.keep(&id, work)?;
//! drop_work(&mut held, id, Some(0), &mut looks);
//! held.work.compact(&mut looks);
//! ```
//!
//! Below stand the record, whose definitions look back over the entries of a session, and the log
//! of the work. The promise that this crate carries: what is kept has a view, which ids are live, on
//! which link and with which frames, and each change says what becomes of it; and lemmas that are
//! public say that the view after an entry is that of the record with this entry.
#![tactic(auto)]

mod draws;
mod held;

pub use draws::draw_unused;
pub use held::{
    Held, OpenLinks, declare_on, drop_work, end_link, has_link, is_declared_on, keeps_nothing,
    make_room, open_link, take_work,
};
