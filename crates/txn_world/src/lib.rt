//! Two parties that agree: controllers and a resource, run over two wires.
//!
//! A [`World`] has a session of the resource over a layer below, so many controllers with a control
//! link each, a forward wire and a back wire. An [`Event`] is one thing that may happen:
//!
//! | event | what it does |
//! |---|---|
//! | `Declare` | a controller puts the declare of a new transaction |
//! | `Post`, `Retire` | a transaction puts a frame under its id |
//! | `Commit`, `Rollback` | a transaction puts its discharge |
//! | `LinkEnd` | a controller puts the end of its link |
//! | `Plain` | a frame under no transaction is put |
//! | `Arrive` | the first item that waits is a step of the session; the answer to a control message is put back |
//! | `Return` | the first answer on its way back is heard by its transaction |
//! | `Cut` | nothing arrives or returns any more |
//!
//! ```text
//! let mut world = World::new(alloc, below, 1, ids)?;
//! world.event(&Event::Declare(0))?; // Happened::Put
//! world.event(&Event::Arrive)?; // Happened::Arrived
//! world.event(&Event::Return)?; // Happened::Heard
//! world.heard(0); // Some(Heard::Nothing): declared, and no discharge was answered
//! ```
//!
//! Below stand the definitions and laws of `txn_parties`, the session of `amqp_resource_session`,
//! and `txn_world_wires`, which has all of a world but the session. The promise that this crate
//! carries: each event is a turn of the two parties as `txn_parties` defines it, with the ids that
//! the source gives; the layer below takes exactly the frames that are drawn on; where memory runs
//! out nothing changes; and after every list of events the two sides agree.
#![tactic(auto)]

mod arriving;
mod beginning;
mod errors;
mod world;

pub use errors::WorldError;
pub use txn_parties::{Event, Happened, Heard};
pub use world::World;
