//! The record of a session: its steps, what each was answered, and what they say of one another.
//!
//! A transactional session is asked to take [`Step`]s: frames of the peer, messages on control
//! links, ends. It answers each by a [`Reply`]. An [`Entry`] is a step with the ids that it drew
//! and its reply, and a record is the list of entries in order. What a session may answer and what
//! it hands to the layer below is a function of its record alone. The definitions in `specs/` say
//! which: they look back over the entries, and know no buffer, no map of live ids and no state.
//! Part 4 of the standard (OASIS AMQP 1.0, Transactions) names what they define.
//!
//! The life of one transaction, as a record shows it:
//!
//! ```text
//!                     declare on an open link, answered Declared(t)
//!                                        |
//!                                        v
//!      frame under t  +------->  live, with that link as its home
//!      is kept        +--------  and its frames since this declare
//!                                   |            |            |
//!             discharge of t on     |            |            |   its home ends, or is
//!             its home, to commit   |            |            |   closed by a payload that
//!                                   |---- veto ->|            |   is no control message
//!                                   v            v            v
//!                              committed    rolled back    aborted
//!                                   |            |            |
//!              its frames are handed|            | nothing    | nothing
//!              below in order, each |            | is handed  | is handed
//!              stripped of t        v            v            v
//!                                  not live, until t is declared anew
//! ```
//!
//! A commit with a frame may be vetoed by the layer below, before anything is handed: it is
//! rejected with `Rollback`, and t is rolled back.
//!
//! While t isn't live, a frame under it has no answer (the session stops), and a discharge of it on
//! an open link is rejected as unknown. A discharge on another link than its home is rejected too,
//! and leaves t as it was.
//!
//! The functions [`is_open`], [`is_live`], [`commits`], [`hands`], [`is_answer`], [`is_legal`] and
//! [`work`] compute these definitions by looking at every entry: a plain, slow program for small
//! records and for tests, whose contracts are the definitions themselves.
//!
//! ```
//! let entries = driven.entries.as_slice();
//! assert!(rt; is_legal(entries));
//! assert!(rt; is_open(entries, 0));
//! assert!(rt; !is_live(entries, &txn_id)); // it was committed
//! let handed = work(rt.alloc(), entries)?; // the frames of its posts, stripped
//! ```
//!
//! It stands on `amqp_txn_types` (frames, ids and strip), `amqp_txn_codec` (the message of a
//! payload), `amqp_below_layer` (what the layer below gives back) and `amqp_below_ids` (the ids that a step
//! draws). It carries the laws that a reader may want of every record:
//! [`a_record_hands_the_frames_at_its_origins`], [`a_live_id_has_one_open_home`],
//! [`a_commit_hands_the_frames_of_its_own_id`], [`others_leave_an_id_alone`] and
//! [`a_discharged_id_is_unknown_until_declared_anew`]. That a session answers by its record is
//! proved where sessions are.
#![tactic(auto)]

mod answers;
mod entry;
mod handed;
mod laws;
mod legal_records;
mod live_ids;
mod open_links;
mod reply;
mod step;
mod steps;
mod stop;

pub use answers::is_answer;
pub use entry::{Drawn16, Entries, Entry};
pub use handed::{commits, hands, is_coordinator_attach, is_plain, is_under};
pub use laws::{
    a_commit_hands_the_frames_of_its_own_id, a_discharged_id_is_unknown_until_declared_anew,
    a_live_id_has_one_open_home, a_record_hands_the_frames_at_its_origins,
    others_leave_an_id_alone,
};
pub use legal_records::{is_entry_after, is_legal, work};
pub use live_ids::{entries_since, home, is_held_on, is_live, since};
pub use open_links::{is_open, links_attached};
pub use reply::{RejectText, Reply};
pub use step::Step;
pub use steps::Steps;
pub use stop::{Driven, StepError, Stop, StopCode, code_of_end, code_of_fault};
