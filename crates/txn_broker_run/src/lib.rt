//! Runs over a broker: a transactional queue seen.
//!
//! | item | is |
//! |---|---|
//! | [`drive_broker`], [`BrokerRun`] | steps driven through a session over a new broker |
//! | [`run_broker`], [`BrokerRan`] | the same for the words and the input of a program, with its report |
//! | [`end_broker`] | the same for a process |
//! | [`broker_report`] | the text of a run |
//!
//! ```text
//! let ran = run_broker(alloc, words, &mut input, &mut output);
//! // attached 0
//! // ok
//! // out attach q 1 receiver
//! // out flow 1 200
//! // stop done
//! // handed 0
//! // queue q 0
//! ```
//!
//! Below stand the session, the record, the broker, the lines of its messages and the edges of a
//! program. The promise that this crate carries: the queues of the broker are then those of the
//! record's plain frames and of its committed transactions run one after the other, each at its
//! commit; and after a refusal also of the first frames of the step that was refused, none of a
//! commit.
#![tactic(auto)]

mod driving;
mod ending;
mod queue_report;
mod runs;

pub use driving::{BrokerRun, drive_broker};
pub use ending::end_broker;
pub use queue_report::broker_report;
pub use runs::{BrokerRan, run_broker};
