//! What the server keeps, and one step of it.

ghost use Rattle.std.specs.Prelude.{ℕ, ◌≡◌, ◌<◌, ◌≤◌, ◌+◌, ◌-◌, ◌^◌, [], ◌∷◌, ◌++◌, List, None, length, unwrap_or, vec_capacity};
ghost use Rattle.amqp_resource_record.specs.declared.step.Step.{Step as TheStep};
ghost use Rattle.amqp_resource_record.specs.declared.stop.Stop.TheVariants as stops;
ghost use Rattle.amqp_resource_session.specs.declared.session.TxnSession.{TxnSession as TheSession};
ghost use Rattle.amqp_resource_session.specs.Ran.{stop_by};
ghost use Rattle.amqp_resource_session.specs.Session.{StandsFor, stop_of};
ghost use Rattle.amqp_resource_session.specs.Steps.{IsFirstStop};
ghost use Rattle.txn_mailbox_serving.specs.Serving.{SoFar};

use amqp_below_ids::IdSource;
use amqp_below_layer::LayerBelow;
use amqp_resource_record::{Entries, Entry, Step, StepError, Stop};
use amqp_resource_session::TxnSession;
use amqp_txn_types::Items;

/// Of each entry who sent its step: 0 the first sender, 1 the second, 2 the server itself.
pub type Marks = Items<u8>;

/// What was served.
#[derive(Drop)]
pub struct Served<S, G> {
    /// The session that served.
    pub session: TxnSession<S>,
    /// The source of its ids.
    pub ids: G,
    /// The steps that were answered, in the order in which they were made.
    pub entries: Entries,
    /// Of each entry who sent its step.
    pub marks: Marks,
    /// Why the serving stopped.
    pub stop: Stop,
}

/// What the server keeps.
#[derive(Drop)]
pub struct Server<S, G> {
    /// The session that serves.
    pub session: TxnSession<S>,
    /// The source of its ids.
    pub ids: G,
    /// The steps that were answered so far.
    pub entries: Vec<Entry>,
    /// Of each entry who sent its step.
    pub marks: Vec<u8>,
    /// Why the session stopped, once it did.
    pub stop: Option<Stop>,
}

/// The stop of a run, by the error of its last step.
fn stop_by(error: StepError) -> Stop
    requires { IsFirstStop error }
    ensures { result ≡ stop_by error }
{
    match error {
        StepError::Fault { error, handed: _ } => Stop::Fault(error),
        StepError::Ended(reason) => Stop::Ended(reason),
        StepError::NoMemory => Stop::NoMemory,
        StepError::Stopped(_) => unreachable!(),
    }
}

impl<S: LayerBelow, G: IdSource> Server<S, G> {
    /// Makes a step, and records it under the mark. After a stop the step is let go.
    ///
    /// # Requires
    ///
    /// While there is no stop the session runs and stands for the entries, and there is room for
    /// one more entry and mark.
    pub fn serve(&mut self, step: Step, mark: u8)
        requires stands { self.old.stop ≡ None → (stop_of self.old.session ≡ None)
            × StandsFor self.old.session self.old.entries.items }
        requires few { length self.old.entries.items < 2 ^ 64 - 1 }
        requires entries { length self.old.entries.items < vec_capacity self.old.entries }
        requires marks { length self.old.marks.items < vec_capacity self.old.marks }
        ensures stands { self.new.stop ≡ None → (stop_of self.new.session ≡ None)
            × StandsFor self.new.session self.new.entries.items }
        ensures entries { length self.new.entries.items ≤ length self.old.entries.items + 1 }
        ensures marks { length self.new.marks.items ≤ length self.old.marks.items + 1 }
        ensures entries_room { vec_capacity self.new.entries ≡ vec_capacity self.old.entries }
        ensures marks_room { vec_capacity self.new.marks ≡ vec_capacity self.old.marks }
        ensures served { (old : TheSession S) (source : G) (marks : List ℕ) (steps : List TheStep)
            → SoFar S.told S.sure G.next G.start old source marks steps self.old
            → SoFar S.told S.sure G.next G.start old source (marks ++ mark ∷ [])
            (steps ++ step ∷ []) self.new }
    {
        if self.stop.is_some() {
            drop(step);
            return;
        }
        match self.session.step(&step, &mut self.ids) {
            Ok((drawn, reply)) => {
                self.entries.push_reserved(Entry { step, drawn, reply });
                self.marks.push_reserved(mark);
            }
            Err(error) => {
                drop(step);
                drop(self.stop.replace(stop_by(error)));
            }
        }
    }

    /// What was served.
    pub fn into_served(self) -> Served<S, G>
        ensures { result ≡ record {
          session = self.session;
          ids = self.ids;
          entries = self.entries.items;
          marks = self.marks.items;
          stop = unwrap_or self.stop stops.Done;
        } }
    {
        Served {
            session: self.session,
            ids: self.ids,
            entries: Entries::from_vec(self.entries),
            marks: Marks::from_vec(self.marks),
            stop: self.stop.unwrap_or(Stop::Done),
        }
    }
}
