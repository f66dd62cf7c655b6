//! Two parties that agree.

ghost use Rattle.std.specs.Prelude.{◌≡◌, ◌<◌, ◌≤◌};
ghost use Rattle.amqp_txn_types.specs.declared.small.SessionState.TheVariants as session_states;
ghost use Rattle.txn_parties.specs.Agreement.{Agreement};
ghost use Rattle.txn_parties.specs.Exchange.{heard_at, made, record_of};
ghost use Rattle.txn_world_wires.specs.Putting.{IsDeclare};
ghost use Rattle.txn_world.specs.Beginning.{MayBegin};
ghost use Rattle.txn_world.specs.Happening.{EventSays, code_of_stop, handed_of_stop};

use crate::arriving::arrive;
use crate::beginning::attach_links;
use crate::errors::WorldError;
use amqp_below_ids::IdSource;
use amqp_below_layer::LayerBelow;
use amqp_resource_record::{Entries, StopCode};
use amqp_resource_session::TxnSession;
use amqp_txn_types::NoMemory;
use std::alloc::Global;
use std::marker::Model;
use txn_parties::{Event, Happened, Heard};
use txn_world_wires::Parties;

/// Two parties: controllers, and a resource over a layer below, with the two wires between them.
///
/// A contract sees the wires with the record of the resource, the layer below and the id source.
#[derive(Drop)]
pub struct World<S: LayerBelow, G: IdSource> {
    session: TxnSession<S>,
    ids: G,
    parties: Parties,
}

impl<S: LayerBelow, G: IdSource> Model for World<S, G> {
    ghost use Rattle.txn_world.specs.Happening.{TwoParties};
    ghost use Rattle.txn_world_wires.specs.Parties.{Sound};
    ghost use Rattle.txn_world.specs.Serving.{Serves, two_parties};

    ghost Value = { TwoParties S G };

    ghost view = { λ w. two_parties S.sure w.session w.ids w.parties };

    ghost invariant = { λ w. Sound S.sure w.parties × Serves w.session w.parties };
}

impl<S: LayerBelow, G: IdSource + Drop> World<S, G> {
    /// Two parties over the layer below, whatever it has taken before: so many controllers, each
    /// with a control link. The links are attached as steps of the session, with the names `c0`,
    /// `c1` and so on, on handles from 0.
    ///
    /// # Requires
    ///
    /// That the layer below is mapped, and that there are 1 to 8 controllers.
    ///
    /// # Errors
    ///
    /// `AttachRefused`: the layer below refused an attach, which its count of refusals shows.
    /// `NoMemory`: out of memory. Both give the layer back.
    pub fn new(
        alloc: Global,
        below: S,
        controllers: u32,
        ids: G,
    ) -> Result<World<S, G>, (S, WorldError)>
        requires mapped { (S.told below).fixed.state ≡ session_states.Mapped }
        requires some { 1 ≤ controllers }
        requires few { controllers ≤ 8 }
        ensures { MayBegin S.told S.sure G.next G.start below ids controllers result }
    {
        let mut ids = ids;
        let mut session = TxnSession::new(alloc, below);
        match attach_links(alloc, &mut session, &mut ids, controllers) {
            Ok(entries) => match Parties::new(alloc, entries) {
                Ok(parties) => Ok(World {
                    session,
                    ids,
                    parties,
                }),
                Err(NoMemory) => {
                    drop(ids);
                    Err((session.into_below(), WorldError::NoMemory))
                }
            },
            Err(error) => {
                drop(ids);
                Err((session.into_below(), error))
            }
        }
    }
}

impl<S: LayerBelow, G: IdSource> World<S, G> {
    /// One thing that may happen, and what it did.
    ///
    /// # Requires
    ///
    /// For a declare, that fewer than 4,294,967,295 transactions were made.
    ///
    /// # Errors
    ///
    /// Out of memory; nothing has changed then.
    pub fn event(&mut self, event: &Event) -> Result<Happened, NoMemory>
        requires { IsDeclare event.now → made self.old.sides < 4294967295 }
        ensures { EventSays S.told G.next G.start self.old self.new event.now result }
    {
        match event {
            Event::Arrive => arrive(&mut self.session, &mut self.ids, &mut self.parties),
            event => self.parties.happen(event),
        }
    }

    /// What the transaction with this number has heard; `None` exactly where there is none.
    pub fn heard(&self, txn: u32) -> Option<Heard>
        ensures heard { result ≡ heard_at self.now.sides txn }
        ensures agree { Agreement self.now.sides }
    {
        self.parties.heard(txn)
    }

    /// The record of the resource: the attaches, and then the items that arrived, in order.
    pub fn entries(&self) -> &Entries
        ensures { result.now ≡ record_of self.now.sides }
    {
        &self.parties.entries
    }

    /// The layer below.
    pub fn below(&self) -> &S
        ensures { result.now ≡ self.now.below }
    {
        self.session.below()
    }

    /// Why the session stopped, if it did.
    pub fn stop(&self) -> Option<StopCode>
        ensures { result ≡ code_of_stop self.now.sides.stop }
    {
        match self.parties.stop {
            None => None,
            Some(halt) => Some(halt.code),
        }
    }

    /// How many frames of the item at which the session stopped the layer below took; 0 where it
    /// hasn't stopped.
    pub fn handed(&self) -> usize
        ensures { result ≡ handed_of_stop self.now.sides.stop }
    {
        match self.parties.stop {
            None => 0,
            Some(halt) => halt.handed,
        }
    }
}

impl<S: LayerBelow, G: IdSource + Drop> World<S, G> {
    /// The record of the resource and the layer below, taken out.
    pub fn into_parts(self) -> (Entries, S)
        ensures entries { result.0 ≡ record_of self.sides }
        ensures below { result.1 ≡ self.below }
    {
        drop(self.ids);
        (self.parties.into_entries(), self.session.into_below())
    }
}
