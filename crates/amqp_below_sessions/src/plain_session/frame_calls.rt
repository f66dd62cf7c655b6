//! What a plain session does with the frames that come.

ghost use Rattle.amqp_txn_types.specs.declared.performatives.Frame.TheVariants as frames;
ghost use Rattle.amqp_below_layer.specs.Told.{Takes};
ghost use Rattle.amqp_below_sessions.specs.PlainFrames.{PlainTakes};
ghost use Rattle.amqp_below_sessions.specs.PlainSessions.{told_of};

use crate::link_frames::{attach_link, count_transfer, detach_link, pass_flow};
use crate::plain_session::{PlainSession, either};
use crate::state_moves::require_mapped;
use amqp_below_layer::SessionInnerError;
use amqp_txn_types::{Attach, Detach, Disposition, Flow, Frames, Payload, Transfer, refuse};

impl PlainSession {
    /// An attach: the link that waits for its name gets the peer's handle.
    pub(super) fn hear_attach(&mut self, attach: Attach) -> Result<Frames, SessionInnerError>
        ensures told { Takes (told_of self.old) (told_of self.new) (frames.Attach attach) result }
        ensures gives { PlainTakes self.old self.new (frames.Attach attach) result }
    {
        match attach_link(self.state, &mut self.links, attach) {
            Ok(()) => Ok(Frames::new(self.alloc)),
            Err(error) => refuse(&mut self.refusals, error),
        }
    }

    /// A flow: the link's part of it is kept, and the peer's windows are noted.
    pub(super) fn hear_flow(&mut self, flow: Flow) -> Result<Frames, SessionInnerError>
        ensures told { Takes (told_of self.old) (told_of self.new) (frames.Flow flow) result }
        ensures gives { PlainTakes self.old self.new (frames.Flow flow) result }
    {
        let mut numbers = self.numbers;
        numbers.note_flow(&flow);
        match pass_flow(self.state, &mut self.links, flow) {
            Ok(()) => {
                self.numbers = numbers;
                Ok(Frames::new(self.alloc))
            }
            Err(error) => {
                self.numbers = either(error.is_unattached(), numbers, self.numbers);
                refuse(&mut self.refusals, error)
            }
        }
    }

    /// A transfer: it is counted, and dropped with its payload.
    pub(super) fn hear_transfer(
        &mut self,
        transfer: Transfer,
        payload: Payload,
    ) -> Result<Frames, SessionInnerError>
        ensures told { Takes (told_of self.old) (told_of self.new)
            (frames.Transfer transfer payload) result }
        ensures gives { PlainTakes self.old self.new (frames.Transfer transfer payload) result }
    {
        let handle = transfer.handle;
        drop(transfer);
        drop(payload);
        match count_transfer(self.state, &mut self.links, handle) {
            Ok(()) => {
                self.numbers.count_incoming();
                self.transfers_since_window = self.transfers_since_window.saturating_add(1);
                Ok(Frames::new(self.alloc))
            }
            Err(error) => refuse(&mut self.refusals, error),
        }
    }

    /// A disposition, which is dropped.
    pub(super) fn hear_disposition(
        &mut self,
        disposition: Disposition,
    ) -> Result<Frames, SessionInnerError>
        ensures told { Takes (told_of self.old) (told_of self.new)
            (frames.Disposition disposition) result }
        ensures gives { PlainTakes self.old self.new (frames.Disposition disposition) result }
    {
        drop(disposition);
        match require_mapped(self.state) {
            Ok(()) => Ok(Frames::new(self.alloc)),
            Err(error) => refuse(&mut self.refusals, error),
        }
    }

    /// A detach, which is given back where the link was open.
    pub(super) fn hear_detach(&mut self, detach: Detach) -> Result<Frames, SessionInnerError>
        ensures told { Takes (told_of self.old) (told_of self.new) (frames.Detach detach) result }
        ensures gives { PlainTakes self.old self.new (frames.Detach detach) result }
    {
        match detach_link(self.alloc, self.state, &mut self.links, detach) {
            Ok(given) => Ok(given),
            Err(error) => refuse(&mut self.refusals, error),
        }
    }
}
