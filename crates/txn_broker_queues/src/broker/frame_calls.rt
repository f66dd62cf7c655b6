//! What a broker does with the frames that come.

ghost use Rattle.amqp_txn_types.specs.declared.performatives.Frame.TheVariants as frames;
ghost use Rattle.amqp_below_layer.specs.Told as layer;
ghost use Rattle.txn_broker_queues.specs.Taking.{Takes, told_by};

use crate::broker::{Broker, attach_link};
use crate::link::address_of;
use amqp_below_layer::SessionInnerError;
use amqp_txn_types::{Attach, Detach, Disposition, Flow, Frame, Frames, Payload, Transfer, refuse};

impl Broker {
    /// An attach: the link gets the queue of its address, and is answered.
    pub(super) fn hear_attach(&mut self, attach: Attach) -> Result<Frames, SessionInnerError>
        ensures told { layer.Takes (told_by self.old) (told_by self.new)
            (frames.Attach attach) result }
        ensures gives { Takes self.old self.new (frames.Attach attach) result }
    {
        let (given, kept) = match self.answer_attach(&attach) {
            Ok(answers) => answers,
            Err(error) => {
                drop(attach);
                return refuse(&mut self.refusals, error);
            }
        };
        let Some(address) = address_of(&attach) else {
            unreachable!()
        };
        let (handle, peer) = (attach.handle, attach.role);
        match attach_link(&mut self.links, &mut self.queues, handle, peer, address) {
            Ok(()) => {
                self.journal.push_reserved((Frame::Attach(attach), kept));
                Ok(given)
            }
            Err(_) => {
                drop(attach);
                refuse(&mut self.refusals, SessionInnerError::NoMemory)
            }
        }
    }

    /// A flow: a receiver's credit brings the first messages of its queue.
    pub(super) fn hear_flow(&mut self, flow: Flow) -> Result<Frames, SessionInnerError>
        ensures told { layer.Takes (told_by self.old) (told_by self.new) (frames.Flow flow) result }
        ensures gives { Takes self.old self.new (frames.Flow flow) result }
    {
        match self.answer_flow(&flow) {
            Ok((given, kept)) => {
                self.journal.push_reserved((Frame::Flow(flow), kept));
                Ok(given)
            }
            Err(error) => refuse(&mut self.refusals, error),
        }
    }

    /// A transfer: its message goes to the end of the queue.
    pub(super) fn hear_transfer(
        &mut self,
        transfer: Transfer,
        payload: Payload,
    ) -> Result<Frames, SessionInnerError>
        ensures told { layer.Takes (told_by self.old) (told_by self.new)
            (frames.Transfer transfer payload) result }
        ensures gives { Takes self.old self.new (frames.Transfer transfer payload) result }
    {
        match self.admit(&transfer) {
            Ok(queue) => {
                self.queues.push(self.journal.len(), queue);
                let frame = Frame::Transfer { transfer, payload };
                self.journal.push_reserved((frame, Frames::new(self.alloc)));
                Ok(Frames::new(self.alloc))
            }
            Err(error) => {
                drop(transfer);
                drop(payload);
                refuse(&mut self.refusals, error)
            }
        }
    }

    /// A disposition: the messages that it covers leave their queues.
    pub(super) fn hear_disposition(
        &mut self,
        disposition: Disposition,
    ) -> Result<Frames, SessionInnerError>
        ensures told { layer.Takes (told_by self.old) (told_by self.new)
            (frames.Disposition disposition) result }
        ensures gives { Takes self.old self.new (frames.Disposition disposition) result }
    {
        if self.journal.reserve(1).is_err() {
            return refuse(&mut self.refusals, SessionInnerError::NoMemory);
        }
        self.queues.remove_covered(&disposition);
        let frame = Frame::Disposition(disposition);
        self.journal.push_reserved((frame, Frames::new(self.alloc)));
        Ok(Frames::new(self.alloc))
    }

    /// A detach, which is answered with a detach: the queue stays.
    pub(super) fn hear_detach(&mut self, detach: Detach) -> Result<Frames, SessionInnerError>
        ensures told { layer.Takes (told_by self.old) (told_by self.new)
            (frames.Detach detach) result }
        ensures gives { Takes self.old self.new (frames.Detach detach) result }
    {
        match self.answer_detach(&detach) {
            Ok((given, kept)) => {
                let _link = self.links.remove(&detach.handle);
                self.journal.push_reserved((Frame::Detach(detach), kept));
                Ok(given)
            }
            Err(error) => refuse(&mut self.refusals, error),
        }
    }
}
