//! What a session does with a frame or a control link that comes by its calls.

ghost use Rattle.std.specs.Prelude.{◌≡◌, ◌≤◌, None, Some};
ghost use Rattle.amqp_txn_types.specs.Frames.{txn};
ghost use Rattle.amqp_below_layer.specs.Told.{Opens};
ghost use Rattle.amqp_resource_session.specs.Hearing.{Hears, HearsAttach, HearsControl, HearsPlain, HearsUnder, OpensControl};
ghost use Rattle.amqp_resource_session.specs.Opening.{frames_of};
ghost use Rattle.amqp_txn_types.specs.Counts.{counted};
ghost use Rattle.amqp_resource_session.specs.Session.{FitsTogether, below_of, is_live_on, own_told, refusals_of, stop_of, told_of, vetoes_of};

use crate::frame_steps::{KeptWork, LinkOpening, control_attach_of, keep_under, open_control};
use crate::session::TxnSession;
use amqp_below_layer::{LayerBelow, SessionInnerError};
use amqp_resource_record::{StopCode, code_of_fault};
use amqp_txn_types::{Attach, Frame, Frames, TransactionId, refuse, txn_of};

impl<S: LayerBelow> TxnSession<S> {
    /// A frame under an id is kept, where the id is live; else it stops the session.
    fn hear_under(&mut self, frame: &Frame, id: TransactionId) -> Result<Frames, SessionInnerError>
        requires runs { stop_of self.old ≡ None }
        requires under { txn frame.now ≡ Some id }
        ensures hears { HearsUnder self.old self.new frame.now id (is_live_on self.old id) result }
        ensures fits { FitsTogether self.old → FitsTogether self.new }
        ensures counts { refusals_of self.new ≡ counted result (refusals_of self.old) }
        ensures later { refusals_of self.old ≤ refusals_of self.new }
        ensures vetoes { vetoes_of self.new ≡ vetoes_of self.old }
        ensures below { below_of self.new ≡ below_of self.old }
    {
        let alloc = self.allocator();
        match keep_under(&mut self.held.work, alloc, frame, id) {
            KeptWork::Answered(given) => Ok(given),
            KeptWork::NoMemory => refuse(&mut self.refusals, SessionInnerError::NoMemory),
            KeptWork::NotLive => {
                self.stop = Some(StopCode::UnknownTxnId);
                refuse(&mut self.refusals, SessionInnerError::UnknownTxnId)
            }
        }
    }

    /// A plain frame goes below; a refusal there stops the session.
    fn hear_plain(&mut self, frame: Frame) -> Result<Frames, SessionInnerError>
        requires { stop_of self.old ≡ None }
        ensures hears { HearsPlain S.told S.incoming_gives self.old self.new frame result }
        ensures fits { FitsTogether self.old → FitsTogether self.new }
        ensures counts { refusals_of self.new ≡ counted result (refusals_of self.old) }
        ensures later { refusals_of self.old ≤ refusals_of self.new }
        ensures vetoes { vetoes_of self.new ≡ vetoes_of self.old }
    {
        match self.below.on_incoming_frame(frame) {
            Ok(given) => Ok(given),
            Err(error) => {
                self.stop = Some(code_of_fault(&error));
                refuse(&mut self.refusals, error)
            }
        }
    }

    /// The attach of a control link opens it, where the layer below takes it.
    fn open_link(&mut self, attach: &Attach) -> Result<(u64, Frames), SessionInnerError>
        ensures opens { OpensControl S.told S.opening_gives self.old self.new attach.now result }
        ensures fits { FitsTogether self.old → FitsTogether self.new }
        ensures counts { refusals_of self.new ≡ counted result (refusals_of self.old) }
        ensures later { refusals_of self.old ≤ refusals_of self.new }
        ensures vetoes { vetoes_of self.new ≡ vetoes_of self.old }
        ensures fixed { (told_of S.told self.new).fixed ≡ (told_of S.told self.old).fixed }
    {
        if self.stop.is_some() || self.held.opened == u64::MAX {
            return refuse(&mut self.refusals, SessionInnerError::IllegalState);
        }
        let alloc = self.allocator();
        match open_control(&mut self.held, &mut self.below, alloc, attach) {
            LinkOpening::Opened { link, frames } => Ok((link, frames)),
            LinkOpening::Refused(error) => refuse(&mut self.refusals, error),
            LinkOpening::NoMemory => { refuse(&mut self.refusals, SessionInnerError::NoMemory) }
        }
    }

    /// An attach to a coordinator opens a control link, whose frames are given back.
    fn hear_attach(&mut self, attach: &Attach) -> Result<Frames, SessionInnerError>
        ensures hears { HearsAttach S.told S.opening_gives self.old self.new attach.now result }
        ensures fits { FitsTogether self.old → FitsTogether self.new }
        ensures counts { refusals_of self.new ≡ counted result (refusals_of self.old) }
        ensures later { refusals_of self.old ≤ refusals_of self.new }
        ensures vetoes { vetoes_of self.new ≡ vetoes_of self.old }
        ensures fixed { (told_of S.told self.new).fixed ≡ (told_of S.told self.old).fixed }
    {
        match self.open_link(attach) {
            Ok((_link, given)) => Ok(given),
            Err(error) => Err(error),
        }
    }

    /// A frame by its kind.
    pub(crate) fn hear(&mut self, frame: Frame) -> Result<Frames, SessionInnerError>
        ensures hears { Hears S.told S.incoming_gives S.opening_gives self.old self.new frame
            result }
        ensures fits { FitsTogether self.old → FitsTogether self.new }
        ensures counts { refusals_of self.new ≡ counted result (refusals_of self.old) }
        ensures later { refusals_of self.old ≤ refusals_of self.new }
        ensures vetoes { vetoes_of self.new ≡ vetoes_of self.old }
        ensures fixed { (told_of S.told self.new).fixed ≡ (told_of S.told self.old).fixed }
    {
        if self.stop.is_some() {
            drop(frame);
            return refuse(&mut self.refusals, SessionInnerError::IllegalState);
        }
        if let Some(id) = txn_of(&frame) {
            let answer = self.hear_under(&frame, id);
            drop(frame);
            return answer;
        }
        if let Some(attach) = control_attach_of(&frame) {
            let answer = self.hear_attach(attach);
            drop(frame);
            return answer;
        }
        self.hear_plain(frame)
    }

    /// The attach of a control link.
    pub(crate) fn open(&mut self, attach: &Attach) -> Result<(u64, Frames), SessionInnerError>
        ensures told { Opens (own_told S.told self.old) (own_told S.told self.new) attach.now
            (frames_of result) }
        ensures gives { HearsControl S.told S.opening_gives self.old self.new attach.now result }
    {
        self.open_link(attach)
    }
}
