//! Transfers and dispositions with the standard's defaults, and what sets their other fields.

ghost use Rattle.std.specs.Prelude.{◌≡◌, Some};
ghost use Rattle.amqp_txn_types.specs.Plain.{plain_transfer, plain_disposition};

use crate::binary::Binary;
use crate::delivery::DeliveryState;
use crate::performatives::{Disposition, Transfer};
use crate::small::{Handle, ReceiverSettleMode, Role};

impl Transfer {
    /// The transfer that says nothing of its delivery, and is the last of it.
    ///
    /// Part 2 of the standard, section 2.7.5 (transfer).
    pub fn new(handle: Handle) -> Self
        ensures { result ≡ plain_transfer handle }
    {
        Transfer {
            handle,
            delivery_id: None,
            delivery_tag: None,
            message_format: None,
            settled: None,
            more: false,
            rcv_settle_mode: None,
            resume: false,
            aborted: false,
            batchable: false,
            state: None,
        }
    }

    /// Sets the delivery's number on the session.
    pub fn delivery_id(mut self, delivery_id: u32) -> Self
        ensures { result ≡ record self { delivery_id = Some delivery_id } }
    {
        self.delivery_id = Some(delivery_id);
        self
    }

    /// Sets the delivery's tag at its sender, at most 32 octets by the standard.
    pub fn delivery_tag(mut self, delivery_tag: Binary) -> Self
        ensures { result ≡ record self { delivery_tag = Some delivery_tag } }
    {
        self.delivery_tag = Some(delivery_tag);
        self
    }

    /// Sets the format of the message; 0 for that of part 3.
    pub fn message_format(mut self, message_format: u32) -> Self
        ensures { result ≡ record self { message_format = Some message_format } }
    {
        self.message_format = Some(message_format);
        self
    }

    /// Sets whether the delivery is settled at its sender.
    pub fn settled(mut self, settled: bool) -> Self
        ensures { result ≡ record self { settled = Some settled } }
    {
        self.settled = Some(settled);
        self
    }

    /// Sets whether more transfers of the delivery follow.
    pub fn more(mut self, more: bool) -> Self
        ensures { result ≡ record self { more = more } }
    {
        self.more = more;
        self
    }

    /// Sets when the receiver settles this delivery.
    pub fn rcv_settle_mode(mut self, rcv_settle_mode: ReceiverSettleMode) -> Self
        ensures { result ≡ record self { rcv_settle_mode = Some rcv_settle_mode } }
    {
        self.rcv_settle_mode = Some(rcv_settle_mode);
        self
    }

    /// Sets whether it resumes an earlier delivery.
    pub fn resume(mut self, resume: bool) -> Self
        ensures { result ≡ record self { resume = resume } }
    {
        self.resume = resume;
        self
    }

    /// Sets whether the delivery is given up.
    pub fn aborted(mut self, aborted: bool) -> Self
        ensures { result ≡ record self { aborted = aborted } }
    {
        self.aborted = aborted;
        self
    }

    /// Sets whether the answer may wait for others.
    pub fn batchable(mut self, batchable: bool) -> Self
        ensures { result ≡ record self { batchable = batchable } }
    {
        self.batchable = batchable;
        self
    }

    /// Sets the delivery's state at its sender.
    pub fn state(mut self, state: DeliveryState) -> Self
        ensures { result ≡ record self { state = Some state } }
    {
        drop(self.state.replace(state));
        self
    }
}

impl Disposition {
    /// The disposition of one delivery, unsettled and without a state.
    ///
    /// Part 2 of the standard, section 2.7.6 (disposition).
    pub fn new(role: Role, first: u32) -> Self
        ensures { result ≡ plain_disposition role first }
    {
        Disposition {
            role,
            first,
            last: None,
            settled: false,
            state: None,
            batchable: false,
        }
    }

    /// Sets the number of the last delivery.
    pub fn last(mut self, last: u32) -> Self
        ensures { result ≡ record self { last = Some last } }
    {
        self.last = Some(last);
        self
    }

    /// Sets whether the deliveries are settled at the sender of this frame.
    pub fn settled(mut self, settled: bool) -> Self
        ensures { result ≡ record self { settled = settled } }
    {
        self.settled = settled;
        self
    }

    /// Sets the deliveries' state.
    pub fn state(mut self, state: DeliveryState) -> Self
        ensures { result ≡ record self { state = Some state } }
    {
        drop(self.state.replace(state));
        self
    }

    /// Sets whether the answer may wait for others.
    pub fn batchable(mut self, batchable: bool) -> Self
        ensures { result ≡ record self { batchable = batchable } }
    {
        self.batchable = batchable;
        self
    }
}
