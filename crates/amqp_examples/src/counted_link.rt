//! A link of one's own, over another.

use amqp_links::{DetachError, LinkStateError, Poll, SendError, Sendable, SenderLink, Sent};
use amqp_txn_types::{DeliveryState, Error, Token};

/// A link that counts what was sent on it. What it tells is what the link in it tells.
#[derive(Drop)]
pub struct CountedLink<L> {
    link: L,
    sent: u64,
}

impl<L> CountedLink<L> {
    /// Counts what is sent on this link from now on.
    pub fn new(link: L) -> Self {
        CountedLink { link, sent: 0 }
    }

    /// How many messages were sent, up to 2^64 - 1.
    pub fn sent(&self) -> u64 {
        self.sent
    }
}

impl<L: SenderLink> SenderLink for CountedLink<L> {
    ghost told = { λ counted. L.told counted.link };

    fn send(
        &mut self,
        sendable: Sendable,
        state: Option<DeliveryState>,
        batchable: bool,
    ) -> Result<Sent, SendError> {
        let answer = self.link.send(sendable, state, batchable);
        if answer.is_ok() {
            self.sent = self.sent.saturating_add(1);
        }
        answer
    }

    fn outcome(&mut self, token: &Token) -> Poll<Result<Option<DeliveryState>, LinkStateError>> {
        self.link.outcome(token)
    }

    fn close(&mut self, error: Option<Error>) -> Result<(), DetachError> {
        self.link.close(error)
    }
}
