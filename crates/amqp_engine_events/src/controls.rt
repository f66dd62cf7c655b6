//! What is asked of a connection or of a session by its owner, and what is answered.

use amqp_below_ids::Drawn;
use amqp_below_layer::Echoes;
use amqp_below_sessions::{AllocLinkError, AllocTxnIdError, Relay};
use amqp_txn_types::{
    Accepted, ConnectionError, Disposition, Error, InputHandle, OutgoingChannel, OutputHandle,
    Text, TransactionError, TransactionId,
};
use std::fmt;

/// What is asked of a connection. Part 2 of the standard, section 2.4 (connections).
#[derive(Debug, Drop, PartialEq)]
pub enum ConnectionControl {
    /// That it close, with an error or without.
    Close(Option<Error>),
    /// That it give a channel to a session.
    AllocateSession,
    /// That it take back the channel of a session.
    DeallocateSession(OutgoingChannel),
}

impl fmt::Display for ConnectionControl {
    ghost use Rattle.amqp_engine_events.specs.Texts.{text_of_connection_control};

    ghost output = { text_of_connection_control };

    fn fmt<W: fmt::Write>(&self, f: &mut fmt::Formatter<W>) -> fmt::Result {
        match self {
            ConnectionControl::Close(error) => write!(f, "Close({error:?})"),
            ConnectionControl::AllocateSession => f.write_str("AllocateSession"),
            ConnectionControl::DeallocateSession(channel) => {
                let number = channel.0;
                write!(f, "DeallocateSession({number})")
            }
        }
    }
}

/// What is asked of a session, through its engine.
#[derive(Debug, Drop, PartialEq)]
pub enum SessionControl {
    /// That it end, with an error or without (part 2 of the standard, section 2.5.2).
    End(Option<Error>),
    /// That it give an output handle to a link of this side.
    AllocateLink {
        /// The link's name.
        link_name: Text,
        /// What is kept for the link.
        link_relay: Relay,
    },
    /// That it give an output handle to a link that the peer attached.
    AllocateIncomingLink {
        /// The link's name.
        link_name: Text,
        /// What is kept for the link.
        link_relay: Relay,
        /// The peer's handle of the link.
        input_handle: InputHandle,
    },
    /// That it free an output handle.
    DeallocateLink(OutputHandle),
    /// That it send a disposition.
    Disposition(Disposition),
    /// That its connection be closed with an error, and a text for people.
    CloseConnectionWithError(ConnectionError, Option<Text>),
    /// That it declare a transaction (part 4 of the standard, section 4.2).
    AllocateTransactionId,
    /// That it commit a transaction (section 4.3).
    CommitTransaction {
        /// The transaction.
        txn_id: TransactionId,
    },
    /// That it roll back a transaction (section 4.3).
    RollbackTransaction {
        /// The transaction.
        txn_id: TransactionId,
    },
    /// That it roll back a transaction, whose end nobody waits for.
    AbortTransaction(TransactionId),
}

impl fmt::Display for SessionControl {
    ghost use Rattle.amqp_engine_events.specs.Texts.{text_of_control};

    ghost output = { text_of_control };

    fn fmt<W: fmt::Write>(&self, f: &mut fmt::Formatter<W>) -> fmt::Result {
        match self {
            SessionControl::End(error) => write!(f, "End({error:?})"),
            SessionControl::AllocateLink { .. } => f.write_str("AllocateLink"),
            SessionControl::AllocateIncomingLink { .. } => f.write_str("AllocateIncomingLink"),
            SessionControl::DeallocateLink(output) => write!(f, "DeallocateLink({output:?})"),
            SessionControl::Disposition(_) => f.write_str("Disposition"),
            SessionControl::CloseConnectionWithError(_, _) => {
                f.write_str("CloseConnectionWithError")
            }
            SessionControl::AllocateTransactionId => f.write_str("AllocateTransactionId"),
            SessionControl::CommitTransaction { .. } => f.write_str("CommitTransaction"),
            SessionControl::RollbackTransaction { .. } => f.write_str("RollbackTransaction"),
            SessionControl::AbortTransaction(_) => f.write_str("AbortTransaction"),
        }
    }
}

/// What is answered to a [`SessionControl`].
#[derive(Debug, Drop, PartialEq)]
pub enum ControlReply {
    /// Nothing: it was no control, or one without an answer.
    Nothing,
    /// The answer to `AllocateLink` and `AllocateIncomingLink`.
    Linked(Result<OutputHandle, AllocLinkError>),
    /// The connection is to be closed with this error.
    CloseConnection(Error),
    /// The answer to `AllocateTransactionId`.
    Allocated(Result<Drawn, AllocTxnIdError>),
    /// The answer to `CommitTransaction`.
    Committed(Result<Echoes, TransactionError>),
    /// The answer to `RollbackTransaction`.
    RolledBack(Result<Accepted, TransactionError>),
}
