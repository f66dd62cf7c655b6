//! The builder of acceptors of sessions.

ghost use Rattle.std.specs.Prelude.{◌≡◌, Some, IfErr, IfOk};
ghost use Rattle.amqp_engine_builder.specs.Builders.{default_builder, with_symbol};

use crate::acceptor::SessionAcceptor;
use amqp_accept_links::ControlLinkAcceptor;
use amqp_engine_builder::Builder;
use amqp_txn_types::{Fields, Handle, NoMemory, Symbol, Symbols};
use std::alloc::Global;
use std::marker::Model;

/// An acceptor of sessions in the making: its setters are those of the builder of sessions.
#[derive(Drop)]
pub struct SessionAcceptorBuilder(Builder);

impl Model for SessionAcceptorBuilder {
    ghost use Rattle.amqp_engine_builder.specs.declared.builder.Builder.{Builder};

    ghost Value = { Builder };

    ghost view = { λ builder. builder.0 };
}

impl SessionAcceptorBuilder {
    /// A builder whose fields are not set.
    pub(crate) fn new() -> Self
        ensures { result ≡ default_builder }
    {
        SessionAcceptorBuilder(Builder::new())
    }

    /// The acceptor.
    pub fn build(self) -> SessionAcceptor
        ensures { result.0 ≡ self }
    {
        SessionAcceptor(self.0)
    }

    /// Sets the transfer id of the first transfer to be sent.
    pub fn next_outgoing_id(self, value: u32) -> Self
        ensures { result ≡ record self { next_outgoing_id = value } }
    {
        SessionAcceptorBuilder(self.0.next_outgoing_id(value))
    }

    /// Sets how many transfers this side can take.
    pub fn incoming_window(self, value: u32) -> Self
        ensures { result ≡ record self { incoming_window = value } }
    {
        SessionAcceptorBuilder(self.0.incoming_window(value))
    }

    /// Sets how many transfers it can send.
    pub fn outgoing_window(self, value: u32) -> Self
        ensures { result ≡ record self { outgoing_window = value } }
    {
        SessionAcceptorBuilder(self.0.outgoing_window(value))
    }

    /// Sets the greatest handle of a link.
    pub fn handle_max(self, value: Handle) -> Self
        ensures { result ≡ record self { handle_max = value } }
    {
        SessionAcceptorBuilder(self.0.handle_max(value))
    }

    /// Sets what this side can do.
    pub fn set_offered_capabilities(self, value: Symbols) -> Self
        ensures { result ≡ record self { offered_capabilities = Some value } }
    {
        SessionAcceptorBuilder(self.0.set_offered_capabilities(value))
    }

    /// Sets what this side wants the peer to do.
    pub fn set_desired_capabilities(self, value: Symbols) -> Self
        ensures { result ≡ record self { desired_capabilities = Some value } }
    {
        SessionAcceptorBuilder(self.0.set_desired_capabilities(value))
    }

    /// Sets the other properties of the session.
    pub fn properties(self, value: Fields) -> Self
        ensures { result ≡ record self { properties = Some value } }
    {
        SessionAcceptorBuilder(self.0.properties(value))
    }

    /// Sets how many frames may wait.
    pub fn buffer_size(self, value: usize) -> Self
        ensures { result ≡ record self { buffer_size = value } }
    {
        SessionAcceptorBuilder(self.0.buffer_size(value))
    }

    /// Sets how control links are accepted.
    pub fn control_link_acceptor(self, value: ControlLinkAcceptor) -> Self
        ensures { result ≡ record self { control_link_acceptor = Some value } }
    {
        SessionAcceptorBuilder(self.0.control_link_acceptor(value))
    }

    /// Adds one thing that this side can do, after the others.
    ///
    /// # Errors
    ///
    /// `NoMemory` alone, with the builder as it was.
    pub fn add_offered_capabilities(
        self,
        alloc: Global,
        capability: Symbol,
    ) -> Result<Self, (Self, NoMemory)>
        ensures ok { IfOk result (λ builder. builder ≡ record self {
          offered_capabilities = with_symbol self.offered_capabilities capability;
        }) }
        ensures err { IfErr result (λ refused. refused.0 ≡ self) }
    {
        match self.0.add_offered_capabilities(alloc, capability) {
            Ok(builder) => Ok(SessionAcceptorBuilder(builder)),
            Err((builder, error)) => Err((SessionAcceptorBuilder(builder), error)),
        }
    }

    /// Adds one thing that this side can do, after the others. See
    /// [`SessionAcceptorBuilder::add_offered_capabilities`], which hands the builder back where
    /// memory runs out.
    ///
    /// # Errors
    ///
    /// `NoMemory` alone, and the builder is dropped.
    pub fn append_offered_capabilities(
        self,
        alloc: Global,
        capability: Symbol,
    ) -> Result<Self, NoMemory>
        ensures { IfOk result (λ builder. builder ≡ record self {
          offered_capabilities = with_symbol self.offered_capabilities capability;
        }) }
    {
        match self.0.append_offered_capabilities(alloc, capability) {
            Ok(builder) => Ok(SessionAcceptorBuilder(builder)),
            Err(error) => Err(error),
        }
    }

    /// Adds one thing that this side wants the peer to do, after the others.
    ///
    /// # Errors
    ///
    /// `NoMemory` alone, with the builder as it was.
    pub fn add_desired_capabilities(
        self,
        alloc: Global,
        capability: Symbol,
    ) -> Result<Self, (Self, NoMemory)>
        ensures ok { IfOk result (λ builder. builder ≡ record self {
          desired_capabilities = with_symbol self.desired_capabilities capability;
        }) }
        ensures err { IfErr result (λ refused. refused.0 ≡ self) }
    {
        match self.0.add_desired_capabilities(alloc, capability) {
            Ok(builder) => Ok(SessionAcceptorBuilder(builder)),
            Err((builder, error)) => Err((SessionAcceptorBuilder(builder), error)),
        }
    }

    /// Adds one thing that this side wants the peer to do, after the others. See
    /// [`SessionAcceptorBuilder::add_desired_capabilities`], which hands the builder back where
    /// memory runs out.
    ///
    /// # Errors
    ///
    /// `NoMemory` alone, and the builder is dropped.
    pub fn append_desired_capabilities(
        self,
        alloc: Global,
        capability: Symbol,
    ) -> Result<Self, NoMemory>
        ensures { IfOk result (λ builder. builder ≡ record self {
          desired_capabilities = with_symbol self.desired_capabilities capability;
        }) }
    {
        match self.0.append_desired_capabilities(alloc, capability) {
            Ok(builder) => Ok(SessionAcceptorBuilder(builder)),
            Err(error) => Err(error),
        }
    }
}
