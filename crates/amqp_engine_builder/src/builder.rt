//! The builder of sessions.

ghost use Rattle.std.specs.Prelude.{◌≡◌, None, Some, IfErr, IfOk, OnErr, OnOk};
ghost use Rattle.amqp_engine_builder.specs.Builders.{BeginsOver, IsNew, begin_built, default_builder, with_symbol};

use amqp_accept_links::ControlLinkAcceptor;
use amqp_below_connections::ConnectionEnd;
use amqp_below_sessions::{BeginError, PlainSession};
use amqp_engine_events::{ClientBegin, SessionEngine};
use amqp_txn_types::{
    Begin, Fields, Handle, NoMemory, OutgoingChannel, SessionState, Symbol, Symbols, TryClone,
};
use std::alloc::Global;

/// What a session is to be like. Part 2 of the standard, section 2.7.2 (begin).
#[derive(Debug, Drop, PartialEq)]
pub struct Builder {
    /// The transfer id of the first transfer to be sent; 0 where it isn't set.
    pub next_outgoing_id: u32,
    /// How many transfers this side can take; 2,048 where it isn't set.
    pub incoming_window: u32,
    /// How many transfers it can send; 2,048 where it isn't set.
    pub outgoing_window: u32,
    /// The greatest handle of a link; 4,294,967,295 where it isn't set.
    pub handle_max: Handle,
    /// What this side can do.
    pub offered_capabilities: Option<Symbols>,
    /// What it wants the peer to do.
    pub desired_capabilities: Option<Symbols>,
    /// Other properties of the session.
    pub properties: Option<Fields>,
    /// How many frames may wait, for bodies that queue frames; 65,535 where it isn't set.
    pub buffer_size: usize,
    /// How control links are accepted, where they are.
    pub control_link_acceptor: Option<ControlLinkAcceptor>,
}

impl Default for Builder {
    ghost use Rattle.std.specs.Prelude.{◌≡◌};
    ghost use Rattle.amqp_engine_builder.specs.Builders.{default_builder};

    ghost is_default = { λ builder. builder ≡ default_builder };

    fn default() -> Self {
        Builder {
            next_outgoing_id: 0,
            incoming_window: 2048,
            outgoing_window: 2048,
            handle_max: Handle::default(),
            offered_capabilities: None,
            desired_capabilities: None,
            properties: None,
            buffer_size: 65_535,
            control_link_acceptor: None,
        }
    }
}

impl TryClone for Builder {
    fn try_clone(&self) -> Result<Self, NoMemory> {
        Ok(Builder {
            next_outgoing_id: self.next_outgoing_id,
            incoming_window: self.incoming_window,
            outgoing_window: self.outgoing_window,
            handle_max: self.handle_max,
            offered_capabilities: self.offered_capabilities.try_clone()?,
            desired_capabilities: self.desired_capabilities.try_clone()?,
            properties: self.properties.try_clone()?,
            buffer_size: self.buffer_size,
            control_link_acceptor: self.control_link_acceptor.try_clone()?,
        })
    }
}

/// Appends a symbol to a list, or makes the list of it. Where memory runs out all is as it was.
fn append(alloc: Global, list: &mut Option<Symbols>, symbol: Symbol) -> Result<(), NoMemory>
    ensures ok { OnOk result (list.new ≡ with_symbol list.old symbol) }
    ensures err { OnErr result (list.new ≡ list.old) }
{
    if let Some(symbols) = list {
        return symbols.append(symbol);
    }
    let mut symbols = Symbols::new(alloc);
    symbols.append(symbol)?;
    *list = Some(symbols);
    Ok(())
}

impl Builder {
    /// The default builder.
    pub fn new() -> Self
        ensures { result ≡ default_builder }
    {
        Builder::default()
    }

    /// Sets the transfer id of the first transfer to be sent.
    pub fn next_outgoing_id(mut self, value: u32) -> Self
        ensures { result ≡ record self { next_outgoing_id = value } }
    {
        self.next_outgoing_id = value;
        self
    }

    /// Sets how many transfers this side can take.
    pub fn incoming_window(mut self, value: u32) -> Self
        ensures { result ≡ record self { incoming_window = value } }
    {
        self.incoming_window = value;
        self
    }

    /// Sets how many transfers it can send.
    pub fn outgoing_window(mut self, value: u32) -> Self
        ensures { result ≡ record self { outgoing_window = value } }
    {
        self.outgoing_window = value;
        self
    }

    /// Sets the greatest handle of a link.
    pub fn handle_max(mut self, value: Handle) -> Self
        ensures { result ≡ record self { handle_max = value } }
    {
        self.handle_max = value;
        self
    }

    /// Sets what this side can do.
    pub fn set_offered_capabilities(mut self, value: Symbols) -> Self
        ensures { result ≡ record self { offered_capabilities = Some value } }
    {
        self.offered_capabilities = Some(value);
        self
    }

    /// Adds one thing that this side can do, after the others.
    ///
    /// # Errors
    ///
    /// `NoMemory` alone, with the builder as it was.
    pub fn add_offered_capabilities(
        mut self,
        alloc: Global,
        capability: Symbol,
    ) -> Result<Self, (Self, NoMemory)>
        ensures ok { IfOk result (λ builder. builder ≡ record self {
          offered_capabilities = with_symbol self.offered_capabilities capability;
        }) }
        ensures err { IfErr result (λ refused. refused.0 ≡ self) }
    {
        match append(alloc, &mut self.offered_capabilities, capability) {
            Ok(()) => Ok(self),
            Err(error) => Err((self, error)),
        }
    }

    /// Adds one thing that this side can do, after the others. See
    /// [`Builder::add_offered_capabilities`], which hands the builder back where memory runs out.
    ///
    /// # Errors
    ///
    /// `NoMemory` alone, and the builder is dropped.
    pub fn append_offered_capabilities(
        mut self,
        alloc: Global,
        capability: Symbol,
    ) -> Result<Self, NoMemory>
        ensures { IfOk result (λ builder. builder ≡ record self {
          offered_capabilities = with_symbol self.offered_capabilities capability;
        }) }
    {
        match append(alloc, &mut self.offered_capabilities, capability) {
            Ok(()) => Ok(self),
            Err(error) => {
                drop(self);
                Err(error)
            }
        }
    }

    /// Sets what this side wants the peer to do.
    pub fn set_desired_capabilities(mut self, value: Symbols) -> Self
        ensures { result ≡ record self { desired_capabilities = Some value } }
    {
        self.desired_capabilities = Some(value);
        self
    }

    /// Adds one thing that this side wants the peer to do, after the others.
    ///
    /// # Errors
    ///
    /// `NoMemory` alone, with the builder as it was.
    pub fn add_desired_capabilities(
        mut self,
        alloc: Global,
        capability: Symbol,
    ) -> Result<Self, (Self, NoMemory)>
        ensures ok { IfOk result (λ builder. builder ≡ record self {
          desired_capabilities = with_symbol self.desired_capabilities capability;
        }) }
        ensures err { IfErr result (λ refused. refused.0 ≡ self) }
    {
        match append(alloc, &mut self.desired_capabilities, capability) {
            Ok(()) => Ok(self),
            Err(error) => Err((self, error)),
        }
    }

    /// Adds one thing that this side wants the peer to do, after the others. See
    /// [`Builder::add_desired_capabilities`], which hands the builder back where memory runs out.
    ///
    /// # Errors
    ///
    /// `NoMemory` alone, and the builder is dropped.
    pub fn append_desired_capabilities(
        mut self,
        alloc: Global,
        capability: Symbol,
    ) -> Result<Self, NoMemory>
        ensures { IfOk result (λ builder. builder ≡ record self {
          desired_capabilities = with_symbol self.desired_capabilities capability;
        }) }
    {
        match append(alloc, &mut self.desired_capabilities, capability) {
            Ok(()) => Ok(self),
            Err(error) => {
                drop(self);
                Err(error)
            }
        }
    }

    /// Sets the other properties of the session.
    pub fn properties(mut self, value: Fields) -> Self
        ensures { result ≡ record self { properties = Some value } }
    {
        self.properties = Some(value);
        self
    }

    /// Sets how many frames may wait.
    pub fn buffer_size(mut self, value: usize) -> Self
        ensures { result ≡ record self { buffer_size = value } }
    {
        self.buffer_size = value;
        self
    }

    /// Sets how control links are accepted.
    pub fn control_link_acceptor(mut self, value: ControlLinkAcceptor) -> Self
        ensures { result ≡ record self { control_link_acceptor = Some value } }
    {
        self.control_link_acceptor = Some(value);
        self
    }

    /// The begin of the session that is built. It names no channel of the peer's.
    pub fn into_begin(self) -> Begin
        ensures { result ≡ begin_built self }
    {
        Begin {
            remote_channel: None,
            next_outgoing_id: self.next_outgoing_id,
            incoming_window: self.incoming_window,
            outgoing_window: self.outgoing_window,
            handle_max: self.handle_max,
            offered_capabilities: self.offered_capabilities,
            desired_capabilities: self.desired_capabilities,
            properties: self.properties,
        }
    }

    /// The session that is built, in this state. It makes its lists on `alloc`, and takes no
    /// memory.
    pub fn into_session(
        self,
        alloc: Global,
        channel: OutgoingChannel,
        state: SessionState,
    ) -> PlainSession
        ensures { IsNew result channel state (begin_built self) }
    {
        PlainSession::new(alloc, channel, state, self.into_begin())
    }

    /// Begins a session of this side on a channel that the connection gives: its begin is to be
    /// sent, and the peer's is awaited.
    ///
    /// # Requires
    ///
    /// No acceptor for control links is set.
    ///
    /// # Errors
    ///
    /// - `LocalChannelMaxReached` exactly where the connection answers `ChannelMaxReached`.
    /// - `ConnectionStopped` exactly where the connection answers `ConnectionStopped`.
    /// - Else `NoMemory` alone, after which a channel may have been given.
    pub fn begin<C: ConnectionEnd>(
        self,
        alloc: Global,
        connection: &mut C,
    ) -> Result<(ClientBegin<PlainSession>, Begin), BeginError>
        requires { self.control_link_acceptor ≡ None }
        ensures { BeginsOver C.told C.allocate_gives connection.old connection.new
            (begin_built self) result }
    {
        let channel = connection.allocate_session()?;
        let session = self.into_session(alloc, channel, SessionState::Unmapped);
        match SessionEngine::begin_client_session(alloc, session) {
            Ok(begun) => Ok(begun),
            Err((session, error)) => {
                drop(session);
                Err(error)
            }
        }
    }
}
