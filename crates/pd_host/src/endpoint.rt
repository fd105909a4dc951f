//! The sender's state: the endpoint that its rules work on, and the settings that it consults.
ghost use Rattle.std.specs.Prelude.{◌≡◌, IfOk, option_map};
ghost use Rattle.pd_host.specs.Host.{fresh_endpoint};
ghost use Rattle.pd_host.specs.ConnStates.{conn_state};

use crate::connection::Connection;
use crate::connection::states::ConnState;
use crate::descriptors::ListenState;
use crate::outbox::Outbox;
use pd_board::Board;
use pd_settings::{SettingSet, Settings};
use std::alloc::{AllocError, Global};

/// Descriptor 3, the connection once it was begun, and the packets that were put out and not yet taken.
#[derive(Drop)]
pub struct Endpoint {
    /// How far descriptor 3 has come.
    pub listener: ListenState,
    /// The connection, once a SYN has begun it.
    pub connection: Option<Connection>,
    /// The packets that were put out and not yet taken.
    pub outbox: Outbox,
}

impl Endpoint {
    /// An endpoint that nothing has happened to.
    pub fn new(alloc: Global) -> Endpoint
        ensures { result ≡ fresh_endpoint }
    {
        Endpoint {
            listener: ListenState::Absent,
            connection: None,
            outbox: Outbox::new(alloc),
        }
    }

    /// Copies of what of it takes memory.
    ///
    /// # Errors
    /// `AllocError` where a growth is refused, or the scoreboard has found no memory before.
    #[inline(always)]
    pub fn board_and_outbox_copies(&self) -> Result<ClonedParts, AllocError>
        ensures board { IfOk result (λ board_and_outbox_copies. board_and_outbox_copies.board ≡ option_map (λ c. c.board) self.now.connection) }
        ensures outbox { IfOk result (λ board_and_outbox_copies. board_and_outbox_copies.outbox ≡ self.now.outbox) }
    {
        let board = match &self.connection {
            None => None,
            Some(connection) => Some(connection.copy_board()?),
        };
        Ok(ClonedParts {
            board,
            outbox: self.outbox.copy()?,
        })
    }
}

/// Copies of what of an endpoint takes memory.
#[derive(Drop)]
pub struct ClonedParts {
    /// The scoreboard of the connection, once it was begun.
    pub board: Option<Board>,
    /// The packets that were put out and not yet taken.
    pub outbox: Outbox,
}

/// The endpoint, and beside it the settings and which of them were consulted so far.
#[derive(Drop)]
pub struct SenderState {
    /// The settings, which are copied where a rule consults them.
    pub settings: Settings,
    /// Which of them were consulted so far.
    pub consulted_settings: SettingSet,
    /// The descriptors, the connection and the packets.
    pub endpoint: Endpoint,
}

impl SenderState {
    /// The state of the connection, or of the listener where none was begun.
    pub fn conn_state(&self) -> ConnState
        ensures { result ≡ conn_state self.now }
    {
        match &self.endpoint.connection {
            None if self.endpoint.listener.is_listening() => ConnState::Listen,
            None => ConnState::Closed,
            Some(connection) => connection.state(),
        }
    }
}
