//! The table of calls, on descriptors 3 and 4. Octets that `write` queues, and a FIN, leave at once outside loss recovery.
ghost use Rattle.std.specs.Prelude.{◌≡◌, ℕ, ◌+◌, ◌<◌, ◌^◌, min, Some, Ok};
ghost use Rattle.pd_host.specs.Calls.{Listening, open_stream, has_begun_unaccepted_connection, socket_reply, bind_reply, listen_reply, accept_reply, handed_out, free_of, queued, closed_on, close_reply, operated, on_open, reply_to};
ghost use Rattle.pd_host.specs.InputResults.{GivesAnswer};
ghost use Rattle.pd_host.specs.Growth.{asked_by, asked_of, HasRoomFor};
ghost use Rattle.pd_host.specs.Steps.{AnswersOn};

use crate::connection::Connection;
use crate::consulted_settings::with_sndbuf_setting_of_write;
use crate::descriptors::ListenState;
use crate::endpoint::{Endpoint, SenderState};
use crate::halts::{Halt, HostEnd};
use crate::outbox::Outbox;
use crate::send::send_all_windows_and_nagle_permit;
use crate::syscall::{SocketOperation, Syscall};
use pd_seg::{Answer, Errno};

/// The number of the listening descriptor.
const LISTENER: u32 = 3;

/// The number of the connection.
const CONNECTION: u32 = 4;

/// The answer of a call that is done.
const DONE: Answer = Answer::Number(0);

/// The halt at a call that isn't run.
const NOT_RUN: HostEnd = HostEnd::Halted(Halt::Unsupported);

impl Endpoint {
    fn has_begun_unaccepted_connection(&self) -> bool
        ensures { result ≡ has_begun_unaccepted_connection self.now.connection }
    {
        match &self.connection {
            None => false,
            Some(connection) => connection.stream_state().is_unaccepted(),
        }
    }
}

impl SenderState {
    /// Answers a request at a moment. A descriptor that isn't open answers EBADF, before all else.
    ///
    /// # Errors
    /// `Halted` by `Unsupported` for a `socket` that isn't the first, and for a `close` of 3 while a connection was begun
    /// that isn't accepted; for a `write` and a `close` of 4 those of `send`.
    #[inline(always)]
    pub fn call(&mut self, syscall: Syscall, now: u64) -> Result<Answer, HostEnd>
        requires early { now < 2 ^ 62 }
        requires room { HasRoomFor (asked_by self.old.settings.sndbuf (Some syscall)) self.old }
        ensures { GivesAnswer (reply_to now self.old syscall) result self.new }
    {
        let Syscall::On(fd, operation) = syscall else {
            return self.answer_socket_if_listener_absent();
        };
        if fd == u64::from(LISTENER) && self.endpoint.listener.is_open() {
            self.answer_on_listener(operation)
        } else if fd == u64::from(CONNECTION) {
            self.answer_on_connection(operation, now)
        } else {
            Ok(Answer::Error(Errno::Ebadf))
        }
    }

    fn answer_socket_if_listener_absent(&mut self) -> Result<Answer, HostEnd>
        ensures { GivesAnswer (socket_reply self.old self.old.endpoint.listener) result self.new }
    {
        match self.endpoint.listener {
            ListenState::Absent => {
                self.endpoint.listener = ListenState::Open;
                Ok(Answer::Number(LISTENER))
            }
            _ => Err(NOT_RUN),
        }
    }

    /// The row of an operation on descriptor 3, which is open.
    fn answer_on_listener(&mut self, operation: SocketOperation) -> Result<Answer, HostEnd>
        ensures { (now : ℕ) → GivesAnswer (operated now self.old Listening operation) result self.new }
    {
        match operation {
            SocketOperation::Bind => Ok(self.bind_once_or_einval()),
            SocketOperation::Listen => Ok(self.listen_if_bound_or_listening_else_einval()),
            SocketOperation::Accept => Ok(self.accept_if_listening_or_einval()),
            SocketOperation::ReuseAddress
            | SocketOperation::NoDelay(_)
            | SocketOperation::SetFlags => Ok(DONE),
            SocketOperation::Write(_) => Ok(Answer::Error(Errno::Einval)),
            SocketOperation::Close => self.close_listener_unless_accept_pending(),
        }
    }

    fn bind_once_or_einval(&mut self) -> Answer
        ensures { bind_reply self.old self.old.endpoint.listener Listening ≡ Ok (self.new, result) }
    {
        match self.endpoint.listener {
            ListenState::Open => {
                self.endpoint.listener = ListenState::Bound;
                DONE
            }
            _ => Answer::Error(Errno::Einval),
        }
    }

    fn listen_if_bound_or_listening_else_einval(&mut self) -> Answer
        ensures { listen_reply self.old self.old.endpoint.listener Listening ≡ Ok (self.new, result) }
    {
        match self.endpoint.listener {
            ListenState::Bound => {
                self.endpoint.listener = ListenState::Listens;
                DONE
            }
            ListenState::Listens => DONE,
            _ => Answer::Error(Errno::Einval),
        }
    }

    fn accept_if_listening_or_einval(&mut self) -> Answer
        ensures { accept_reply self.old self.old.endpoint.listener Listening ≡ Ok (self.new, result) }
    {
        match self.endpoint.listener {
            ListenState::Listens => self.hand_out_connection_or_eagain(),
            _ => Answer::Error(Errno::Einval),
        }
    }

    /// Hands out the connection, if it was established and isn't accepted.
    fn hand_out_connection_or_eagain(&mut self) -> Answer
        ensures { handed_out self.old self.old.endpoint.connection ≡ Ok (self.new, result) }
    {
        let Some(connection) = &mut self.endpoint.connection else {
            return Answer::Error(Errno::Eagain);
        };
        if connection.is_established() && connection.stream_state().is_unaccepted() {
            connection.accept();
            Answer::Number(CONNECTION)
        } else {
            Answer::Error(Errno::Eagain)
        }
    }

    fn close_listener_unless_accept_pending(&mut self) -> Result<Answer, HostEnd>
        ensures { GivesAnswer (close_reply 0 self.old Listening) result self.new }
    {
        if self.endpoint.has_begun_unaccepted_connection() {
            return Err(NOT_RUN);
        }
        self.endpoint.listener = ListenState::Closed;
        Ok(DONE)
    }

    /// The row of an operation on descriptor 4, where it is open.
    fn answer_on_connection(
        &mut self,
        operation: SocketOperation,
        now: u64,
    ) -> Result<Answer, HostEnd>
        requires early { now < 2 ^ 62 }
        requires room { HasRoomFor (asked_of self.old.settings.sndbuf operation) self.old }
        ensures { GivesAnswer (on_open now self.old operation (open_stream self.old.endpoint.connection)) result self.new }
    {
        let Some(connection) = &mut self.endpoint.connection else {
            return Ok(Answer::Error(Errno::Ebadf));
        };
        if !connection.stream_state().is_open() {
            return Ok(Answer::Error(Errno::Ebadf));
        }
        match operation {
            SocketOperation::Bind | SocketOperation::Listen | SocketOperation::Accept => {
                Ok(Answer::Error(Errno::Einval))
            }
            SocketOperation::ReuseAddress | SocketOperation::SetFlags => Ok(DONE),
            SocketOperation::NoDelay(set) => {
                connection.set_nagle(!set);
                Ok(DONE)
            }
            SocketOperation::Write(_) if connection.is_reset() => Ok(Answer::Error(Errno::Epipe)),
            SocketOperation::Write(0) => Ok(DONE),
            SocketOperation::Write(n) => {
                self.consulted_settings = with_sndbuf_setting_of_write(self.consulted_settings);
                let sndbuf = self.settings.sndbuf;
                write(connection, &mut self.endpoint.outbox, n, sndbuf, now)
            }
            SocketOperation::Close => close_stream_and_send_fin_unless_reset(
                connection,
                &mut self.endpoint.outbox,
                now,
            ),
        }
    }
}

/// Octets are queued, as many as the setting `sndbuf` has room for, and sent.
fn write(
    connection: &mut Connection,
    outbox: &mut Outbox,
    n: u64,
    sndbuf: u32,
    now: u64,
) -> Result<Answer, HostEnd>
    requires early { now < 2 ^ 62 }
    requires room { connection.old.board.end + min n sndbuf < 2 ^ 31 }
    ensures { AnswersOn (queued now n (free_of sndbuf connection.old) connection.old) connection.old outbox.old result connection.new outbox.new }
{
    let free_send_buffer = connection.remaining_send_buffer_octets(sndbuf);
    if free_send_buffer == 0 {
        return Ok(Answer::Error(Errno::Eagain));
    }
    let count = n.min(u64::from(free_send_buffer)) as u32;
    connection.queue_octets(count);
    // In recovery segments leave for an ACK alone: a call sends nothing by itself (own).
    if !connection.is_recovering() {
        send_all_windows_and_nagle_permit(connection, outbox, now)?;
    }
    Ok(Answer::Number(count))
}

/// Descriptor 4 is closed, and a FIN queued and sent unless the connection was reset.
fn close_stream_and_send_fin_unless_reset(
    connection: &mut Connection,
    outbox: &mut Outbox,
    now: u64,
) -> Result<Answer, HostEnd>
    requires early { now < 2 ^ 62 }
    requires room { connection.old.board.end + 1 < 2 ^ 31 }
    ensures { AnswersOn (closed_on now connection.old) connection.old outbox.old result connection.new outbox.new }
{
    connection.mark_stream_descriptor_closed();
    if !connection.is_reset() {
        connection.queue_fin();
        if !connection.is_recovering() {
            send_all_windows_and_nagle_permit(connection, outbox, now)?;
        }
    }
    Ok(DONE)
}
