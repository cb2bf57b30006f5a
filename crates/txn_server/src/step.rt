//! One step of a server transaction.

ghost use Rattle.std.specs.Prelude.{◌≡◌, ℕ, ◌*◌, ◌↔◌, Some, None, true, false, IsTrue, IsSome};
ghost use Rattle.txn_moments.specs.Moments.{t1, t4, moment_after, doubled_up_to_t2};
ghost use Rattle.txn_server.specs.Rows.{ServerStep, responding, server_retrying, server_over, server_silent, server_sends, repeats};
ghost use Rattle.txn_server.specs.Timers.{due_of};
ghost use Rattle.txn_server.specs.After.{MakesServer, ending, class_of, sent_at, copied_at, acked_at, fired_at};

use crate::machine::ServerState::{Accepted, Completed, Confirmed, Proceeding, Terminated, Trying};
use crate::machine::{ResponseClass, Server, ServerActs, ServerEvent, ServerState, ServerTimer};
use txn_moments::{T1, T4, after, twice_up_to_t2};

/// Lets `event` happen to `s` at the moment `now`, in milliseconds: makes the one row that the tables of RFC 3261, section
/// 17.2, have for the server and the event, or changes nothing and asks for nothing where they have none.
pub fn server_step(s: &mut Server, event: ServerEvent, now: u64) -> ServerActs
    ensures { ServerStep s.old event now s.new result }
{
    match event {
        ServerEvent::Copy => s.copied(),
        ServerEvent::Ack => s.acked(now),
        ServerEvent::Send(code) => s.responded_with(ResponseClass::of(code), now),
        ServerEvent::Timer(timer) => s.fired(timer, now),
    }
}

impl ResponseClass {
    /// The class of a response with this status code.
    fn of(code: u16) -> ResponseClass
        ensures { result ≡ class_of code }
    {
        match code {
            100..=199 => ResponseClass::Provisional,
            200..=299 => ResponseClass::Success,
            300..=699 => ResponseClass::Failure,
            _ => ResponseClass::Neither,
        }
    }
}

impl ServerActs {
    /// Nothing is to be done.
    const SILENT: ServerActs = ServerActs {
        send: false,
        repeat: false,
        loose_ack: false,
    };

    /// The response that was handed in is to be sent.
    const SENT: ServerActs = ServerActs {
        send: true,
        ..ServerActs::SILENT
    };

    /// The ACK is to be handed on.
    const LOOSE_ACK: ServerActs = ServerActs {
        loose_ack: true,
        ..ServerActs::SILENT
    };

    /// The kept response is to be sent again.
    const REPEATED: ServerActs = ServerActs {
        repeat: true,
        ..ServerActs::SILENT
    };
}

impl Server {
    /// The request came again.
    fn copied(&mut self) -> ServerActs
        ensures { MakesServer (copied_at self.old.invite self.old.state self.old) self.old self.new result }
    {
        match (self.invite, self.state) {
            (true, Proceeding) => ServerActs {
                repeat: self.answered,
                ..ServerActs::SILENT
            },
            (false, Proceeding) | (_, Completed) => ServerActs::REPEATED,
            _ => ServerActs::SILENT,
        }
    }

    /// An ACK came.
    fn acked(&mut self, now: u64) -> ServerActs
        ensures { MakesServer (acked_at self.old.invite self.old.state self.old now) self.old self.new result }
    {
        match (self.invite, self.state) {
            (true, Completed) => {
                self.state = Confirmed;
                self.retry = None;
                self.end = Some(after(now, T4));
                ServerActs::SILENT
            }
            (true, Accepted) => ServerActs::LOOSE_ACK,
            _ => ServerActs::SILENT,
        }
    }

    /// A response is to be sent.
    fn responded_with(&mut self, class: ResponseClass, now: u64) -> ServerActs
        ensures { MakesServer (sent_at self.old.invite self.old.state class self.old now) self.old self.new result }
    {
        if self.invite {
            self.respond_to_invite(class, now)
        } else {
            self.respond_to_other(class, now)
        }
    }

    /// A response to an INVITE is to be sent.
    fn respond_to_invite(&mut self, class: ResponseClass, now: u64) -> ServerActs
        requires { self.old.invite ≡ true }
        ensures { MakesServer (sent_at self.old.invite self.old.state class self.old now) self.old self.new result }
    {
        match (self.state, class) {
            (Proceeding, ResponseClass::Provisional) => self.respond(Proceeding),
            (Proceeding, ResponseClass::Success) => self.close(Accepted, now),
            (Proceeding, ResponseClass::Failure) => {
                self.repeat_in(now, T1);
                self.close(Completed, now)
            }
            (Completed | Confirmed | Terminated, ResponseClass::Success) => ServerActs::SENT,
            (Accepted, ResponseClass::Success) => ServerActs::SENT,
            _ => ServerActs::SILENT,
        }
    }

    /// A response to another request is to be sent.
    fn respond_to_other(&mut self, class: ResponseClass, now: u64) -> ServerActs
        requires { self.old.invite ≡ false }
        ensures { MakesServer (sent_at self.old.invite self.old.state class self.old now) self.old self.new result }
    {
        match (self.state, class) {
            (Trying | Proceeding, ResponseClass::Provisional) => self.respond(Proceeding),
            (Trying | Proceeding, ResponseClass::Success | ResponseClass::Failure) => {
                self.close(Completed, now)
            }
            _ => ServerActs::SILENT,
        }
    }

    /// A timer is due, if it is armed.
    fn fired(&mut self, timer: ServerTimer, now: u64) -> ServerActs
        ensures { MakesServer (fired_at self.old.invite self.old.state timer self.old now) self.old self.new result }
    {
        match timer {
            ServerTimer::Retry => self.retry_fired(now),
            ServerTimer::End => self.end_fired(),
        }
    }

    /// Timer G is due, if it is armed.
    fn retry_fired(&mut self, now: u64) -> ServerActs
        ensures { MakesServer (fired_at self.old.invite self.old.state ServerTimer.Retry self.old now) self.old self.new result }
    {
        match (self.invite, self.state) {
            (true, Completed) if self.retry.is_some() => {
                self.repeat_in(now, twice_up_to_t2(self.interval));
                ServerActs::REPEATED
            }
            _ => ServerActs::SILENT,
        }
    }

    /// Timer H, I, J or L is due, if it is armed: the transaction is over.
    fn end_fired(&mut self) -> ServerActs
        ensures { (now : ℕ) → MakesServer (fired_at self.old.invite self.old.state ServerTimer.End self.old now) self.old self.new result }
    {
        if self.end.is_none() {
            return ServerActs::SILENT;
        }
        match (self.invite, self.state) {
            (_, Completed) | (true, Accepted | Confirmed) => {
                self.state = Terminated;
                self.retry = None;
                self.end = None;
            }
            _ => {}
        }
        ServerActs::SILENT
    }

    /// A response is sent, and the transaction goes on in `state`.
    fn respond(&mut self, state: ServerState) -> ServerActs
        ensures server { self.new ≡ responding self.old state }
        ensures acts { result ≡ server_sends }
    {
        self.state = state;
        self.answered = true;
        ServerActs::SENT
    }

    /// A final response is sent, and `state` absorbs retransmissions of the request for 64 * T1.
    fn close(&mut self, state: ServerState, now: u64) -> ServerActs
        ensures server { self.new ≡ ending self.old state (moment_after now (64 * t1)) }
        ensures acts { result ≡ server_sends }
    {
        self.end = Some(after(now, 64 * T1));
        self.respond(state)
    }

    /// The response is repeated in `interval` milliseconds.
    fn repeat_in(&mut self, now: u64, interval: u64)
        ensures { self.new ≡ server_retrying self.old now interval }
    {
        self.retry = Some(after(now, interval));
        self.interval = interval;
    }
}
