//! One step of a client transaction.

ghost use Rattle.std.specs.Prelude.{◌≡◌, ℕ};
ghost use Rattle.txn_client.specs.Rows.{ClientStep, client_retrying, responded, client_over, client_sends, passes_up};
ghost use Rattle.txn_client.specs.After.{MakesClient, lingering, client_made_at};

use crate::machine::ClientState::{Accepted, Calling, Completed, Proceeding, Terminated, Trying};
use crate::machine::{Client, ClientActs, ClientEvent, ClientState, ClientTimer};
use txn_moments::{T1, T2, T4, after, twice, twice_up_to_t2};

/// Timer D, for UDP: 32 s (RFC 3261, section 17.1.1.2).
const TIMER_D: u64 = 32_000;

/// Lets `event` happen to `c` at the moment `now`, in milliseconds: makes the one row that the tables of RFC 3261, section
/// 17.1, have for the client and the event, or changes nothing and asks for nothing where they have none.
pub fn client_step(c: &mut Client, event: ClientEvent, now: u64) -> ClientActs
    ensures { ClientStep c.old event now c.new result }
{
    match event {
        ClientEvent::Start => c.started(now),
        ClientEvent::Provisional => c.got_provisional(),
        ClientEvent::Success => c.got_success(now),
        ClientEvent::Failure => c.got_failure(now),
        ClientEvent::Timer(timer) => c.fired(timer, now),
    }
}

impl ClientActs {
    /// Nothing is to be done.
    const SILENT: ClientActs = ClientActs {
        send: false,
        ack: false,
        up: false,
        timeout: false,
    };

    /// The request is to be sent.
    const SENT: ClientActs = ClientActs {
        send: true,
        ..ClientActs::SILENT
    };

    /// An ACK is to be sent.
    const ACKED: ClientActs = ClientActs {
        ack: true,
        ..ClientActs::SILENT
    };

    /// The timeout is to be reported.
    const TIMED_OUT: ClientActs = ClientActs {
        timeout: true,
        ..ClientActs::SILENT
    };

    /// The response is to be passed up.
    const PASSED_UP: ClientActs = ClientActs {
        up: true,
        ..ClientActs::SILENT
    };
}

impl Client {
    /// The request is handed in.
    fn started(&mut self, now: u64) -> ClientActs
        ensures { MakesClient (client_made_at self.old.invite self.old.state ClientEvent.Start self.old now) self.old self.new result }
    {
        match (self.invite, self.state) {
            (true, Calling) | (false, Trying) => {
                self.limit = Some(after(now, 64 * T1));
                self.send_again(now, T1)
            }
            _ => ClientActs::SILENT,
        }
    }

    /// A 1xx came.
    fn got_provisional(&mut self) -> ClientActs
        ensures { (now : ℕ) →
            MakesClient (client_made_at self.old.invite self.old.state ClientEvent.Provisional self.old now) self.old self.new result }
    {
        match (self.invite, self.state) {
            (true, Calling | Proceeding) => {
                self.stop_waiting();
                self.state = Proceeding;
                ClientActs::PASSED_UP
            }
            (false, Trying | Proceeding) => {
                self.state = Proceeding;
                ClientActs::PASSED_UP
            }
            _ => ClientActs::SILENT,
        }
    }

    /// A 2xx came.
    fn got_success(&mut self, now: u64) -> ClientActs
        ensures { MakesClient (client_made_at self.old.invite self.old.state ClientEvent.Success self.old now) self.old self.new result }
    {
        match (self.invite, self.state) {
            (true, Calling | Proceeding) => self.take_final(Accepted, after(now, 64 * T1)),
            (true, Accepted) => ClientActs::PASSED_UP,
            (false, Trying | Proceeding) => self.take_final(Completed, after(now, T4)),
            _ => ClientActs::SILENT,
        }
    }

    /// A 300 to 699 came.
    fn got_failure(&mut self, now: u64) -> ClientActs
        ensures { MakesClient (client_made_at self.old.invite self.old.state ClientEvent.Failure self.old now) self.old self.new result }
    {
        match (self.invite, self.state) {
            (true, Calling | Proceeding) => {
                let up = self.take_final(Completed, after(now, TIMER_D));
                ClientActs { ack: true, ..up }
            }
            (true, Completed) => ClientActs::ACKED,
            (false, Trying | Proceeding) => self.take_final(Completed, after(now, T4)),
            _ => ClientActs::SILENT,
        }
    }

    /// A timer is due, if it is armed.
    fn fired(&mut self, timer: ClientTimer, now: u64) -> ClientActs
        ensures { MakesClient (client_made_at self.old.invite self.old.state (ClientEvent.Timer timer) self.old now) self.old self.new result }
    {
        match timer {
            ClientTimer::Retry => self.retry_fired(now),
            ClientTimer::Limit => self.limit_fired(),
            ClientTimer::Linger => self.linger_fired(),
        }
    }

    /// Timer A or E is due, if it is armed.
    fn retry_fired(&mut self, now: u64) -> ClientActs
        ensures { MakesClient (client_made_at self.old.invite self.old.state (ClientEvent.Timer ClientTimer.Retry) self.old now)
            self.old self.new result }
    {
        if self.retry.is_none() {
            return ClientActs::SILENT;
        }
        match (self.invite, self.state) {
            (true, Calling) => self.send_again(now, twice(self.interval)),
            (false, Trying) => self.send_again(now, twice_up_to_t2(self.interval)),
            (false, Proceeding) => self.send_again(now, T2),
            _ => ClientActs::SILENT,
        }
    }

    /// Timer B or F is due, if it is armed: no response came in time.
    fn limit_fired(&mut self) -> ClientActs
        ensures { (now : ℕ) →
            MakesClient (client_made_at self.old.invite self.old.state (ClientEvent.Timer ClientTimer.Limit) self.old now)
            self.old self.new result }
    {
        if self.limit.is_none() {
            return ClientActs::SILENT;
        }
        match (self.invite, self.state) {
            (true, Calling) | (false, Trying | Proceeding) => {
                self.end();
                ClientActs::TIMED_OUT
            }
            _ => ClientActs::SILENT,
        }
    }

    /// Timer D, K or M is due, if it is armed: the transaction is over.
    fn linger_fired(&mut self) -> ClientActs
        ensures { (now : ℕ) →
            MakesClient (client_made_at self.old.invite self.old.state (ClientEvent.Timer ClientTimer.Linger) self.old now)
            self.old self.new result }
    {
        if self.linger.is_none() {
            return ClientActs::SILENT;
        }
        match (self.invite, self.state) {
            (_, Completed) | (true, Accepted) => self.end(),
            _ => {}
        }
        ClientActs::SILENT
    }

    /// The request is sent, and again after `interval` milliseconds.
    fn send_again(&mut self, now: u64, interval: u64) -> ClientActs
        ensures client { self.new ≡ client_retrying self.old now interval }
        ensures acts { result ≡ client_sends }
    {
        self.retry = Some(after(now, interval));
        self.interval = interval;
        ClientActs::SENT
    }

    /// A response came: the request isn't sent again, and no other limit holds.
    fn stop_waiting(&mut self)
        ensures { self.new ≡ responded self.old }
    {
        self.retry = None;
        self.limit = None;
    }

    /// A final response came: it is passed up, and `state` absorbs its repeats until `due`.
    fn take_final(&mut self, state: ClientState, due: u64) -> ClientActs
        ensures client { self.new ≡ lingering self.old state due }
        ensures acts { result ≡ passes_up }
    {
        self.stop_waiting();
        self.state = state;
        self.linger = Some(due);
        ClientActs::PASSED_UP
    }

    /// The transaction is over.
    fn end(&mut self)
        ensures { self.new ≡ client_over self.old }
    {
        self.stop_waiting();
        self.linger = None;
        self.state = Terminated;
    }
}
