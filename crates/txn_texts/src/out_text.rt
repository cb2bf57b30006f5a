//! Which text a step sends.
ghost use Rattle.std.specs.Prelude.{◌≡◌};
ghost use Rattle.txn_texts.specs.Reasons.{reason_text};

use pv_values::Text;

/// Which text a step sends. What it is made of stays as it is until it is sent.
#[derive(Drop)]
pub enum OutText {
    /// A response to the request that the proxy makes, with this status code and reason phrase.
    Made { code: u16, reason: Reason },
    /// A response to the message that came, with this status code and reason phrase, without a transaction.
    Stateless { code: u16, reason: Reason },
    /// The text that goes on: the response that came or that is the best one, or an ACK without a transaction.
    Passed,
    /// The response that the server repeats.
    Repeated,
    /// The request of the branch of this number.
    Request(u8),
    /// The ACK for the response that came, for the request of this branch (RFC 3261, section 17.1.1.3).
    Ack(u8),
    /// The CANCEL of the request of this branch (RFC 3261, section 9.1).
    Cancel(u8),
}

/// A reason phrase.
#[derive(Drop)]
pub enum Reason {
    /// One of the proxy's own.
    Own(&'static [u8]),
    /// One that a script gave.
    OfScript(Text),
}

impl Reason {
    pub fn bytes(&self) -> &[u8]
        ensures { result.now ≡ reason_text self.now }
    {
        match self {
            Reason::Own(reason) => reason,
            Reason::OfScript(reason) => reason.bytes(),
        }
    }
}
