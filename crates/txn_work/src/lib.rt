//! What a step of a transaction decides: the responses of its server and their retransmissions (RFC 3261, sections 9.2, 16.7 and
//! 17.2), and the requests, ACKs and CANCELs of its clients (sections 9.1, 16.10 and 17.1; RFC 6026).
//!
//! [`Work`] is what a step has decided so far, beside what it has made of the transaction. Each method does one thing that the
//! definition of a step names, on the transaction and on the work: of what both stand for it makes what the definition makes of
//! it (`Shows` in `specs/Works.antt`). None takes memory; each asks that the outbox has room for the datagrams that it may
//! decide.
#![tactic(auto)]

mod clients;
mod context;
mod progress;
mod responses;
mod work;

pub use clients::begun;
pub use work::Work;
