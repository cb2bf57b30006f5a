//! What a run is lent at each call.

use cfg_code::Loaded;
use host_meaning::Settings;
use sip_msg::Message;

/// What a run is lent at each call and never changes: the script, what the proxy was started with, and the message; an event
/// block has none. It is the same at all calls of one run.
#[derive(Clone, Copy)]
pub struct Lent<'a> {
    pub loaded: &'a Loaded,
    pub settings: &'a Settings,
    pub message: Option<MessageView<'a>>,
}

/// A message as it was received: its bytes, and their reading.
#[derive(Clone, Copy)]
pub struct MessageView<'a> {
    pub bytes: &'a [u8],
    pub message: &'a Message,
}
