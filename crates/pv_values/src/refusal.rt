//! Why a script is refused.

/// A part of a script's text: from its first byte up to, and without, the byte at `to`.
#[derive(Clone, Copy, Debug, Default, PartialEq, Eq)]
pub struct Place {
    pub from: usize,
    pub to: usize,
}

/// Why a text gives no script.
#[derive(Clone, Copy, Debug, PartialEq, Eq)]
pub enum ScriptFault {
    /// The first refusal: its kind, 1 to 15, and where it stands.
    Refused { kind: u8, at: Place },
    NoMemory,
}
