//! A text in a block.
ghost use Rattle.std.specs.Prelude.{◌≤◌, ◌≡◌, take, length};

use buf_pool::{BLOCK_SIZE, Block};

/// A block of the pool and the text in it, which may be empty.
#[derive(Drop)]
pub struct TextBlock {
    block: Block,
    /// How many bytes of the block are the text.
    len: usize,
    ghost fits: { len ≤ 8192 },
}

impl TextBlock {
    ghost use Rattle.std.specs.Prelude.{◌≡◌, [], length};
    ghost use Rattle.txn_state.specs.Texts.{pool_of, text_in};

    /// This block, with no text in it.
    pub fn new(block: Block) -> TextBlock
        ensures text { text_in result ≡ [] }
        ensures pool { pool_of result ≡ block.pool }
    {
        TextBlock { block, len: 0 }
    }

    pub fn text(&self) -> &[u8]
        ensures value { result.now ≡ text_in self.now }
        ensures fits { length result.now ≤ 8192 }
    {
        &self.block.bytes()[..self.len]
    }

    /// Puts another text into the block.
    pub fn write(&mut self, text: &[u8])
        requires { length text.now ≤ 8192 }
        ensures text { text_in self.new ≡ text.now }
        ensures pool { pool_of self.new ≡ pool_of self.old }
    {
        put_front(self.block.bytes_mut(), text);
        self.len = text.len();
    }

    pub fn into_block(self) -> Block
        ensures { result.pool ≡ pool_of self }
    {
        self.block
    }
}

/// Puts the text at the beginning of the bytes.
pub fn put_front(bytes: &mut [u8], text: &[u8])
    requires { length text.now ≤ length bytes.old }
    ensures text { take (length text.now) bytes.new ≡ text.now }
    ensures len { length bytes.new ≡ length bytes.old }
{
    bytes[..text.len()].copy_from_slice(text);
}
