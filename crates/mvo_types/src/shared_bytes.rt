ghost use Rattle.std.specs.Prelude.{◌≡◌, IfOk, length};

use crate::block::Block;
use std::alloc::{AllocError, Global};
use std::fmt;
use std::marker::Model;

/// Bytes whose copies share them. Contracts see the list.
pub(crate) struct SharedBytes {
    block: Block,
}

impl Drop for SharedBytes {
    fn drop(self) {
        let SharedBytes { block: _ } = self;
    }
}

impl Model for SharedBytes {
    ghost use Rattle.std.specs.Prelude.{ℕ, List};
    ghost use Rattle.mvo_types.specs.Blocks.{block_bytes, IsBlock};

    ghost Value = { List ℕ };

    ghost view = { λ b. block_bytes b.block };

    ghost invariant = { λ b. IsBlock b.block };
}

impl SharedBytes {
    /// A copy of the bytes, with one owner.
    pub(crate) fn from_slice(alloc: Global, bytes: &[u8]) -> Result<SharedBytes, AllocError>
        ensures { IfOk result (λ b. b ≡ bytes.now) }
    {
        let block = Block::from_slice(alloc, bytes)?;
        Ok(SharedBytes { block })
    }

    /// The bytes.
    pub(crate) fn as_slice(&self) -> &[u8]
        ensures { result.now ≡ self.now }
    {
        self.block.as_slice()
    }

    /// How many there are.
    pub(crate) fn len(&self) -> usize
        ensures { result ≡ length self.now }
    {
        self.block.len()
    }

    /// One more owner of the bytes.
    pub(crate) fn share(&self) -> Result<SharedBytes, AllocError>
        ensures { IfOk result (λ b. b ≡ self.now) }
    {
        Ok(SharedBytes {
            block: self.block.share()?,
        })
    }
}

/// Written as a list of bytes: how a copy holds them says nothing to who reads it.
impl fmt::Debug for SharedBytes {
    fn fmt<W: fmt::Write>(&self, f: &mut fmt::Formatter<W>) -> fmt::Result {
        f.debug_list().entries(self.as_slice()).finish()
    }
}
