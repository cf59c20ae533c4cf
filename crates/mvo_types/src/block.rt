ghost use Rattle.std.specs.Prelude.{◌≡◌, ◌≤◌, length, take, IfOk};
ghost use Rattle.std.specs.Arc.{arc_value};
ghost use Rattle.mvo_types.specs.Blocks.{block_bytes, IsBlock};

use std::alloc::{AllocError, Global};
use std::sync::Arc;

/// Where bytes lie whose copies share them, by how many they are. Up to 112 lie in one block of
/// memory with the count of their owners, so who counts as an owner has fetched them, and their
/// number stands beside the pointer. With the count and the 8 bytes that an allocator keeps of its
/// own for each block these sizes are multiples of 16, by which allocators go. More bytes lie in a
/// block of their own.
#[derive(Drop)]
pub(crate) enum Block {
    UpTo16(u8, Arc<[u8; 16]>),
    UpTo32(u8, Arc<[u8; 32]>),
    UpTo48(u8, Arc<[u8; 48]>),
    UpTo64(u8, Arc<[u8; 64]>),
    UpTo80(u8, Arc<[u8; 80]>),
    UpTo96(u8, Arc<[u8; 96]>),
    UpTo112(u8, Arc<[u8; 112]>),
    Longer(Arc<Vec<u8>>),
}

/// A block that begins with the bytes.
fn beside_count<const N: usize>(alloc: Global, bytes: &[u8]) -> Result<Arc<[u8; N]>, AllocError>
    requires { length bytes.now ≤ N }
    ensures bytes { IfOk result (λ b. take (length bytes.now) (arc_value b) ≡ bytes.now) }
    ensures len { IfOk result (λ b. length (arc_value b) ≡ N) }
{
    let mut block = [0; N];
    block[..bytes.len()].copy_from_slice(bytes);
    Ok(Arc::new(alloc, block)?)
}

/// So many bytes of a block, from its first one on.
fn beginning<const N: usize>(block: &Arc<[u8; N]>, len: u8) -> &[u8]
    requires { len ≤ length (arc_value block.now) }
    ensures { result.now ≡ take len (arc_value block.now) }
{
    &block.as_slice()[..len as usize]
}

impl Block {
    /// A copy of the bytes, with one owner.
    pub(crate) fn from_slice(alloc: Global, bytes: &[u8]) -> Result<Block, AllocError>
        ensures bytes { IfOk result (λ b. block_bytes b ≡ bytes.now) }
        ensures block { IfOk result (λ b. IsBlock b) }
    {
        Ok(match bytes.len() {
            0..=16 => Block::UpTo16(bytes.len() as u8, beside_count(alloc, bytes)?),
            17..=32 => Block::UpTo32(bytes.len() as u8, beside_count(alloc, bytes)?),
            33..=48 => Block::UpTo48(bytes.len() as u8, beside_count(alloc, bytes)?),
            49..=64 => Block::UpTo64(bytes.len() as u8, beside_count(alloc, bytes)?),
            65..=80 => Block::UpTo80(bytes.len() as u8, beside_count(alloc, bytes)?),
            81..=96 => Block::UpTo96(bytes.len() as u8, beside_count(alloc, bytes)?),
            97..=112 => Block::UpTo112(bytes.len() as u8, beside_count(alloc, bytes)?),
            _ => Block::Longer(Arc::new(alloc, Vec::from_slice(alloc, bytes)?)?),
        })
    }

    /// The bytes.
    pub(crate) fn as_slice(&self) -> &[u8]
        requires { IsBlock self.now }
        ensures { result.now ≡ block_bytes self.now }
    {
        match self {
            Block::UpTo16(len, block) => beginning(block, *len),
            Block::UpTo32(len, block) => beginning(block, *len),
            Block::UpTo48(len, block) => beginning(block, *len),
            Block::UpTo64(len, block) => beginning(block, *len),
            Block::UpTo80(len, block) => beginning(block, *len),
            Block::UpTo96(len, block) => beginning(block, *len),
            Block::UpTo112(len, block) => beginning(block, *len),
            Block::Longer(bytes) => bytes.as_slice(),
        }
    }

    /// How many there are.
    pub(crate) fn len(&self) -> usize
        requires { IsBlock self.now }
        ensures { result ≡ length (block_bytes self.now) }
    {
        match self {
            Block::UpTo16(len, _)
            | Block::UpTo32(len, _)
            | Block::UpTo48(len, _)
            | Block::UpTo64(len, _)
            | Block::UpTo80(len, _)
            | Block::UpTo96(len, _)
            | Block::UpTo112(len, _) => *len as usize,
            Block::Longer(bytes) => bytes.len(),
        }
    }

    /// One more owner of the bytes.
    pub(crate) fn share(&self) -> Result<Block, AllocError>
        requires { IsBlock self.now }
        ensures bytes { IfOk result (λ b. block_bytes b ≡ block_bytes self.now) }
        ensures block { IfOk result (λ b. IsBlock b) }
    {
        Ok(match self {
            Block::UpTo16(len, block) => Block::UpTo16(*len, block.clone()?),
            Block::UpTo32(len, block) => Block::UpTo32(*len, block.clone()?),
            Block::UpTo48(len, block) => Block::UpTo48(*len, block.clone()?),
            Block::UpTo64(len, block) => Block::UpTo64(*len, block.clone()?),
            Block::UpTo80(len, block) => Block::UpTo80(*len, block.clone()?),
            Block::UpTo96(len, block) => Block::UpTo96(*len, block.clone()?),
            Block::UpTo112(len, block) => Block::UpTo112(*len, block.clone()?),
            Block::Longer(bytes) => Block::Longer(bytes.clone()?),
        })
    }
}
