// The blocks of a provider in memory, by object and stripe.
ghost use Rattle.std.specs.Prelude.{◌≡◌, ◌↔◌, ◌<◌, slice_set, option_copied, None, Some, true, false, length, OnOk, OnErr, IsSome, IsTrue, if◌then◌else◌};
ghost use Rattle.device_defs.specs.Providers.{with_block, without_block, without_object, with_symbol, HasPlace, HasSize};
ghost use Rattle.provider_model.specs.HeldBlocks.{blocks_of};

use hail_field::Symbol;
use std::alloc::{AllocError, Global};
use std::collections::BTreeMap;

/// Blocks by object and stripe, found in logarithmic time.
#[derive(Drop)]
pub struct HeldBlocks {
    blocks: BTreeMap<(u64, u32), Vec<Symbol>>,
}

/// Replaces the symbol at a place, and answers whether there is one.
fn put_symbol(block: &mut [Symbol], place: usize, symbol: Symbol) -> bool
    ensures there { IsTrue result ↔ (place < length block.old) }
    ensures put { block.new ≡ (if result then slice_set block.old place symbol else block.old) }
{
    if place < block.len() {
        block[place] = symbol;
        true
    } else {
        false
    }
}

impl HeldBlocks {
    /// No block is held.
    pub fn new(alloc: Global) -> HeldBlocks
        ensures { blocks_of result ≡ (λ object stripe. None) }
    {
        HeldBlocks {
            blocks: BTreeMap::new(alloc),
        }
    }

    /// A held block.
    pub fn at(&self, object: u64, stripe: u32) -> Option<&[Symbol]>
        ensures { option_copied result ≡ blocks_of self.now object stripe }
    {
        match self.blocks.get(&(object, stripe)) {
            Some(block) => Some(block.as_slice()),
            None => None,
        }
    }

    /// Copies a held block of that size, and answers whether there is one.
    pub fn copy(&self, object: u64, stripe: u32, out: &mut [Symbol]) -> bool
        ensures found { IsTrue result ↔ HasSize (length out.old) (blocks_of self.now object stripe) }
        ensures block { IsTrue result → blocks_of self.now object stripe ≡ Some out.new }
        ensures not_found { result ≡ false → out.new ≡ out.old }
    {
        match self.at(object, stripe) {
            Some(block) if block.len() == out.len() => {
                out.copy_from_slice(block);
                true
            }
            _ => false,
        }
    }

    /// Sets one block.
    pub fn set(
        &mut self,
        alloc: Global,
        object: u64,
        stripe: u32,
        block: &[Symbol],
    ) -> Result<(), AllocError>
        ensures ok { OnOk result (blocks_of self.new ≡ with_block object stripe block.now
            (blocks_of self.old)) }
        ensures err { OnErr result (blocks_of self.new ≡ blocks_of self.old) }
    {
        let block = block.to_vec(alloc)?;
        self.blocks.insert((object, stripe), block)?;
        Ok(())
    }

    /// Takes away all blocks of an object.
    pub fn take_object(&mut self, object: u64)
        ensures { blocks_of self.new ≡ without_object object (blocks_of self.old) }
    {
        self.blocks.retain(|place, _| place.0 != object);
    }

    /// Takes away one block, and answers whether it was there.
    pub fn take_block(&mut self, object: u64, stripe: u32) -> bool
        ensures there { IsTrue result ↔ IsSome (blocks_of self.old object stripe) }
        ensures held { blocks_of self.new
            ≡ (if result then without_block object stripe (blocks_of self.old) else blocks_of self.old) }
    {
        self.blocks.remove(&(object, stripe)).is_some()
    }

    /// Replaces one symbol, and answers whether it was there.
    pub fn put(&mut self, object: u64, stripe: u32, place: u32, symbol: Symbol) -> bool
        ensures there { IsTrue result ↔ HasPlace (blocks_of self.old object stripe) place }
        ensures held { blocks_of self.new
            ≡ (if result then with_symbol object stripe place symbol (blocks_of self.old)
            else blocks_of self.old) }
    {
        match self.blocks.get_mut(&(object, stripe)) {
            Some(block) => put_symbol(block, place as usize, symbol),
            None => false,
        }
    }
}
