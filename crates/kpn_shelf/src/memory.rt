//! A shelf in memory.
ghost use Rattle.std.specs.Prelude.{◌≡◌, ◌≤◌, ℕ, List, Some, None, IfOk, IfErr, OnOk, OnErr, vec_len};
ghost use Rattle.kpn_shelf.specs.Shelf.{IsRefusalOfLoad, KeepsOthers};
ghost use Rattle.kpn_shelf.specs.MemoryShelf.{held, may_give_held, HoldsTheSame, HoldsTheSameBut};

use crate::Shelf;
use kpn_limits::MAX_INPUT_BYTES;
use kpn_text_items::{ItemFault, WriteFault};
use std::alloc::{AllocError, Global};
use std::collections::BTreeMap;

/// Files that are held in memory, which the allocator of the constructor gives.
#[derive(Drop)]
pub struct MemoryShelf {
    pub(crate) alloc: Global,
    files: BTreeMap<String, Vec<u8>>,
}

impl MemoryShelf {
    /// A shelf that holds nothing. It takes no memory.
    pub fn new(alloc: Global) -> MemoryShelf
        ensures { (name : List ℕ) → held result name ≡ None }
    {
        MemoryShelf {
            alloc,
            files: BTreeMap::new(alloc),
        }
    }

    fn put(&mut self, name: &str, bytes: &[u8]) -> Result<(), AllocError>
        ensures stored { OnOk result (held self.new name.now ≡ Some bytes.now) }
        ensures unchanged { OnErr result (HoldsTheSame self.old self.new) }
        ensures others { HoldsTheSameBut name.now self.old self.new }
    {
        let name = String::from_str(self.alloc, name)?;
        let bytes = Vec::from_slice(self.alloc, bytes)?;
        self.files.insert(name, bytes)?;
        Ok(())
    }
}

impl Shelf for MemoryShelf {
    ghost may_give = { may_give_held };

    /// What it holds; `Read` if it holds nothing under the name, or more than `MAX_INPUT_BYTES` bytes.
    fn load(&self, alloc: Global, name: &str) -> Result<Vec<u8>, ItemFault>
        ensures given { IfOk result (λ bytes. held self.now name.now ≡ Some bytes.items) }
        ensures within { IfOk result (λ bytes. vec_len bytes ≤ MAX_INPUT_BYTES) }
        ensures refused { IfErr result (IsRefusalOfLoad (may_give_held self.now) name.now) }
    {
        let bytes = self.files.get(name).ok_or(ItemFault::Read)?;
        if bytes.len() > MAX_INPUT_BYTES {
            return Err(ItemFault::Read);
        }
        Vec::from_slice(alloc, bytes).map_err(|_| ItemFault::NoMemory)
    }

    /// Puts the bytes under the name. Without memory it holds what it held.
    fn store(&mut self, name: &str, bytes: &[u8]) -> Result<(), WriteFault>
        ensures stored { OnOk result (held self.new name.now ≡ Some bytes.now) }
        ensures others { KeepsOthers (may_give_held self.old) (may_give_held self.new) name.now }
        ensures kept { HoldsTheSameBut name.now self.old self.new }
        ensures unchanged { OnErr result (HoldsTheSame self.old self.new) }
    {
        self.put(name, bytes).map_err(|_| WriteFault::NoMemory)
    }
}
