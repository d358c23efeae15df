//! Shelves: the program finds and keeps files on them by name.
#![tactic(auto)]

ghost use Rattle.std.specs.Prelude.{◌≡◌, ◌≤◌, ℕ, List, true, Result as Answer, Ok, IfOk, IfErr, OnOk, vec_len};
ghost use Rattle.kpn_text_items.specs.declared.fault.ItemFault.{ItemFault as Fault};
ghost use Rattle.kpn_shelf.specs.Shelf.{IsRefusalOfLoad, KeepsOthers};

use kpn_limits::MAX_INPUT_BYTES;
use kpn_text_items::{ItemFault, WriteFault};
use std::alloc::{AllocError, Global};

mod file_input;
mod file_output;
mod file_ports;
mod files;
mod job;
mod look;
mod memory;
mod memory_ports;
mod opening;
mod patient;
mod place;
mod ports;
mod source;
mod standard;
mod target;
mod written;

pub use file_input::FileInput;
pub use file_output::FileOutput;
pub use file_ports::STANDARD;
pub use files::FileShelf;
pub use job::System;
pub use look::NonblockingRead;
pub use memory::MemoryShelf;
pub use memory_ports::MemoryInput;
pub use patient::Patient;
pub use ports::Ports;
pub use source::ThreadedInput;
pub use standard::{fill_standard, standard_input};

/// Files by name.
pub trait Shelf {
    /// What a load of a name may give: the bytes of a file, or why there are none.
    ghost may_give: { Self → List ℕ → Answer (List ℕ) Fault → Type 0 };

    /// Two names that may lead to one file.
    ghost may_alias: { Self → List ℕ → List ℕ → Type 0 } = { λ _ _ _. ⊥ };

    /// The bytes of a file. It fails as `Read` or `NoMemory`, never as `BadItem`.
    fn load(&self, alloc: Global, name: &str) -> Result<Vec<u8>, ItemFault>
        ensures given { IfOk result (λ bytes. may_give self.now name.now (Ok bytes.items)) }
        ensures within { IfOk result (λ bytes. vec_len bytes ≤ MAX_INPUT_BYTES) }
        ensures refused { IfErr result (IsRefusalOfLoad (may_give self.now) name.now) };

    /// Keeps bytes under a name, in place of what the name had. After a refusal nothing is known of what
    /// the name has. Other names keep what they had.
    fn store(&mut self, name: &str, bytes: &[u8]) -> Result<(), WriteFault>
        ensures stored { OnOk result (may_give self.new name.now (Ok bytes.now)) }
        ensures others { KeepsOthers (may_give self.old) (may_give self.new) name.now };

    /// Whether to store something under this name would change the file of the other one, though the
    /// names differ. It fails only for want of memory.
    fn is_same_file(&self, _name: &str, _other: &str) -> Result<bool, AllocError>
        ensures { IfOk result (λ same. same ≡ true → may_alias self.now _name.now _other.now) }
    {
        Ok(false)
    }

    /// Whether something that is stored under this name and something that is stored under the other one would be
    /// written into one file, though the names differ. It fails only for want of memory.
    fn is_one_output(&self, _name: &str, _other: &str) -> Result<bool, AllocError>
        ensures { IfOk result (λ one. one ≡ true → may_alias self.now _name.now _other.now) }
    {
        Ok(false)
    }

    /// Checks whether something can be stored under this name, as far as that shows before it is there,
    /// and makes ready for it. What the name has stays as it is. Several names may be ready at once.
    fn make_ready(&self, _name: &str) -> Result<(), WriteFault> {
        Ok(())
    }
}
