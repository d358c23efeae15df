//! Inputs and outputs that are read and written piece by piece.
ghost use Rattle.std.specs.Prelude.{◌≡◌, false, true, ℕ, List, [], IfOk, IfSome, OnOk, Ok};

use crate::Shelf;
use crate::look::NonblockingRead;
use kpn_text_items::{ItemFault, WriteFault};
use std::io::Write;

/// Files by name that are also read and written piece by piece.
pub trait Ports: Shelf {
    type Input: NonblockingRead + Drop;

    type Output: Write + Drop;

    /// The name by which an input was opened.
    ghost comes_from: { Self.Input → List ℕ };

    /// The name by which an output was opened.
    ghost goes_to: { Self.Output → List ℕ };

    /// Two inputs of these names each have all that is there: no byte goes to one of them alone.
    ghost are_two_inputs: { Self → List ℕ → List ℕ → Type 0 };

    /// Two inputs of these names may be one device, whose bytes go to one reader only.
    ghost may_share: { Self → List ℕ → List ℕ → Type 0 };

    /// Opens an input, and waits for nobody: an input that waits for somebody who writes does so at its first read. It
    /// fails as `Read` or `NoMemory`.
    fn open_input(&self, name: &str) -> Result<Self::Input, ItemFault>
        ensures given { IfOk result (λ input.
            IfSome (Self.Input.remaining input) (λ bytes. Self.may_give self.now name.now (Ok bytes))) }
        ensures named { IfOk result (λ input. comes_from input ≡ name.now) };

    /// Opens an output, and waits for nobody: an output that waits for somebody who reads does so at its first write,
    /// or where it is dropped. A file keeps what it holds. Nobody else writes it from now on.
    fn open_output(&self, name: &str) -> Result<Self::Output, WriteFault>
        ensures named { IfOk result (λ output. goes_to output ≡ name.now) };

    /// Removes what a plain file held. It is called before the first write, and once all outputs are open.
    fn empty(&self, output: &mut Self::Output) -> Result<(), WriteFault>
        ensures named { goes_to output.new ≡ goes_to output.old }
        ensures empty { OnOk result (IfSome (Self.Output.contents output.new) (λ bytes. bytes ≡ [])) };

    /// Whether the inputs of two names are one device, whose bytes go to one reader only: a pipe, a FIFO, a terminal or
    /// another device. All who open a plain file read all of it. `-` is standard input, which has one reader.
    fn is_one_input(&self, name: &str, other: &str) -> bool
        ensures two { result ≡ false → are_two_inputs self.now name.now other.now }
        ensures one { result ≡ true → may_share self.now name.now other.now };
}
