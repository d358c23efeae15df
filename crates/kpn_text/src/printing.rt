//! Printing a document as the canonical text of its description.

ghost use Rattle.std.specs.Prelude.{◌≡◌, ◌≤◌, length, IfOk};
ghost use Rattle.kpn_limits.specs.declared.TheConstants.{MAX_TEXT_BYTES};
ghost use Rattle.kpn_text.specs.Document as spec;
ghost use Rattle.kpn_text.specs.Spells.{SpellsDocument};

use crate::document::Document;
use crate::laws::read_again;
use crate::networks::canonical_text;
use std::alloc::{AllocError, Global};

/// The canonical text of a document, in its language. It has two spaces for each level, one statement or item on each
/// line, and a line feed after each line. It has no comments, no leading zeros, and no more words than it needs. If it
/// is no longer than a description may be, it is read as the same document.
pub fn print_network(alloc: Global, document: &Document) -> Result<Vec<u8>, AllocError>
    ensures canonical { IfOk result (λ text. text.items ≡ spec.canonical_text document.now) }
    ensures again { IfOk result (λ text.
        length text.items ≤ MAX_TEXT_BYTES → SpellsDocument text.items document.now) }
{
    document.known();
    read_again();
    canonical_text(
        alloc,
        document.language(),
        document.network(),
        document.names(),
    )
}
