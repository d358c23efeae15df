//! The line that says how many parts a network has, and the parameters of an instance.

ghost use Rattle.std.specs.Prelude.{◌≡◌, IfOk};
ghost use Rattle.kpn_command_base.specs.Counts.{summary_text};

use kpn_text::Document;
use std::alloc::{AllocError, Global};

/// `ok: P processes, I instances, C channels`, and a line feed.
pub fn summary(alloc: Global, document: &Document) -> Result<Vec<u8>, AllocError>
    ensures { IfOk result (λ text. text.items ≡ summary_text document.now) }
{
    let network = document.network();
    let processes = network.programs();
    let instances = network.instances();
    let channels = network.channels();
    let line = format!(in alloc;
        "ok: {processes} processes, {instances} instances, {channels} channels\n"
    )?;
    Ok(line.into_bytes())
}
