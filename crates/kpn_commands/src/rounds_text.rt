//! The text that `kpn rounds` writes: the list of each channel.
ghost use Rattle.std.specs.Prelude.{◌≡◌, IfOk};
ghost use Rattle.kpn_commands.specs.RoundsText.{rounds_text};

use kpn_command_base::push_list;
use kpn_lang::Sequence;
use kpn_text::Document;
use std::alloc::{AllocError, Global};

/// A line for each channel in order of number: `NAME:` and the items of its list, with a space before
/// each item.
pub fn text_of(
    alloc: Global,
    document: &Document,
    lists: &[Sequence<i64>],
) -> Result<Vec<u8>, AllocError>
    ensures { IfOk result (λ text. text.items ≡ rounds_text document.now.names.channels lists.now) }
{
    let mut text = String::new(alloc);
    for (channel, list) in lists.iter().enumerate() {
        push_list(&mut text, document.channel_name(channel), list.as_slice())?;
    }
    Ok(text.into_bytes())
}
