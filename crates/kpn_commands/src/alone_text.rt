//! The text that `kpn alone` writes of a run.
ghost use Rattle.std.specs.Prelude.{◌≡◌, IfOk};
ghost use Rattle.kpn_command_base.specs.Added.{Adds};
ghost use Rattle.kpn_commands.specs.AloneText.{alone_text, alone_fault_text};

use kpn_command_base::{Pushed, push_faulted};
use kpn_history::How;
use kpn_lang::Said;
use kpn_step::AloneStop;
use std::alloc::{AllocError, Global};

// The port whose items are written.
const OUT: usize = 0;

/// The items put on the one out port, each on a line of its own, and then `fault NAME CAUSE` if the process faulted.
pub fn text_of(
    alloc: Global,
    name: &str,
    talk: &[Said],
    stop: AloneStop,
) -> Result<Vec<u8>, AllocError>
    ensures { IfOk result (λ text. text.items ≡ alone_text name.now talk.now stop) }
{
    let mut text = String::new(alloc);
    for said in talk {
        if let Said::Put(OUT, item) = said {
            writeln!(text, "{item}")?;
        }
    }
    push_fault(&mut text, name, stop)?;
    Ok(text.into_bytes())
}

// How the process faulted, if it did.
fn push_fault(text: &mut String, name: &str, stop: AloneStop) -> Pushed
    ensures { Adds result text.old text.new (alone_fault_text name.now stop) }
{
    match stop {
        AloneStop::Faulted(fault) => push_faulted(text, name, How::from(fault)),
        _ => Ok(()),
    }
}
