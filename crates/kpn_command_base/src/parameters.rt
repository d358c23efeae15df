//! The parameters of an instance, with their names and values.
ghost use Rattle.std.specs.Prelude.{◌<◌, length};

use kpn_text::Document;
use std::alloc::{AllocError, Global};

/// ` NAME=VALUE` for each parameter of instance `p`, in order.
pub fn parameters_of(alloc: Global, document: &Document, p: usize) -> Result<String, AllocError>
    requires { p < length document.now.tables.instances }
{
    let network = document.network();
    let process = network.program_number(p);
    let mut text = String::new(alloc);
    for (k, value) in network.pars(p).iter().enumerate() {
        let name = str::from_utf8(document.variable_name(process, k)).unwrap_or("?");
        write!(text, " {name}={value}")?;
    }
    Ok(text)
}
