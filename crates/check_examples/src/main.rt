//! Command lines as a compared run. The program repeats each line of standard input after `$ `. A line is one of these:
//!
//! - `kpn WORDS`, a command line over the files in this folder. Below it comes what it wrote and, if it failed, its error
//!   line and its status. Its standard input is the file `input`, if there is one. After `kpn --words always WORDS`
//!   follow the words for a person.
//! - `first COUNT kpn WORDS`, a command line too. Only COUNT lines of what it wrote follow, since the rest of an audit
//!   of a run by workers depends on the order of their turns.
//! - `file NAME TEXT` makes a file. In the text `\n`, `\r` and `\0` are bytes that no line can have.
//! - `many NAME COUNT TEXT` puts such a text COUNT times after what the file holds.
//! - `cat NAME`: what the file holds follows.
//! - `fail PLACE AT`: in each command line below, a call fails of its `input`, its `output` or its place for `errors`.
//!   AT is how many calls succeed before that one, or `each` if all fail. Then an input gives its bytes one by one.
//!   `interrupt PLACE AT` is a failure by a signal, and `leave PLACE AT` one since the reader has gone.
//! - `fail CALL NAME`: this call for files fails for this name, `load`, `store` or `ready`, which asks whether a file
//!   can be stored. `fail same NAME`: each name is taken for one file with this one. `fail nothing` ends all that.
//!   Until then error lines stand below a line `errors:`, also if the command succeeds.
//! - `keep NAME TEXT` makes a file on a shelf in memory. What that then holds under the name `a` follows, what a look
//!   shows of it, and what is left in an output that is emptied.
//! - `tell refusals`: how each refusal is reported that no command line causes here.
//! - `# TEXT`, a heading, which stands without `$ `.
//!
//! Another program (tools/examples.py) computed what the lines below the heading `# The examples` must write. For those
//! above it the answers were written or checked by hand.
#![tactic(auto)]

mod devices;
mod files;
mod memory;
mod refusals;
mod shelf;
mod stage;

use crate::files::{bytes_of, extend_file, make_file};
use crate::memory::keep;
use crate::refusals::tell_refusals;
use crate::stage::{Stage, fail, run};
use anyhow::Result;
use kpn_cli::{FileShelf, Ports, System};
use std::alloc::Global;
use std::io::{ErrorKind, Write};
use std::sync::Wait;
use std::thread::Threads;
use std::time::Clock;

/// Runs the command line of `COUNT kpn WORDS`, and writes the first lines of what it wrote.
fn run_first<R: Threads + Wait + Clock + Sync + System + AllocGlobal, S: Ports, O: Write>(
    rt: &R,
    alloc: Global,
    stage: &mut Stage<S>,
    out: &mut O,
    rest: &str,
) -> Result<()> {
    let Some((count, line)) = rest.split_once(' ') else {
        return Ok(());
    };
    let text = run(rt, alloc, stage, line)?;
    let text = str::from_utf8(&text)?;
    for line in text.lines().take(count.parse()?) {
        writeln!(out, "{line}")?;
    }
    Ok(())
}

/// Does what a line says, and writes what follows.
fn happen<R: Threads + Wait + Clock + Sync + System + AllocGlobal, S: Ports, O: Write>(
    rt: &R,
    alloc: Global,
    stage: &mut Stage<S>,
    out: &mut O,
    line: &str,
) -> Result<()> {
    match line.split_once(' ') {
        Some(("file", rest)) => make_file(alloc, &mut stage.shelf.files, rest)?,
        Some(("many", rest)) => extend_file(alloc, &mut stage.shelf.files, rest)?,
        Some(("cat", name)) => out.write_all(&bytes_of(alloc, &stage.shelf.files, name))?,
        Some(("first", rest)) => run_first(rt, alloc, stage, out, rest)?,
        Some(("fail", rest)) => fail(alloc, stage, rest, ErrorKind::Other)?,
        Some(("interrupt", rest)) => fail(alloc, stage, rest, ErrorKind::Interrupted)?,
        Some(("leave", rest)) => fail(alloc, stage, rest, ErrorKind::BrokenPipe)?,
        Some(("keep", rest)) => keep(alloc, out, rest)?,
        Some(("tell", _)) => tell_refusals(alloc, out)?,
        _ => out.write_all(&run(rt, alloc, stage, line)?)?,
    }
    Ok(())
}

fn main(rt: HostRuntime) -> Result<()> {
    let mut out = rt.stdout();
    let mut stage = Stage::new(FileShelf::new(&rt));
    for line in rt.lines(rt.alloc()) {
        let line = line?;
        if line.starts_with('#') {
            writeln!(out, "{line}")?;
            continue;
        }
        writeln!(out, "$ {line}")?;
        happen(&rt, rt.alloc(), &mut stage, &mut out, line.as_str())?;
    }
    Ok(())
}
