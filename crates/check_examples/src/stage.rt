//! What a command line runs over: files, and devices of which calls fail.

use crate::devices::{Failure, Input, NONE, Output};
use crate::files::bytes_of;
use crate::shelf::{Call, Troubled};
use anyhow::{Result, bail};
use kpn_cli::{Ports, SeenBytes, Speaker, System, command, words_for};
use std::alloc::Global;
use std::io::{ErrorKind, Write};
use std::sync::Wait;
use std::thread::Threads;
use std::time::Clock;

/// Files, and which calls fail.
#[derive(Drop)]
pub(crate) struct Stage<S> {
    pub(crate) shelf: Troubled<S>,
    input: Failure,
    output: Failure,
    errors: Failure,
    /// Whether any call of the shelf or of a device may fail.
    may_fail: bool,
}

impl<S> Stage<S> {
    /// No call fails.
    pub(crate) fn new(files: S) -> Stage<S> {
        Stage {
            shelf: Troubled {
                files,
                trouble: None,
            },
            input: NONE,
            output: NONE,
            errors: NONE,
            may_fail: false,
        }
    }

    /// From now on no call fails.
    fn mend(&mut self) {
        self.shelf.trouble = None;
        self.input = NONE;
        self.output = NONE;
        self.errors = NONE;
        self.may_fail = false;
    }
}

/// The failure that `AT` says: each call, or the one after `AT` that succeed.
fn failure_at(at: &str, kind: ErrorKind) -> Result<Failure> {
    let lasts = at == "each";
    let before = Some(if lasts { 0 } else { at.parse()? });
    Ok(Failure {
        before,
        lasts,
        kind,
    })
}

/// The call of a shelf that a word names.
fn call_of(word: &str) -> Result<Call> {
    Ok(match word {
        "load" => Call::Load,
        "store" => Call::Store,
        "same" => Call::IsSameFile,
        "ready" => Call::MakeReady,
        _ => bail!("no such call"),
    })
}

/// Lets the call fail that `PLACE AT` says, or none from now on.
pub(crate) fn fail<S>(
    alloc: Global,
    stage: &mut Stage<S>,
    words: &str,
    kind: ErrorKind,
) -> Result<()> {
    let Some((place, at)) = words.split_once(' ') else {
        stage.mend();
        return Ok(());
    };
    stage.may_fail = true;
    match place {
        "input" => stage.input = failure_at(at, kind)?,
        "output" => stage.output = failure_at(at, kind)?,
        "errors" => stage.errors = failure_at(at, kind)?,
        call => stage.shelf.trouble = Some((call_of(call)?, String::from_str(alloc, at)?)),
    }
    Ok(())
}

/// The words of a command line.
fn words_of(alloc: Global, line: &str) -> Result<Vec<String>> {
    let mut words = Vec::new(alloc);
    for word in line.split_whitespace() {
        words.push(String::from_str(alloc, word)?)?;
    }
    Ok(words)
}

// What stands in front of a command after which words follow.
const WITH_WORDS: &str = "--words always ";

/// Runs a command line, and returns what it wrote and, if it failed, its error lines and its status. If a call may
/// fail, the error lines follow in any case, apart from the rest. Words for a person follow, if they are wanted.
pub(crate) fn run<R: Threads + Wait + Clock + Sync + System + AllocGlobal, S: Ports>(
    rt: &R,
    alloc: Global,
    stage: &mut Stage<S>,
    line: &str,
) -> Result<Vec<u8>> {
    let bare = line.replace(alloc, WITH_WORDS, "")?;
    let words = words_of(alloc, bare.as_str())?;
    let bytes = bytes_of(alloc, &stage.shelf.files, "input");
    let mut input = Input::new(&bytes, stage.input);
    let mut out = Output::new(alloc, stage.output);
    let has_words = bare.as_str() != line;
    let mut errors = Speaker::new(
        alloc,
        rt,
        &words,
        Output::new(alloc, stage.errors),
        has_words,
    );
    let mut unsaid = Vec::new(alloc);
    let shelf = &mut stage.shelf;
    let status = command(
        rt,
        alloc,
        &words,
        shelf,
        &mut input,
        &mut out,
        &mut errors,
        &mut unsaid,
    );
    let known = SeenBytes {
        written: &out.kept,
        told: errors.kept(),
        said: errors.said(),
        unsaid: &unsaid,
        given: &bytes,
        count: bytes.len() as u64,
    };
    let said = if has_words {
        words_for(rt, &words, status, &known)
    } else {
        Vec::new(alloc)
    };
    let errors = errors.into_inner();
    if stage.may_fail && !errors.kept.is_empty() {
        out.kept.write_all(b"errors:\n")?;
    }
    if stage.may_fail || status != 0 {
        out.kept.write_all(&errors.kept)?;
    }
    out.kept.write_all(&said)?;
    if status != 0 {
        writeln!(out.kept, "status {status}")?;
    }
    let Output { kept, failure: _ } = out;
    Ok(kept)
}
