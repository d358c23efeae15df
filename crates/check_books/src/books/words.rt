//! The words of a call.
use anyhow::{Result, bail};
use std::alloc::Global;

/// A call of a book, or steps to make for one.
#[derive(Clone, Copy)]
pub(crate) enum Call {
    Claim,
    Onward(usize),
    Twin(usize, usize),
    Commit(usize, usize),
    PutBack(usize),
    Feed(usize, i64, usize),
    Close(usize),
    Take(usize),
    Leave(usize),
    Begins(usize, i64),
    View,
}

/// The call that a line names.
pub(crate) fn call_of(alloc: Global, line: &str) -> Result<Call> {
    let words: Vec<&str> = line.split_whitespace().collect(alloc)?;
    named(&words)
}

fn named(words: &[&str]) -> Result<Call> {
    Ok(match words {
        ["claim"] => Call::Claim,
        ["onward", number] => Call::Onward(number.parse()?),
        ["twin", process, number] => Call::Twin(process.parse()?, number.parse()?),
        ["commit", process, number] => Call::Commit(process.parse()?, number.parse()?),
        ["put-back", process] => Call::PutBack(process.parse()?),
        ["feed", source, item, bound] => {
            Call::Feed(source.parse()?, item.parse()?, bound.parse()?)
        }
        ["close", source] => Call::Close(source.parse()?),
        ["take", sink] => Call::Take(sink.parse()?),
        ["leave", sink] => Call::Leave(sink.parse()?),
        ["begins", channel, item] => Call::Begins(channel.parse()?, item.parse()?),
        ["view"] => Call::View,
        _ => bail!("there is no such call"),
    })
}
