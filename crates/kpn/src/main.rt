//! The program `kpn`: the command line over the system's files, its standard input and its two outputs. After what a
//! command tells stand words for a person, if they are wanted.
#![tactic(auto)]

use kpn_cli::{BeginningKeeper, EndKeeper, SeenBytes, Speaker, WordsWanted, command, words_for};
use kpn_command_base::Refusal;
use kpn_shelf::{FileShelf, Patient, fill_standard, standard_input};
use std::env;
use std::io::{ErrorKind, Write};
use std::process::ExitCode;
use std::rt::Env;

// The option that says when words follow. It stands in front of the command.
const WORDS_OPTION: &str = "--words";

// The variable of the environment that says it without the option.
const WORDS_VARIABLE: &str = "KPN_WORDS";

fn main(rt: HostRuntime) -> ExitCode {
    fill_standard(&rt);
    let mut words = match words(&rt) {
        Ok(words) => words,
        Err(refusal) => {
            return ExitCode::from(refusal.report(&mut Patient::new(&rt, rt.stderr())));
        }
    };
    let Some(wanted) = take_wanted(&rt, &mut words) else {
        return ExitCode::from(refuse(&mut Patient::new(&rt, rt.stderr())));
    };
    let has_words = wanted.holds(&rt);
    let mut input = BeginningKeeper::new(rt.alloc(), standard_input(&rt, rt.stdin()));
    let mut out = EndKeeper::new(rt.alloc(), Patient::new(&rt, rt.stdout()), has_words);
    let place = Patient::new(&rt, rt.stderr());
    let mut err = Speaker::new(rt.alloc(), &rt, &words, place, has_words);
    let mut unsaid = Vec::new(rt.alloc());
    let status = command(
        &rt,
        rt.alloc(),
        &words,
        &mut FileShelf::new(&rt),
        &mut input,
        &mut out,
        &mut err,
        &mut unsaid,
    );
    if has_words {
        let known = SeenBytes {
            written: out.kept(),
            told: err.kept(),
            said: err.said(),
            unsaid: &unsaid,
            given: input.given(),
            count: input.count(),
        };
        let said = words_for(&rt, &words, status, &known);
        let _ = err.write_all(&said);
        let _ = err.flush();
    }
    ExitCode::from(status)
}

// When words are wanted. If the first two words after the program's name say it, they are taken out.
fn take_wanted(rt: &(impl Env + AllocGlobal), words: &mut Vec<String>) -> Option<WordsWanted> {
    if words.len() < 2 || words[1].as_str() != WORDS_OPTION {
        return Some(usually_wanted(rt));
    }
    if words.len() < 3 {
        return None;
    }
    let wanted = WordsWanted::of_word(words[2].as_str());
    words.remove(2);
    words.remove(1);
    wanted
}

// When words are wanted without the option. Another word in the variable says nothing.
fn usually_wanted(rt: &(impl Env + AllocGlobal)) -> WordsWanted {
    match env::var(rt, WORDS_VARIABLE) {
        Ok(word) => WordsWanted::of_word(word.as_str()).unwrap_or(WordsWanted::Terminal),
        Err(_) => WordsWanted::Terminal,
    }
}

// Tells how to say when words are wanted, and returns the status.
fn refuse<E: Write>(err: &mut E) -> u8 {
    let _ = err.write_all(
        b"kpn: usage: --words always, never or terminal, in front of the command\n",
    );
    let _ = err.flush();
    2
}

// The words of the command line, the program's name first.
fn words(rt: &(impl Env + AllocGlobal)) -> Result<Vec<String>, Refusal> {
    let words = env::args(rt).map_err(|error| match error.kind() {
        ErrorKind::OutOfMemory => Refusal::NoMemory,
        _ => Refusal::NotText,
    })?;
    Ok(words.collect(rt.alloc())?)
}
