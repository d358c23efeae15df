//! The words of a command line, read by `clap`.
ghost use Rattle.std.specs.Prelude.{◌≡◌, ℕ, List, [], None, Some, IfOk, MatchResult, map, option_map, unwrap_or, codes};
ghost use Rattle.std.specs.String.{string_bytes};
ghost use Rattle.clap.specs.Words.{kind_of, fault_of, found_of, rows_of, subcommand_of};
ghost use Rattle.clap.specs.Words.{subcommand_rows_of};
ghost use Rattle.kpn_command_line.specs.CommandLine.{command_line};
ghost use Rattle.kpn_command_line.specs.Asked.{IsAsked, IsRefused, IsHelpOfKind, IsRefusalOfKind};
ghost use Rattle.kpn_command_line.specs.Asked.{AnswersTo, IsUsageIf, IsNoTable, NamesCommand, rows_in};
ghost use Rattle.kpn_command_line.specs.Asked.{text_for, texts_for, number_for, is_set, table_name};
ghost use Rattle.kpn_command_line.specs.Asked.{is_across};

use crate::command_line::{
    ACROSS, CHANNELS, CLIP, FILE, FORMAT, FROM, ITEMS, MAX_COMMITS, NAME, PARTS, QUIET, RATE,
    ROUNDS, SINK, SOURCE, STATS, STEPS, STOP_ON_FAULT, STRICT, SVG, TABLE, TAKE, TO, TRACE,
    WORKERS, program,
};
use crate::request::{Request, WordsFault};
use clap::error::ErrorKind;
use clap::{ArgMatches, Command, Error};
use kpn_command_base::{Direction, RunRequest, StatsTables, StreamRequest};
use kpn_limits::{MAX_COUNT, USUAL_COUNT};
use std::alloc::{AllocError, Global};

/// What the words ask for, or why the program can't do it.
pub fn read_words<'a>(alloc: Global, words: &'a [String]) -> Result<Request<'a>, WordsFault>
    ensures { MatchResult result (IsAsked (map string_bytes words.now)) (IsRefused (map string_bytes words.now)) }
{
    let mut program = program(alloc)?;
    match program.try_get_matches_from_mut(words) {
        Ok(matches) => request_of(alloc, &mut program, &matches),
        Err(error) => not_matched(error),
    }
}

// What words ask for if `clap` matches them with no command: help or the version, or nothing.
fn not_matched<'a>(error: Error) -> Result<Request<'a>, WordsFault>
    ensures { MatchResult result (IsHelpOfKind (kind_of error)) (IsRefusalOfKind (kind_of error)) }
{
    match error.kind() {
        ErrorKind::DisplayHelp | ErrorKind::DisplayVersion => Ok(Request::Help(error)),
        ErrorKind::OutOfMemory => Err(WordsFault::NoMemory),
        _ => Err(WordsFault::Usage(error)),
    }
}

// What a command line asks for if `clap` matches it.
fn request_of<'a>(
    alloc: Global,
    program: &mut Command<'a>,
    matches: &ArgMatches<'a>,
) -> Result<Request<'a>, WordsFault>
    ensures { (words : List (List ℕ)) → fault_of command_line words ≡ []
        → subcommand_rows_of matches.now ≡ subcommand_of command_line words
        → MatchResult result (IsAsked words) (IsRefused words) }
{
    match matches.subcommand() {
        Some((command, given)) => command_request(alloc, program, command, given),
        None => Err(without_command(program)),
    }
}

// What the words ask of a command, by its name and what they give to it.
fn command_request<'a>(
    alloc: Global,
    program: &mut Command<'a>,
    command: &str,
    given: &ArgMatches<'a>,
) -> Result<Request<'a>, WordsFault>
    ensures { AnswersTo command.now (rows_in given.now) result }
{
    match command {
        "alone" => Ok(Request::Alone(required(program, given, NAME)?)),
        "check" => Ok(Request::Check(required(program, given, FILE)?)),
        "explain" => explain_request(program, given),
        "print" => Ok(Request::Print(required(program, given, FILE)?)),
        "draw" => Ok(Request::Draw {
            file: required(program, given, FILE)?,
            trace: text_of(given, TRACE),
            direction: direction_of(given),
        }),
        "rounds" => rounds_request(alloc, program, given),
        "run" => run_request(alloc, program, given),
        "stream" => stream_request(alloc, program, given),
        "audit" => Ok(Request::Audit {
            file: required(program, given, FILE)?,
            trace: required(program, given, TRACE)?,
            steps: count_or_usual(given, STEPS),
        }),
        "join" => join_request(alloc, program, given),
        "stats" => stats_request(program, given),
        "timeline" => timeline_request(program, given),
        _ => Err(without_command(program)),
    }
}

// The fault of words that name no command.
fn without_command(program: &mut Command<'_>) -> WordsFault {
    unclear(program, ErrorKind::MissingSubcommand, "a command is needed")
}

// The fault of words that are not understood. The message says why.
fn unclear(program: &mut Command<'_>, kind: ErrorKind, message: &str) -> WordsFault {
    match program.error(kind, message) {
        Ok(error) => WordsFault::Usage(error),
        Err(_) => WordsFault::NoMemory,
    }
}

// What the words ask of `kpn explain`. Items have no trace.
fn explain_request<'a>(
    program: &mut Command<'a>,
    explain: &ArgMatches<'a>,
) -> Result<Request<'a>, WordsFault>
    ensures { AnswersTo (codes "explain") (rows_in explain.now) result }
{
    let file = required(program, explain, FILE)?;
    let trace = text_of(explain, TRACE);
    let steps = count_or_usual(explain, STEPS);
    if !is_set(explain, ITEMS) {
        return Ok(Request::Explain { file, trace, steps });
    }
    match trace {
        None => Ok(Request::ExplainItems(file)),
        Some(_) => Err(unclear(
            program,
            ErrorKind::ArgumentConflict,
            "with --items there is no TRACE",
        )),
    }
}

// The direction of a drawing.
fn direction_of(draw: &ArgMatches<'_>) -> Direction
    ensures { is_set (codes "ACROSS") (rows_in draw.now) ≡ is_across result }
{
    if is_set(draw, ACROSS) {
        Direction::TopToBottom
    } else {
        Direction::LeftToRight
    }
}

// What the words ask of `kpn rounds`.
fn rounds_request<'a>(
    alloc: Global,
    program: &mut Command<'a>,
    rounds: &ArgMatches<'a>,
) -> Result<Request<'a>, WordsFault>
    ensures { AnswersTo (codes "rounds") (rows_in rounds.now) result }
{
    let Some(n) = number_of(rounds, ROUNDS) else {
        return Err(unclear(program, ErrorKind::MissingRequiredArgument, ROUNDS));
    };
    Ok(Request::Rounds {
        file: required(program, rounds, FILE)?,
        n,
        sources: texts_of(alloc, rounds, SOURCE)?,
    })
}

// What the words ask of `kpn run`.
fn run_request<'a>(
    alloc: Global,
    program: &mut Command<'a>,
    run: &ArgMatches<'a>,
) -> Result<Request<'a>, WordsFault>
    ensures { AnswersTo (codes "run") (rows_in run.now) result }
{
    Ok(Request::Run(RunRequest {
        file: required(program, run, FILE)?,
        sources: texts_of(alloc, run, SOURCE)?,
        sinks: texts_of(alloc, run, SINK)?,
        commits: count_or_usual(run, MAX_COMMITS),
        take: count_of(run, TAKE),
        trace: text_of(run, TRACE),
        workers: number_of(run, WORKERS),
        quiet: is_set(run, QUIET),
        strict: is_set(run, STRICT),
    }))
}

// What the words ask of `kpn stream`.
fn stream_request<'a>(
    alloc: Global,
    program: &mut Command<'a>,
    stream: &ArgMatches<'a>,
) -> Result<Request<'a>, WordsFault>
    ensures { AnswersTo (codes "stream") (rows_in stream.now) result }
{
    Ok(Request::Stream(StreamRequest {
        file: required(program, stream, FILE)?,
        sources: texts_of(alloc, stream, SOURCE)?,
        sinks: texts_of(alloc, stream, SINK)?,
        formats: texts_of(alloc, stream, FORMAT)?,
        clips: is_set(stream, CLIP),
        rate: number_of(stream, RATE),
        channels: few_of(stream, CHANNELS),
        commits: count_of(stream, MAX_COMMITS),
        take: count_of(stream, TAKE),
        trace: text_of(stream, TRACE),
        quiet: is_set(stream, QUIET),
        stats: is_set(stream, STATS),
        stops: is_set(stream, STOP_ON_FAULT),
    }))
}

// What the words ask of `kpn join`. Each part has two words.
fn join_request<'a>(
    alloc: Global,
    program: &mut Command<'a>,
    join: &ArgMatches<'a>,
) -> Result<Request<'a>, WordsFault>
    ensures { AnswersTo (codes "join") (rows_in join.now) result }
{
    let file = required(program, join, FILE)?;
    let parts = texts_of(alloc, join, PARTS)?;
    let steps = count_or_usual(join, STEPS);
    if parts.len() % 2 == 0 {
        return Ok(Request::Join { file, parts, steps });
    }
    Err(unclear(
        program,
        ErrorKind::WrongNumberOfValues,
        "each PART needs its TRACE after it",
    ))
}

// What the words ask of `kpn stats`.
fn stats_request<'a>(
    program: &mut Command<'a>,
    stats: &ArgMatches<'a>,
) -> Result<Request<'a>, WordsFault>
    ensures { AnswersTo (codes "stats") (rows_in stats.now) result }
{
    Ok(Request::Stats {
        file: required(program, stats, FILE)?,
        trace: required(program, stats, TRACE)?,
        steps: count_or_usual(stats, STEPS),
        tables: tables_of(program, stats)?,
    })
}

// What the words ask of `kpn timeline`. Only a picture has a first and a last tick, in this order.
fn timeline_request<'a>(
    program: &mut Command<'a>,
    timeline: &ArgMatches<'a>,
) -> Result<Request<'a>, WordsFault>
    ensures { AnswersTo (codes "timeline") (rows_in timeline.now) result }
{
    let file = required(program, timeline, FILE)?;
    let trace = required(program, timeline, TRACE)?;
    let steps = count_or_usual(timeline, STEPS);
    let first = count_of(timeline, FROM);
    let last = count_of(timeline, TO);
    if is_set(timeline, SVG) {
        let first = first.unwrap_or(1);
        let last = last.unwrap_or(MAX_COUNT);
        if last < first {
            return Err(unclear(
                program,
                ErrorKind::ValueValidation,
                "--from takes no tick after --to",
            ));
        }
        return Ok(Request::Picture {
            file,
            trace,
            steps,
            first,
            last,
        });
    }
    if first.is_none() && last.is_none() {
        return Ok(Request::Timeline { file, trace, steps });
    }
    Err(unclear(
        program,
        ErrorKind::MissingRequiredArgument,
        "--from and --to need --svg",
    ))
}

// The tables that the words ask for.
fn tables_of<'a>(
    program: &mut Command<'a>,
    stats: &ArgMatches<'a>,
) -> Result<StatsTables, WordsFault>
    ensures { MatchResult result
        (λ tables. text_for (codes "TABLE") (rows_in stats.now) ≡ table_name tables)
        (IsUsageIf (IsNoTable (text_for (codes "TABLE") (rows_in stats.now)))) }
{
    let Some(table) = text_of(stats, TABLE) else {
        return Ok(StatsTables::People);
    };
    match table {
        "channels" => Ok(StatsTables::Channels),
        "processes" => Ok(StatsTables::Processes),
        _ => Err(unclear(
            program,
            ErrorKind::InvalidValue,
            "--tsv takes channels or processes",
        )),
    }
}

// A word that the command needs.
fn required<'a>(
    program: &mut Command<'a>,
    matches: &ArgMatches<'a>,
    id: &str,
) -> Result<&'a str, WordsFault>
    ensures { MatchResult result
        (λ word. text_for id.now (rows_in matches.now) ≡ Some word.now)
        (IsUsageIf (text_for id.now (rows_in matches.now) ≡ None)) }
{
    match text_of(matches, id) {
        Some(word) => Ok(word),
        None => Err(unclear(program, ErrorKind::MissingRequiredArgument, id)),
    }
}

// The text for a word or an option, if there is one.
fn text_of<'a>(matches: &ArgMatches<'a>, id: &str) -> Option<&'a str>
    ensures { text_for id.now (rows_in matches.now) ≡ option_map (λ text. text.now) result }
{
    matches.get_str(id)
}

// The words after an option that the user may repeat.
fn texts_of<'a>(
    alloc: Global,
    matches: &ArgMatches<'a>,
    id: &str,
) -> Result<Vec<&'a str>, AllocError>
    ensures { IfOk result (λ texts. texts_for id.now (rows_in matches.now)
        ≡ map (λ text. text.now) texts.items) }
{
    Vec::from_slice(alloc, matches.get_strs(id).unwrap_or(&[]))
}

// The number for a word or an option, if there is one.
fn number_of(matches: &ArgMatches<'_>, id: &str) -> Option<u32>
    ensures { number_for 32 id.now (rows_in matches.now) ≡ result }
{
    matches.get_one::<u32>(id)
}

// The number of 16 bits for an option, if there is one.
fn few_of(matches: &ArgMatches<'_>, id: &str) -> Option<u16>
    ensures { number_for 16 id.now (rows_in matches.now) ≡ result }
{
    matches.get_one::<u16>(id)
}

// The count of items, commits or steps for an option, if there is one.
fn count_of(matches: &ArgMatches<'_>, id: &str) -> Option<u64>
    ensures { number_for 64 id.now (rows_in matches.now) ≡ result }
{
    matches.get_one::<u64>(id)
}

// The same, or the usual count without the option.
fn count_or_usual(matches: &ArgMatches<'_>, id: &str) -> u64
    ensures { unwrap_or (number_for 64 id.now (rows_in matches.now)) 10000000 ≡ result }
{
    count_of(matches, id).unwrap_or(USUAL_COUNT)
}

// Whether a flag is set.
fn is_set(matches: &ArgMatches<'_>, id: &str) -> bool
    ensures { result ≡ is_set id.now (rows_in matches.now) }
{
    let Some(text) = text_of(matches, id) else {
        return false;
    };
    match text {
        "true" => true,
        _ => false,
    }
}
