//! The description of the command line for `clap`, and what help says of it.
ghost use Rattle.std.specs.Prelude.{IfOk};
ghost use Rattle.clap.specs.Walk.{Rule};
ghost use Rattle.clap.specs.Words.{App, new_app};
ghost use Rattle.clap.specs.Simple.{with_rule, with_subcommand};
ghost use Rattle.kpn_command_line.specs.CommandLine.{IsArg, IsCommand, command_line};
ghost use Rattle.kpn_command_line.specs.CommandLine.{optional_word, word, option, count, alone_words, check_words};
ghost use Rattle.kpn_command_line.specs.CommandLine.{explain_words, print_words, draw_words, rounds_words, run_words};
ghost use Rattle.kpn_command_line.specs.CommandLine.{stream_words, audit_words, join_words, stats_words, timeline_words};
ghost use Rattle.kpn_command_line.specs.CommandLine.{file_word, rounds_word, source_option, sink_option};
ghost use Rattle.kpn_command_line.specs.CommandLine.{workers_option, steps_option, items_flag, quiet_flag, svg_flag};
ghost use Rattle.kpn_command_line.specs.CommandLine.{format_option, from_option, stats_flag, to_option, trace_word};
ghost use Rattle.kpn_command_line.specs.CommandLine.{run_inputs, stream_ends, timeline_inputs, bare_command_line, flag};
ghost use Rattle.kpn_command_line.specs.CommandLine.{across_flag, channels_option, parts_word, rate_option};

use clap::builder::ValueParser;
use clap::{Arg, ArgAction, Command};
use kpn_limits::{MAX_COUNT, MAX_ROUNDS, MAX_WORKERS};
use std::alloc::{AllocError, Global};

/// The version that `--version` writes.
const VERSION: &str = "0.1.0";

// The names of what words stand for.
pub(crate) const NAME: &str = "NAME";

pub(crate) const FILE: &str = "FILE";

pub(crate) const ROUNDS: &str = "N";

pub(crate) const SOURCE: &str = "SOURCE";

pub(crate) const SINK: &str = "SINK";

pub(crate) const WORKERS: &str = "WORKERS";

pub(crate) const TAKE: &str = "K";

pub(crate) const MAX_COMMITS: &str = "MAX_COMMITS";

pub(crate) const TRACE: &str = "TRACE";

pub(crate) const PARTS: &str = "PARTS";

pub(crate) const STEPS: &str = "STEPS";

pub(crate) const TABLE: &str = "TABLE";

pub(crate) const ITEMS: &str = "ITEMS";

pub(crate) const SVG: &str = "SVG";

pub(crate) const FROM: &str = "FROM";

pub(crate) const TO: &str = "TO";

pub(crate) const FORMAT: &str = "FORMAT";

pub(crate) const CLIP: &str = "CLIP";

pub(crate) const RATE: &str = "RATE";

pub(crate) const CHANNELS: &str = "CHANNELS";

pub(crate) const QUIET: &str = "QUIET";

pub(crate) const STATS: &str = "STATS";

pub(crate) const STRICT: &str = "STRICT";

pub(crate) const STOP_ON_FAULT: &str = "STOP_ON_FAULT";

pub(crate) const ACROSS: &str = "ACROSS";

// The commands and their words.
pub(crate) fn program<'a>(alloc: Global) -> Result<Command<'a>, AllocError>
    ensures { IfOk result (IsCommand command_line) }
{
    let program = with(Ok(bare_program(alloc)), alone_words(alloc));
    let program = with(program, check_words(alloc));
    let program = with(program, explain_words(alloc));
    let program = with(program, print_words(alloc));
    let program = with(program, draw_words(alloc));
    let program = with(program, rounds_words(alloc));
    let program = with(program, run_words(alloc));
    let program = with(program, stream_words(alloc));
    let program = with(program, audit_words(alloc));
    let program = with(program, join_words(alloc));
    let program = with(program, stats_words(alloc));
    with(program, timeline_words(alloc))
}

// The program with one more command, unless there was no memory for one of them.
// The two are results, so that a chain of calls takes no program apart.
fn with<'a>(
    program: Result<Command<'a>, AllocError>,
    words: Result<Command<'a>, AllocError>,
) -> Result<Command<'a>, AllocError>
    ensures { (before command : App) → IfOk program.entry (IsCommand before)
        → IfOk words.entry (IsCommand command)
        → IfOk result (IsCommand (with_subcommand before command.top)) }
{
    let program = program?;
    match words {
        Ok(words) => program.subcommand(words),
        Err(error) => Err(error),
    }
}

// The command with one more word, unless there was no memory for one of them.
fn and<'a>(
    command: Result<Command<'a>, AllocError>,
    word: Arg<'a>,
) -> Result<Command<'a>, AllocError>
    ensures { (before : App) (rule : Rule) → IfOk command.entry (IsCommand before)
        → IsArg rule word.entry → IfOk result (IsCommand (with_rule before rule)) }
{
    match command {
        Ok(command) => command.arg(word),
        Err(error) => Err(error),
    }
}

// What help says below the commands.
const STATUSES: &str = "\
`kpn --words always|never|terminal COMMAND` says when words for a person follow a line of kpn, such as
which file it is about and what to do: always, never, or on a terminal. Without the option the variable
KPN_WORDS of the environment says it, and else it is on a terminal.

Statuses: 0 for success, 1 for a refused input or a device that fails, 2 for words that are not
understood, 6 for want of memory; explain, draw, run, stream, audit, join, stats and timeline have more.
If an input is refused, one line on standard error says why. If the words are not understood, standard
error says how to use them. Standard output is then empty, except that explain writes there what is
wrong, and stream what it has computed before.";

// The program without its commands.
fn bare_program<'a>(alloc: Global) -> Command<'a>
    ensures { IsCommand bare_command_line result }
{
    Command::new(alloc, "kpn")
        .version(VERSION)
        .about("Reads, checks, runs and audits Kahn process networks")
        .after_help(STATUSES)
        .subcommand_required(true)
        .arg_required_else_help(true)
}

// A command without words. Help says `about` above its words and `help` below them.
fn command<'a>(
    alloc: Global,
    name: &'static str,
    about: &'static str,
    help: &'static str,
) -> Command<'a>
    ensures { IsCommand (new_app name.entry.now) result }
{
    Command::new(alloc, name).about(about).after_help(help)
}

const ALONE_HELP: &str = "\
The items stand on lines: an optional `-` and 1 to 19 digits each. What the process puts goes to
standard output, an item on each line, and then `fault NAME CAUSE` if the process has faulted. copy puts
each item, double twice each item, sum the sum of the items so far.

Statuses: 0 for success, 1 for a line that is no item or a device that fails, 2 for another name,
6 for want of memory.";

// The words of `kpn alone`.
fn alone_words<'a>(alloc: Global) -> Result<Command<'a>, AllocError>
    ensures { IfOk result (IsCommand alone_words) }
{
    let about = "Runs a process alone on the items of standard input";
    let name = word(alloc, NAME, "The process: copy, double or sum");
    command(alloc, "alone", about, ALONE_HELP).arg(name)
}

const CHECK_HELP: &str = "\
Writes `ok: P processes, I instances, C channels`. A file that is no description is refused with its
first fault: what is wrong, and the byte, process, instance or channel at fault. `kpn explain` says it
in words.

Statuses: 0 for success, 1 for a refused file, 6 for want of memory.";

// The words of `kpn check`.
fn check_words<'a>(alloc: Global) -> Result<Command<'a>, AllocError>
    ensures { IfOk result (IsCommand check_words) }
{
    let about = "Checks a description and counts its parts";
    command(alloc, "check", about, CHECK_HELP).arg(file_word(alloc))
}

const EXPLAIN_HELP: &str = "\
If the description is right, writes the line of `kpn check`. Otherwise writes `FILE:LINE:COLUMN: ` and
what is wrong, then the line of the file with a caret below the place, and one line of advice. Lines and
columns count from 1, and a column counts bytes. The part in brackets is the fault as the other commands
report it.

With a trace that `kpn run --trace` has stored, explains the trace: a legal one is answered as by
`kpn audit`. Of another one it shows the first line that is no event, or the first event that can't
follow those before it, and what its process or channel was doing then. --steps holds only for a trace.

With --items FILE is a file of items, as a source has them: its first line that is no item is shown.

Statuses: 0 for a right file, 1 for a wrong one or one that can't be read, 2 for words that are not
understood, 5 for a trace that would take more steps: then give --steps a larger number; 6 for want of
memory.";

// The words of `kpn explain`.
fn explain_words<'a>(alloc: Global) -> Result<Command<'a>, AllocError>
    ensures { IfOk result (IsCommand explain_words) }
{
    let about = "Says what is wrong with a file, shows the line, and advises what to do";
    let file = word(
        alloc,
        FILE,
        "The file of the description, or of items with --items",
    );
    let trace = "The file of a trace; without it only the description is explained";
    let words = command(alloc, "explain", about, EXPLAIN_HELP).arg(file);
    let words = and(words, optional_word(alloc, TRACE, trace));
    let words = and(words, items_word(alloc));
    and(words, steps_word(alloc))
}

const PRINT_HELP: &str = "\
Writes the description with two spaces for each level, one statement or item on each line, and
without comments. The same network is always written in the same way, and what is written can be
read again.

Statuses: 0 for success, 1 for a refused file, 6 for want of memory.";

// The words of `kpn print`.
fn print_words<'a>(alloc: Global) -> Result<Command<'a>, AllocError>
    ensures { IfOk result (IsCommand print_words) }
{
    let about = "Prints a description in its one canonical form";
    command(alloc, "print", about, PRINT_HELP).arg(file_word(alloc))
}

const DRAW_HELP: &str = "\
Writes a directed graph in the language of Graphviz: `kpn draw FILE | dot -Tsvg` makes a picture. A
box is a process, with the name of its instance, of its program, and its parameters. An arrow is a
channel, from its writer to its reader, with its name and capacity. An ellipse is the outer end of a
source or a sink. What stands side by side in the network is drawn one below the other; with --across it
is drawn side by side.

With a trace that `kpn run --trace` has stored, the drawing also shows what stands after its events: how
many items were put on each channel and how many of them are unread, the capacity that a grown channel
has reached, which processes wait, on which channel, and which have ended, and how. A trace that is not
legal is answered as by `kpn audit`, with at most 10000000 steps of a process before an event.

Statuses: 0 for a drawing, 1 for an illegal trace, for a refused file and for a device that fails, 2
for words that are not understood, 5 for a trace that would take more steps, 6 for want of memory.";

// The words of `kpn draw`.
fn draw_words<'a>(alloc: Global) -> Result<Command<'a>, AllocError>
    ensures { IfOk result (IsCommand draw_words) }
{
    let about = "Draws a network, alone or after the run of a trace";
    let trace = "The file of a trace; without it the network is drawn before any run";
    let words = command(alloc, "draw", about, DRAW_HELP).arg(file_word(alloc));
    let words = and(words, optional_word(alloc, TRACE, trace));
    and(words, across_word(alloc))
}

// What help says of `--source`, if sources have files.
const SOURCE_HELP: &str =
    "Gives a source the items of a file, and may be repeated; a source without it has none";

const ROUNDS_HELP: &str = "\
Round 0 is the given lists on the sources and nothing elsewhere. In each further round every process
runs alone from its start on the lists of the round before, and each loop has N turns. Writes a line
for each channel, `NAME:` and its items: the N-th iterate. Each list is a part, from the front, of the
list that Kahn's least solution has on the channel. Each round runs every process anew, so the time
grows with N, and a loop of many turns takes more of them if N is larger.

The file of a source has an item on each line: an optional `-` and 1 to 19 digits.

Statuses: 0 for success, 1 for a refused file or name, 2 for words that are not understood, 6 for
want of memory.";

// The words of `kpn rounds`.
fn rounds_words<'a>(alloc: Global) -> Result<Command<'a>, AllocError>
    ensures { IfOk result (IsCommand rounds_words) }
{
    let about = "Computes the lists of all channels by Kahn's iteration";
    let words = command(alloc, "rounds", about, ROUNDS_HELP).arg(file_word(alloc));
    let words = and(words, rounds_word(alloc));
    and(words, source_word(alloc, "NAME=FILE", SOURCE_HELP))
}

const RUN_HELP: &str = "\
Feeds each source its items and closes it, and then steps the processes in turn. A process waits if it
reads an empty channel or writes a full one. If processes wait for one another in a cycle that has full
channels, the one of least capacity grows, unless it is at the limit. If the network says `policy all;`
and no process can go on, the one of least capacity among all full channels on which processes wait
grows too. Writes the items that were taken from each sink, which processes have faulted, which wait,
and the outcome of the run:

  ended    each process has ended, or waits for an item that never comes
  enough   each sink has given the K items of --take
  clogged  a process waits on a full channel, and no cycle of waiting processes has a full channel
  jammed   a cycle of waiting processes has full channels, and they are at the limit
  stopped  as many commits were made as --max-commits allows

The items of the sinks are written only under `ended` and `enough`. What any run has put on its
channels is in its trace: see --trace and `kpn audit`.

--sink stores what a sink received, an item on each line, under every outcome; with --take K only the
first K items. The trace is stored first, then the sinks in the order of the description. If a file
can't be stored, no report is written, and the files before it stay.

With --workers the processes are stepped side by side. What is then written of `ended` and `enough`
is the same for any number of them. Workers are faster than one thread in long runs if the channels
have the capacities of `kpn print --capacities fast`, or if processes compute for a microsecond or longer
between two reads or writes. Otherwise they may be slower.

The file of a source has an item on each line: an optional `-` and 1 to 19 digits.

Statuses: 0 for ended and enough, 3 for clogged, 4 for jammed, 5 for stopped, 1 for a refused file or
name or a device that fails, 2 for words that are not understood, 6 for want of memory, 7 for a run
by workers that came to nothing (the faults 47, 48 and 49). With --strict the status is 8 if a process
has faulted, and else 9 if there is a ring: processes of which each waits for an item of the next.";

// The words of `kpn run`.
fn run_words<'a>(alloc: Global) -> Result<Command<'a>, AllocError>
    ensures { IfOk result (IsCommand run_words) }
{
    let take = "Stops once K items were read of each sink, and writes K at most: 1 to 1000000000";
    let commits = "Stops after N commits: 1 to 1000000000, and 10000000 without it";
    let trace =
        "Stores all events of the run in the file OUT, which is no input of it, before the report is written";
    let quiet = "Leaves out of the report the items of sinks that --sink stores";
    let strict =
        "Ends with status 8 if a process has faulted, and with 9 at a ring of waiting processes";
    let words = and(run_inputs(alloc), count(alloc, TAKE, "take", "K", take));
    let words = and(
        words,
        count(alloc, MAX_COMMITS, "max-commits", "N", commits),
    );
    let words = and(words, option(alloc, TRACE, "trace", "OUT", trace));
    let words = and(words, flag(alloc, QUIET, "quiet", quiet));
    and(words, flag(alloc, STRICT, "strict", strict))
}

// The words of `kpn run` for the network, its sources and sinks, and its workers.
fn run_inputs<'a>(alloc: Global) -> Result<Command<'a>, AllocError>
    ensures { IfOk result (IsCommand run_inputs) }
{
    let about = "Runs a network, and writes what it has come to";
    let sink =
        "Stores what a sink received in the file OUT, which is no input, before the report is written; may be repeated";
    let words = command(alloc, "run", about, RUN_HELP).arg(file_word(alloc));
    let words = and(words, source_word(alloc, "NAME=FILE", SOURCE_HELP));
    let words = and(words, sink_word(alloc, sink));
    and(words, workers_word(alloc))
}

const STREAM_HELP: &str = "\
Runs a network on live input, on one thread, and writes each item as it comes. A source is read only if
a process waits for its item, and all that was computed is written and flushed before that read.

IN and OUT are files, pipes or devices, and `-` is standard input or output. The only source may be left
out, and is standard input then; the only sink may be left out, and is standard output. Every other
source and sink has to be named.

--format FORMAT is for all sources and sinks, --format NAME=FORMAT for one of them. lines, the usual one,
has an item on each line: an optional `-` and 1 to 19 digits. u8 has a byte for an item, of 0 to 255. s8,
s16le, s24le, s32le and s64le have samples of 8 to 64 bits in two's complement, the lowest byte first.
f32le has floats of 32 bits: the item n is n / 32768, or n / 2^P for f32le:P with P of 0 to 62, rounded to
the nearest, and to the even one of two; what is no number, infinite or too large is a bad item. wav is a
WAV file, also in a pipe: a source may have samples of 8, 16 or 24 bits, those of the channels in turn; a
sink gets 16, or 24 for wav24. An item of a sink that does not fit its format ends the stream; with --clip
the nearest one that fits is written.

A bad item, or a read or write that fails, ends the run. All that was computed before is written, and
standard error names the source or sink. A sink whose reader has gone is left. At the end standard error
says of each sink how many items it has and whether these are complete, which processes have faulted or
wait, a line `deadlock` for each ring of processes that each wait for an item of the next one, and the
outcome as `kpn run` does.

With --stats two tables follow: of each channel how many items were put on it, were read and are unread,
and the most while the reader was there; of each process how it ended or what it waits for. They need no
trace, and --quiet keeps them.

Only what is unread is kept in memory. With --trace all events and items are: a million items through
ten processes take some 600 MB. The trace is stored at the end.

Statuses: 8 if a process faulted; else 9 if there is a ring; else 0 if each sink is complete, was left, or
has the K items of --take; else 3 for clogged, 4 for jammed and 5 for stopped; 1 for a refused input or a
device that fails, 2 for words that are not understood, 6 for want of memory.";

// The words of `kpn stream`.
fn stream_words<'a>(alloc: Global) -> Result<Command<'a>, AllocError>
    ensures { IfOk result (IsCommand stream_words) }
{
    let take = "Stops once each sink was given K items, and writes K at most: 1 to 1000000000";
    let commits = "Stops after N commits: 1 to 1000000000; a stream has no limit without it";
    let trace =
        "Stores all events in the file OUT at the end; it is no input and no output of the stream";
    let quiet =
        "Says nothing of the end on standard error, but for what is wrong and what --stats asks for";
    let words = and(stream_ends(alloc), count(alloc, TAKE, "take", "K", take));
    let words = and(
        words,
        count(alloc, MAX_COMMITS, "max-commits", "N", commits),
    );
    let words = and(words, option(alloc, TRACE, "trace", "OUT", trace));
    let stop = "Ends the stream once a process has faulted, before another item is read";
    let words = and(words, flag(alloc, QUIET, "quiet", quiet));
    let words = and(words, stats_word(alloc));
    and(words, flag(alloc, STOP_ON_FAULT, "stop-on-fault", stop))
}

// The `--format` options of `kpn stream`.
fn format_word<'a>(alloc: Global) -> Arg<'a>
    ensures { IsArg format_option result }
{
    let help =
        "How items are written, or by NAME=FORMAT those of an end: lines, u8, s8, s16le, s24le, s32le, s64le, f32le, f32le:P, wav, wav16 or wav24";
    option(alloc, FORMAT, "format", "FORMAT", help).action(ArgAction::Append)
}

// The words of `kpn stream` for the network, its sources and sinks, and how the items are written.
fn stream_ends<'a>(alloc: Global) -> Result<Command<'a>, AllocError>
    ensures { IfOk result (IsCommand stream_ends) }
{
    let about = "Runs a network on live input, and writes the items as they come";
    let source =
        "Reads the items of a source from IN, or from standard input for `-`; may be repeated";
    let sink = "Writes the items of a sink to OUT, or to standard output for `-`; may be repeated";
    let clip = "Writes for an item that does not fit its format the nearest one that does";
    let words = command(alloc, "stream", about, STREAM_HELP).arg(file_word(alloc));
    let words = and(words, source_word(alloc, "NAME=IN", source));
    let words = and(words, sink_word(alloc, sink));
    let words = and(words, format_word(alloc));
    let words = and(words, flag(alloc, CLIP, "clip", clip));
    let words = and(words, rate_word(alloc));
    and(words, channels_word(alloc))
}

// The `--rate` option of `kpn stream`.
fn rate_word<'a>(alloc: Global) -> Arg<'a>
    ensures { IsArg rate_option result }
{
    let help =
        "The samples that each channel of a WAV file has in a second: 1 to 1000000; 48000 without it";
    let rates = ValueParser::Signed(1, 1_000_000);
    option(alloc, RATE, "rate", "N", help).value_parser(rates)
}

// The `--channels` option of `kpn stream`.
fn channels_word<'a>(alloc: Global) -> Arg<'a>
    ensures { IsArg channels_option result }
{
    let help =
        "The channels of a WAV file that is written, whose samples take turns: 1 to 1000; 1 without it";
    let counts = ValueParser::Signed(1, 1_000);
    option(alloc, CHANNELS, "channels", "N", help).value_parser(counts)
}

const AUDIT_HELP: &str = "\
Replays a trace that `kpn run --trace` has stored. Writes `legal`, whether the journals are exact,
which are then those of Kahn's least solution, and each channel with its capacity and journal; or
`illegal at K` if event K, counted from 0, can't follow those before it; or `budget at K` if its
process made too many steps: then give --steps a larger number.

Statuses: 0 for legal, 1 for illegal and for a refused file, 2 for words that are not understood, 5
for budget, 6 for want of memory.";

// The words of `kpn audit`.
fn audit_words<'a>(alloc: Global) -> Result<Command<'a>, AllocError>
    ensures { IfOk result (IsCommand audit_words) }
{
    let about = "Checks a trace against the network of a description";
    let words = command(alloc, "audit", about, AUDIT_HELP).arg(file_word(alloc));
    let words = and(words, trace_word(alloc));
    and(words, steps_word(alloc))
}

const JOIN_HELP: &str = "\
Joins the traces of the parts of a network, as `kpn-mpi --traces FOLDER` stores them: for FOLDER the
words are FOLDER/rank-*. A part is a description of some processes of FILE, with their names. A channel
between two parts is a sink of the one and a source of the other. Writes what `kpn audit` writes, of the
whole network: `legal`, if each trace is legal and the parts can have run side by side, so that each item
was put before it was fed; whether the journals are exact, which are then those of Kahn's least solution;
and each channel with its capacity and journal. Otherwise it writes one line: `illegal at K in TRACE` or
`budget at K in TRACE` as `kpn audit` does; `no cut` if the parts do not have each process of FILE once,
with its program, parameters and channels; or `not joined at K in TRACE` if event K feeds an item that no
part has put there before.

Statuses: 0 for legal, 1 for another line and for a refused file, 2 for words that are not understood, 5
for budget: then give --steps a larger number; 6 for want of memory.";

// The words of `kpn join`.
fn join_words<'a>(alloc: Global) -> Result<Command<'a>, AllocError>
    ensures { IfOk result (IsCommand join_words) }
{
    let about = "Checks the traces of the parts of a network that ran side by side";
    let words = command(alloc, "join", about, JOIN_HELP).arg(file_word(alloc));
    let words = and(words, parts_word(alloc));
    and(words, steps_word(alloc))
}

const STATS_HELP: &str = "\
Counts the events of a trace that `kpn run --trace` has stored. Writes how long the run is if each get
and put takes one tick, with the capacities and without any, which processes bind it to this length and
which make most steps, a table of the channels, a table of the processes, and advice on capacities. It
is for speed: clogged runs may need more.

Of each channel: the items that were put and read, those that are left unread, the most that lay
unread, the capacity at first and at last, how often it grew, how often its reader came to wait for an
item and its writer for room, whether it is complete, and the capacity that a run without capacities
makes use of. Of each process: the items that it got and put, its steps, how often it came to wait for
an item and for room, how it ended or what it waits for, for how many ticks it binds the run, and its
parameters.

With --tsv one of the tables is written for other programs: a line of names, then a line for each
channel or process, with a tab between two entries. A trace that is not legal is answered as by
`kpn audit`.

Statuses: 0 for tables, 1 for an illegal trace, for a refused file and for a device that fails, 2 for
words that are not understood, 5 for a trace that would take more steps: then give --steps a larger
number; 6 for want of memory.";

// The words of `kpn stats`.
fn stats_words<'a>(alloc: Global) -> Result<Command<'a>, AllocError>
    ensures { IfOk result (IsCommand stats_words) }
{
    let about = "Counts what a run did on each channel and in each process, from its trace";
    let table = "Writes one table for other programs: channels or processes";
    let words = command(alloc, "stats", about, STATS_HELP).arg(file_word(alloc));
    let words = and(words, trace_word(alloc));
    let words = and(words, steps_word(alloc));
    and(words, option(alloc, TABLE, "tsv", "TABLE", table))
}

const TIMELINE_HELP: &str = "\
Writes when the gets and puts of a run take place if each takes one tick and begins as early as it can:
after the one before it of its process, a get once its item is there, and a put once there is room. What
is written is JSON in the Trace Event Format, for https://ui.perfetto.dev and chrome://tracing. A
microsecond there is a tick. A process is a track, with a slice for each get, put and wait. A channel is
a counter of its unread items. A trace that is not legal is answered as by `kpn audit`.

With --svg it writes one picture that any browser shows: the processes below one another, the ticks from
left to right, a box for each get, put and wait, and a mark where a channel grows. --from and --to choose
the ticks, so that the picture has at most 2000 ticks, and at most 2000 gets, puts, waits and growths.

Statuses: 0 for a timeline, 1 for an illegal trace, for a refused file and for a device that fails, 2
for words that are not understood, 5 for a trace that would take more steps: then give --steps a larger
number; 6 for want of memory.";

// The words of `kpn timeline`.
fn timeline_words<'a>(alloc: Global) -> Result<Command<'a>, AllocError>
    ensures { IfOk result (IsCommand timeline_words) }
{
    let words = and(timeline_inputs(alloc), svg_word(alloc));
    let words = and(words, from_word(alloc));
    and(words, to_word(alloc))
}

// The words of `kpn timeline` for the network and its trace.
fn timeline_inputs<'a>(alloc: Global) -> Result<Command<'a>, AllocError>
    ensures { IfOk result (IsCommand timeline_inputs) }
{
    let about = "Shows when the gets and puts of a run take place, from its trace";
    let words = command(alloc, "timeline", about, TIMELINE_HELP).arg(file_word(alloc));
    let words = and(words, trace_word(alloc));
    and(words, steps_word(alloc))
}

// The word for the number of rounds.
fn rounds_word<'a>(alloc: Global) -> Arg<'a>
    ensures { IsArg rounds_word result }
{
    let help = "How many rounds, and how many turns each loop has: 0 to 1000";
    let counts = ValueParser::Signed(0, MAX_ROUNDS as i64);
    word(alloc, ROUNDS, help).value_parser(counts)
}

// The `--workers` option.
fn workers_word<'a>(alloc: Global) -> Arg<'a>
    ensures { IsArg workers_option result }
{
    let help = "Runs the processes on N threads side by side: 1 to 16; on one thread without it";
    let counts = ValueParser::Signed(1, MAX_WORKERS as i64);
    option(alloc, WORKERS, "workers", "N", help).value_parser(counts)
}

// The `--source` options of a command.
fn source_word<'a>(alloc: Global, value: &'static str, help: &'static str) -> Arg<'a>
    ensures { IsArg source_option result }
{
    option(alloc, SOURCE, "source", value, help).action(ArgAction::Append)
}

// The `--sink` options of a command.
fn sink_word<'a>(alloc: Global, help: &'static str) -> Arg<'a>
    ensures { IsArg sink_option result }
{
    option(alloc, SINK, "sink", "NAME=OUT", help).action(ArgAction::Append)
}

// The `--items` flag.
fn items_word<'a>(alloc: Global) -> Arg<'a>
    ensures { IsArg items_flag result }
{
    let help = "Reads FILE as a file of items, as sources have; then there is no TRACE";
    flag(alloc, ITEMS, "items", help)
}

// The `--stats` flag.
fn stats_word<'a>(alloc: Global) -> Arg<'a>
    ensures { IsArg stats_flag result }
{
    let help =
        "Writes at the end what each channel did, and how each process ended or what it waits for";
    flag(alloc, STATS, "stats", help)
}

// The `--svg` flag.
fn svg_word<'a>(alloc: Global) -> Arg<'a>
    ensures { IsArg svg_flag result }
{
    flag(alloc, SVG, "svg", "Writes a picture in place of JSON")
}

// The `--from` option.
fn from_word<'a>(alloc: Global) -> Arg<'a>
    ensures { IsArg from_option result }
{
    let help = "The first tick of the picture: 1 to 1000000000, and 1 without it";
    count(alloc, FROM, "from", "T", help)
}

// The `--to` option.
fn to_word<'a>(alloc: Global) -> Arg<'a>
    ensures { IsArg to_option result }
{
    let help = "The last tick of the picture: 1 to 1000000000, and 1000000000 without it";
    count(alloc, TO, "to", "T", help)
}

// The `--across` flag.
fn across_word<'a>(alloc: Global) -> Arg<'a>
    ensures { IsArg across_flag result }
{
    let help = "Draws from top to bottom, and not from left to right: for a wide network";
    flag(alloc, ACROSS, "across", help)
}

// The word for the file of a description.
fn file_word<'a>(alloc: Global) -> Arg<'a>
    ensures { IsArg file_word result }
{
    word(alloc, FILE, "The file of the description")
}

// The word for the file of a trace.
fn trace_word<'a>(alloc: Global) -> Arg<'a>
    ensures { IsArg trace_word result }
{
    word(alloc, TRACE, "The file of the trace")
}

// The word for the files of parts.
fn parts_word<'a>(alloc: Global) -> Arg<'a>
    ensures { IsArg parts_word result }
{
    let help = "The description and the trace of each part";
    let parts = word(alloc, PARTS, help).value_name("PART TRACE");
    parts.num_args(1..).action(ArgAction::Append)
}

// The `--steps` option.
fn steps_word<'a>(alloc: Global) -> Arg<'a>
    ensures { IsArg steps_option result }
{
    let steps =
        "The most steps of a process before an event: 1 to 1000000000, and 10000000 without it";
    count(alloc, STEPS, "steps", "N", steps)
}

// A word that a command needs.
fn word<'a>(alloc: Global, id: &'static str, help: &'static str) -> Arg<'a>
    ensures { IsArg (word id.entry.now) result }
{
    optional_word(alloc, id, help).required(true)
}

// A word that may be missing.
fn optional_word<'a>(alloc: Global, id: &'static str, help: &'static str) -> Arg<'a>
    ensures { IsArg (optional_word id.entry.now) result }
{
    Arg::new(alloc, id).help(help).action(ArgAction::Set)
}

// An option with a value, and the name of the value in help.
fn option<'a>(
    alloc: Global,
    id: &'static str,
    long: &'static str,
    value: &'static str,
    help: &'static str,
) -> Arg<'a>
    ensures { IsArg (option id.entry.now long.entry.now) result }
{
    Arg::new(alloc, id)
        .long(long)
        .value_name(value)
        .help(help)
        .action(ArgAction::Set)
}

// An option without a value.
fn flag<'a>(alloc: Global, id: &'static str, long: &'static str, help: &'static str) -> Arg<'a>
    ensures { IsArg (flag id.entry.now long.entry.now) result }
{
    Arg::new(alloc, id)
        .long(long)
        .help(help)
        .action(ArgAction::SetTrue)
}

// An option whose value is a count of items, commits or steps.
fn count<'a>(
    alloc: Global,
    id: &'static str,
    long: &'static str,
    value: &'static str,
    help: &'static str,
) -> Arg<'a>
    ensures { IsArg (count id.entry.now long.entry.now) result }
{
    let counts = ValueParser::Unsigned(1, MAX_COUNT);
    option(alloc, id, long, value, help).value_parser(counts)
}
