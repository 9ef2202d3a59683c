//! The command line.
ghost use Rattle.std.specs.Prelude.{◌≡◌, ◌≢◌, IfOk, IfErr, IfSome, IfNone, Some, codes, false, option_map};
ghost use Rattle.clap.specs.Words.{FailsBy, app_of, fault_of, kind_of, new_app, subcommand_rows_of, with_rule};
ghost use Rattle.clap.specs.declared.builder.command.Command.TheViews.{out-Command as fields_of};
ghost use Rattle.xns_command.specs.declared.mode.Mode.{Mode};
ghost use Rattle.xns_command.specs.Modes.{name_of};
ghost use Rattle.xns.specs.Command.Arguments.{AreGoodWords, AsksFor, calls_app, file_rule, files_rule, flag_in, flag_rule, is_programs};
ghost use Rattle.xns.specs.Command.Arguments.{is_true as is_true_text, named_descriptions, named_files, named_subcommand, named_times};
ghost use Rattle.xns.specs.Command.Arguments.{option_rule, plain_word as plain_word_of, program_app, reading_app, refusals_of, texts};
ghost use Rattle.xns.specs.Command.Arguments.{times_by, values_in};

use crate::command::help::{ABOUT, CALLS_HELP, DUMP_HELP, HELP, PROGRAMS_HELP, SIM_HELP, VERSION};
use crate::command::request::Request;
use clap::error::ErrorKind;
use clap::{Arg, ArgAction, ArgMatches, Command, Error};
use std::alloc::{AllocError, Global};
use xns_calls::Times;
use xns_command::{Mode, Refusal};

/// What the subcommands that read a file do.
const DUMP_ABOUT: &str = "Prints what the packets of a capture, or of lines of hex, say";

const CALLS_ABOUT: &str =
    "Prints the calls that a capture or lines of hex carry, and what came back";

const SIM_ABOUT: &str = "Plays calls through a network that loses, repeats and reorders";

/// The name of the argument for a file.
const FILE: &str = "file";
/// What the file of `dump` and `calls` is.
const CAPTURE: &str = "A capture (pcap or pcapng), or lines of hex; - or no FILE is standard input";
/// What the file of `sim` is.
const PLAY: &str = "The lines of a play; - or no FILE is standard input";

/// The names of the flags for times.
const TIMES: &str = "times";

const RELATIVE: &str = "relative";
/// What the flags for times do.
const TIMES_HELP: &str =
    "Print when each frame was captured, in seconds since 1970, and how long each call took";

const RELATIVE_HELP: &str = "The same as --times=relative: in seconds since the first frame";

/// The name of the option for descriptions of programs.
const PROGRAMS: &str = "programs";
/// What the option for descriptions does.
const NAMING_HELP: &str =
    "Name calls by the programs that this file in Courier's notation describes; again for each file";

/// A command that takes an optional file in place of standard input.
fn with_file<'a>(
    alloc: Global,
    command: Command<'a>,
    help: &'a str,
) -> Result<Command<'a>, AllocError>
    ensures app { IfOk result (λ r. app_of r ≡ with_rule (app_of command.entry) file_rule) }
    ensures local { IfOk result (λ r. (fields_of r).has_globals ≡ (fields_of command.entry).has_globals) }
{
    let file = Arg::new(alloc, FILE).value_name("FILE").help(help);
    command.arg(file)
}

/// A command that takes a flag more.
fn with_flag<'a>(
    alloc: Global,
    command: Command<'a>,
    name: &'a str,
    help: &'a str,
) -> Result<Command<'a>, AllocError>
    ensures app { IfOk result (λ r. app_of r ≡ with_rule (app_of command.entry) (flag_rule name.entry.now)) }
    ensures local { IfOk result (λ r. (fields_of r).has_globals ≡ (fields_of command.entry).has_globals) }
{
    let flag = Arg::new(alloc, name)
        .long(name)
        .action(ArgAction::SetTrue)
        .help(help);
    command.arg(flag)
}

/// A command that takes an option for descriptions of programs, which may come again.
fn with_programs<'a>(alloc: Global, command: Command<'a>) -> Result<Command<'a>, AllocError>
    ensures app { IfOk result (λ r. app_of r ≡ with_rule (app_of command.entry) (option_rule (codes "programs"))) }
    ensures local { IfOk result (λ r. (fields_of r).has_globals ≡ (fields_of command.entry).has_globals) }
{
    let option = Arg::new(alloc, PROGRAMS)
        .long(PROGRAMS)
        .value_name("FILE")
        .action(ArgAction::Append)
        .help(NAMING_HELP);
    command.arg(option)
}

/// A command of this name, with its file.
fn file_command<'a>(
    alloc: Global,
    name: &'a str,
    about: &'a str,
    after_help: &'a str,
    file_help: &'a str,
) -> Result<Command<'a>, AllocError>
    ensures app { IfOk result (λ command. app_of command ≡ with_rule (new_app name.entry.now) file_rule) }
    ensures local { IfOk result (λ command. (fields_of command).has_globals ≡ false) }
{
    let command = Command::new(alloc, name)
        .about(about)
        .after_help(after_help);
    with_file(alloc, command, file_help)
}

/// `calls`, with its file, the flags for times, and the descriptions of programs.
fn calls_command<'a>(alloc: Global) -> Result<Command<'a>, AllocError>
    ensures app { IfOk result (λ command. app_of command ≡ calls_app) }
    ensures local { IfOk result (λ command. (fields_of command).has_globals ≡ false) }
{
    let calls = file_command(alloc, "calls", CALLS_ABOUT, CALLS_HELP, CAPTURE)?;
    let calls = with_flag(alloc, calls, TIMES, TIMES_HELP)?;
    let calls = with_flag(alloc, calls, RELATIVE, RELATIVE_HELP)?;
    with_programs(alloc, calls)
}

/// `programs`, with its files.
fn programs_command<'a>(alloc: Global) -> Result<Command<'a>, AllocError>
    ensures app { IfOk result (λ command. app_of command ≡ with_rule (new_app (codes "programs")) files_rule) }
    ensures local { IfOk result (λ command. (fields_of command).has_globals ≡ false) }
{
    let files = Arg::new(alloc, FILE)
        .value_name("FILE")
        .num_args(1..)
        .required(true)
        .help(
            "Descriptions in Courier's notation, each behind those it depends upon; - is standard input",
        );
    Command::new(alloc, "programs")
        .about("Prints the remote programs that files in Courier's notation describe")
        .after_help(PROGRAMS_HELP)
        .arg(files)
}

/// A command that requires one of its subcommands, which read captures.
fn reading_program<'a>(alloc: Global) -> Result<Command<'a>, AllocError>
    ensures { IfOk result (λ command. app_of command ≡ reading_app) }
{
    let dump = file_command(alloc, "dump", DUMP_ABOUT, DUMP_HELP, CAPTURE)?;
    let calls = calls_command(alloc)?;
    Command::new(alloc, "xns")
        .version(VERSION)
        .about(ABOUT)
        .after_help(HELP)
        .subcommand_required(true)
        .subcommand(dump)?
        .subcommand(calls)
}

/// The program's command, which requires one of its subcommands.
fn program<'a>(alloc: Global) -> Result<Command<'a>, AllocError>
    ensures { IfOk result (λ command. app_of command ≡ program_app) }
{
    let sim = file_command(alloc, "sim", SIM_ABOUT, SIM_HELP, PLAY)?;
    let programs = programs_command(alloc)?;
    reading_program(alloc)?
        .subcommand(sim)?
        .subcommand(programs)
}

/// Reads the words of the command line, the program's name first.
///
/// # Errors
/// `clap`'s error of the kind that it gives these words, which is `DisplayHelp` where help is asked for, `DisplayVersion`
/// where the version is, and `OutOfMemory` where a growth was refused.
pub fn request<'a>(alloc: Global, words: &'a [&'a str]) -> Result<Request<'a>, Error>
    ensures asked { IfOk result (λ request. AsksFor request (texts words.entry.now)) }
    // An error is one of memory, or has a kind that clap's meaning of the words gives.
    ensures kinds { FailsBy (refusals_of (texts words.entry.now)) result }
    // Some words are refused for memory alone.
    ensures memory { IfErr result (λ error. AreGoodWords (texts words.entry.now) → kind_of error ≡ ErrorKind.OutOfMemory) }
{
    let (name, files, times, descriptions) = named_in(alloc, words)?;
    if names_programs(name) {
        return Ok(Request::Programs { files });
    }
    let Some(mode) = mode_named(name) else {
        let message = "a subcommand is required";
        return Err(program(alloc)?.error(ErrorKind::MissingSubcommand, message)?);
    };
    let file = files.first().copied();
    Ok(Request::Run {
        mode,
        file,
        times,
        descriptions,
    })
}

/// The name of the subcommand that the words name, its files, the times that it prints, and the descriptions of programs.
fn named_in<'a>(
    alloc: Global,
    words: &'a [&'a str],
) -> Result<(Option<&'a str>, Vec<&'a str>, Times, Vec<&'a str>), Error>
    ensures named { IfOk result (λ found. option_map (λ text. text.now) found.0 ≡ named_subcommand (texts words.entry.now)) }
    ensures files { IfOk result (λ found. texts found.1.items ≡ named_files (texts words.entry.now)) }
    ensures times { IfOk result (λ found. found.2 ≡ named_times (texts words.entry.now)) }
    ensures descriptions { IfOk result (λ found. texts found.3.items ≡ named_descriptions (texts words.entry.now)) }
    ensures kinds { FailsBy (fault_of program_app (texts words.entry.now)) result }
    ensures memory { IfErr result (λ error. AreGoodWords (texts words.entry.now) → kind_of error ≡ ErrorKind.OutOfMemory) }
{
    let matches = program(alloc)?.try_get_matches_from(words)?;
    let files = values_of(alloc, &matches, FILE)?;
    let descriptions = values_of(alloc, &matches, PROGRAMS)?;
    Ok((
        matches.subcommand_name(),
        files,
        times_of(&matches),
        descriptions,
    ))
}

/// The values of an argument that a subcommand was given.
fn values_of<'a>(
    alloc: Global,
    matches: &ArgMatches<'a>,
    name: &str,
) -> Result<Vec<&'a str>, AllocError>
    ensures { IfOk result (λ values. texts values.items ≡ values_in name.now (subcommand_rows_of matches.now)) }
{
    match matches.subcommand() {
        Some((_, found)) => match found.get_strs(name) {
            Some(values) => Vec::from_slice(alloc, values),
            None => Ok(Vec::new(alloc)),
        },
        None => Ok(Vec::new(alloc)),
    }
}

/// Whether the subcommand that prints programs is named.
fn names_programs(name: Option<&str>) -> bool
    ensures { result ≡ is_programs (option_map (λ text. text.now) name.entry) }
{
    match name {
        Some(name) => name == "programs",
        None => false,
    }
}

/// The times that a subcommand is to print.
fn times_of(matches: &ArgMatches<'_>) -> Times
    ensures { result ≡ times_by (flag_in (codes "relative") (subcommand_rows_of matches.now)) (flag_in (codes "times") (subcommand_rows_of matches.now)) }
{
    if has_flag(matches, RELATIVE) {
        return Times::Relative;
    }
    if has_flag(matches, TIMES) {
        return Times::Absolute;
    }
    Times::Hidden
}

/// Whether a subcommand was given the flag.
fn has_flag(matches: &ArgMatches<'_>, name: &str) -> bool
    ensures { result ≡ flag_in name.now (subcommand_rows_of matches.now) }
{
    match matches.subcommand() {
        Some((_, found)) => is_true(found.get_str(name)),
        None => false,
    }
}

/// Whether a flag's value is that of one that was given.
fn is_true(value: Option<&str>) -> bool
    ensures { result ≡ is_true_text (option_map (λ text. text.now) value.entry) }
{
    match value {
        Some(text) => text == "true",
        None => false,
    }
}

/// A word as the program reads it: `--times=relative` stands for the flag `--relative`.
pub fn plain_word(word: &str) -> &str
    ensures { result.now ≡ plain_word_of word.now }
{
    if word == "--times=relative" {
        "--relative"
    } else {
        word
    }
}

/// The mode that a subcommand of that name asks for, if one is named and there is one.
fn mode_named(name: Option<&str>) -> Option<Mode>
    ensures some { IfSome result (λ mode. option_map (λ text. text.now) name.entry ≡ Some (name_of mode)) }
    ensures none { IfNone result ((mode : Mode) → option_map (λ text. text.now) name.entry ≢ Some (name_of mode)) }
{
    Mode::named(name?)
}

/// Why the words name no mode, by `clap`'s error.
pub fn refusal(error: &Error) -> Refusal
    ensures help { kind_of error.now ≡ ErrorKind.DisplayHelp → result ≡ Refusal.Help }
    ensures version { kind_of error.now ≡ ErrorKind.DisplayVersion → result ≡ Refusal.Help }
    ensures memory { kind_of error.now ≡ ErrorKind.OutOfMemory → result ≡ Refusal.NoMemory }
    ensures mistake { kind_of error.now ≢ ErrorKind.DisplayHelp → kind_of error.now ≢ ErrorKind.DisplayVersion
        → kind_of error.now ≢ ErrorKind.OutOfMemory → result ≡ Refusal.Mistake }
{
    match error.kind() {
        ErrorKind::DisplayHelp | ErrorKind::DisplayVersion => Refusal::Help,
        ErrorKind::OutOfMemory => Refusal::NoMemory,
        _ => Refusal::Mistake,
    }
}
