//! The words of a call, and the table of commands.

ghost use Rattle.std.specs.Prelude.{◌≡◌, ◌≤◌, false, Option, IfOk, IfSome, map, string_bytes, option_map};
ghost use Rattle.hs_base.specs.declared.limits.TheConstants.{MAX_REQUESTS};
ghost use Rattle.hs_cli.specs.Commands.{CommandLine, command_of, command_in, unwatched_in, asks_to_watch, is_watched, line_in, line_of, is_set, named, parser, with_words, with_flags, needed, flag, seed_of, size_of, form_in, run_in, number_within, sizes_in, samplers_in, AreSamplers, is_alone, alone, IsSized};
ghost use Rattle.clap.specs.Words.{app_of, rule_of, first_of, found_of, rows_of};

use clap::error::ErrorKind;
use clap::{Arg, ArgAction, ArgMatches, Command as Parser};
use hs_base::Memory;
use hs_base::limits::MAX_REQUESTS;
use hs_compare::limits::{MAX_ONE_IN, MAX_ROOM};
use hs_report::Form;
use hs_text::number;
use std::alloc::Global;

/// What a call is to do.
#[derive(Clone, Copy)]
pub enum Command {
    /// Replays the workload that it reads, and writes the outcome in this form.
    Replay { form: Form },
    /// Runs the workload that it reads on threads, and writes the outcome in this form.
    Run { form: Form },
    /// Runs the workload that it reads on threads, and writes the outcome and, behind it, what two watchers saw.
    Watch,
    /// Writes the workload that it reads with version 2.
    Convert,
    /// Says whether the journal that it reads behind a workload is lawful for that, and writes the outcome of the two.
    Check,
    /// Writes the workload of so many requests that the seed makes. Reads nothing.
    Make { seed: u64, size: u32 },
    /// Replays the workload of so many requests that the seed makes, and writes the total line. Reads nothing.
    Drill { seed: u64, size: u32 },
    /// Says what head sampling of one trace in so many, tail sampling, and tail sampling with a ring that has room for so many
    /// records would keep of the workload that it reads.
    Compare { one_in: u32, room: u32 },
}

impl Command {
    /// Whether it has watchers.
    pub(crate) fn is_watched(self) -> bool
        ensures { result ≡ is_watched self }
    {
        matches!(self, Command::Watch)
    }
}

/// The words of a call, told apart.
#[derive(Clone, Copy)]
struct CommandLine<'a> {
    command: &'a str,
    seed: Option<&'a str>,
    size: Option<&'a str>,
    json: bool,
    watch: bool,
}

impl CommandLine<'_> {
    /// Whether the line has nothing but a command and the flag `--json`.
    fn is_alone(self) -> bool
        ensures { result ≡ is_alone (line_in self.entry) }
    {
        self.seed.is_none() && self.size.is_none() && !self.watch
    }

    /// The form of the output that the line asks for, or `None` where it has anything but a command and `--json`.
    fn form(self) -> Option<Form>
        ensures { result ≡ form_in (line_in self.entry) }
    {
        if !self.is_alone() {
            return None;
        }
        Some(if self.json { Form::Json } else { Form::Text })
    }

    /// What the line asks of `run`: with the flag `--watch`, and then with nothing else, that it be watched, or else its output in
    /// a form.
    fn run(self) -> Option<Command>
        ensures is { result ≡ run_in (line_in self.entry) }
        ensures sized { IfSome result IsSized }
    {
        if !self.watch {
            let form = self.form()?;
            return Some(Command::Run { form });
        }
        if self.seed.is_some() || self.size.is_some() || self.json {
            return None;
        }
        Some(Command::Watch)
    }

    /// This command, where the line has nothing but its word.
    fn alone(self, command: Command) -> Option<Command>
        ensures { result ≡ alone (line_in self.entry) command }
    {
        if !self.is_alone() || self.json {
            return None;
        }
        Some(command)
    }

    /// The seed and the size of the line, or `None` where it has not both or has a flag.
    fn sizes(self) -> Option<(u64, u32)>
        ensures is { result ≡ sizes_in (line_in self.entry) }
        ensures within { IfSome result (λ both. (1 ≤ both.1) × (both.1 ≤ MAX_REQUESTS)) }
    {
        if self.json || self.watch {
            return None;
        }
        let seed = seed_in(self.seed?)?;
        let size = size_in(self.size?)?;
        Some((seed, size))
    }

    /// The share of head sampling and the room of the ring, in the places of the seed and the size, or `None` where the line has
    /// not both or has a flag.
    fn samplers(self) -> Option<(u32, u32)>
        ensures is { result ≡ samplers_in (line_in self.entry) }
        ensures within { IfSome result (λ both. AreSamplers both.0 both.1) }
    {
        if self.json || self.watch {
            return None;
        }
        let one_in = within(self.seed?, MAX_ONE_IN)?;
        let room = within(self.size?, MAX_ROOM)?;
        Some((one_in, room))
    }

    /// The command of the table that the line is, or `None` where it is none.
    fn command(self) -> Option<Command>
        ensures is { result ≡ command_of (line_in self.entry) }
        ensures sized { IfSome result IsSized }
    {
        if self.command == "replay" {
            let form = self.form()?;
            Some(Command::Replay { form })
        } else if self.command == "run" {
            self.run()
        } else if self.command == "convert" {
            self.alone(Command::Convert)
        } else if self.command == "check" {
            self.alone(Command::Check)
        } else if self.command == "make" {
            let (seed, size) = self.sizes()?;
            Some(Command::Make { seed, size })
        } else if self.command == "drill" {
            let (seed, size) = self.sizes()?;
            Some(Command::Drill { seed, size })
        } else if self.command == "compare" {
            let (one_in, room) = self.samplers()?;
            Some(Command::Compare { one_in, room })
        } else {
            None
        }
    }
}

/// The seed that a word is, or `None` where it is none.
fn seed_in(word: &str) -> Option<u64>
    ensures { result ≡ seed_of word.now }
{
    number(word.as_bytes())
}

/// The count of requests that a word is, or `None` where it is none.
fn size_in(word: &str) -> Option<u32>
    ensures is { result ≡ size_of word.now }
    ensures within { IfSome result (λ size. (1 ≤ size) × (size ≤ MAX_REQUESTS)) }
{
    within(word, MAX_REQUESTS)
}

/// The number from 1 to this most that a word is, or `None` where it is none.
fn within(word: &str, most: u32) -> Option<u32>
    ensures is { result ≡ number_within most word.now }
    ensures within { IfSome result (λ number. (1 ≤ number) × (number ≤ most)) }
{
    let number = u32::try_from(number(word.as_bytes())?).ok()?;
    if 1 <= number && number <= most {
        Some(number)
    } else {
        None
    }
}

/// A word that has to be there.
fn needed<'a>(alloc: Global, name: &'a str) -> Arg<'a>
    ensures rule { rule_of result ≡ needed name.entry.now }
    ensures local { result.global ≡ false }
{
    Arg::new(alloc, name).required(true)
}

/// A word that is there or not.
fn flag<'a>(alloc: Global, name: &'a str) -> Arg<'a>
    ensures rule { rule_of result ≡ flag name.entry.now }
    ensures local { result.global ≡ false }
{
    Arg::new(alloc, name).long(name).action(ArgAction::SetTrue)
}

/// With the three words of a call: a command, and behind it a seed and a size.
fn with_words<'a>(alloc: Global, parser: Parser<'a>) -> Result<Parser<'a>, Memory>
    ensures { IfOk result (λ p. app_of p ≡ with_words (app_of parser.entry)) }
{
    Ok(
        parser
            .arg(needed(alloc, "COMMAND"))?
            .arg(Arg::new(alloc, "SEED"))?
            .arg(Arg::new(alloc, "SIZE"))?,
    )
}

/// With the two flags, which may stand anywhere.
fn with_flags<'a>(alloc: Global, parser: Parser<'a>) -> Result<Parser<'a>, Memory>
    ensures { IfOk result (λ p. app_of p ≡ with_flags (app_of parser.entry)) }
{
    Ok(parser.arg(flag(alloc, "json"))?.arg(flag(alloc, "watch"))?)
}

/// How the words of a call are told apart.
fn parser<'a>(alloc: Global) -> Result<Parser<'a>, Memory>
    ensures { IfOk result (λ p. app_of p ≡ parser) }
{
    let bare = Parser::new(alloc, "hindsight").disable_help_flag(true);
    with_flags(alloc, with_words(alloc, bare)?)
}

/// The word of this name, if it is there.
fn word<'a>(matches: &ArgMatches<'a>, name: &str) -> Option<&'a str>
    ensures { option_map (λ word. word.now) result ≡ first_of name.now (rows_of (found_of matches.now)) }
{
    matches.get_str(name)
}

/// Whether a flag is there.
fn is_set(matches: &ArgMatches<'_>, name: &str) -> bool
    ensures { result ≡ is_set name.now (rows_of (found_of matches.now)) }
{
    match word(matches, name) {
        Some(value) => value == "true",
        None => false,
    }
}

/// The words that a parse told apart, where a command is among them.
fn line_in<'a>(matches: &ArgMatches<'a>) -> Option<CommandLine<'a>>
    ensures { option_map line_in result ≡ line_of (rows_of (found_of matches.now)) }
{
    Some(CommandLine {
        command: word(matches, "COMMAND")?,
        seed: word(matches, "SEED"),
        size: word(matches, "SIZE"),
        json: is_set(matches, "json"),
        watch: is_set(matches, "watch"),
    })
}

/// The words, behind a program's name.
fn named<'a>(alloc: Global, words: &'a [String]) -> Result<Vec<&'a str>, Memory>
    ensures { IfOk result (λ all. map (λ word. word.now) all.items ≡ named (map (λ word. string_bytes word) words.now)) }
{
    let mut all = Vec::with_capacity(alloc, words.len())?;
    all.push("hindsight")?;
    for word in words {
        all.push(word.as_str())?;
    }
    Ok(all)
}

/// The command that the words are, or `None` where they are none.
pub(crate) fn command_in(alloc: Global, words: &[String]) -> Result<Option<Command>, Memory>
    ensures is { IfOk result (λ command. command ≡ command_in (map (λ word. string_bytes word) words.now)) }
    ensures sized { IfOk result (λ command. IfSome command IsSized) }
{
    let named = named(alloc, words)?;
    match parser(alloc)?.try_get_matches_from(named.as_slice()) {
        Ok(matches) => match line_in(&matches) {
            Some(line) => Ok(line.command()),
            None => Ok(None),
        },
        Err(error) if error.kind() == ErrorKind::OutOfMemory => Err(Memory),
        Err(_) => Ok(None),
    }
}

/// Whether the words are a command that has watchers.
pub(crate) fn asks_to_watch(alloc: Global, words: &[String]) -> Result<bool, Memory>
    ensures { IfOk result (λ asks. asks ≡ asks_to_watch (command_in (map (λ word. string_bytes word) words.now))) }
{
    match command_in(alloc, words)? {
        Some(command) => Ok(command.is_watched()),
        None => Ok(false),
    }
}

/// The command that the words are, or `None` where they are none or one that has watchers.
pub(crate) fn unwatched_in(alloc: Global, words: &[String]) -> Result<Option<Command>, Memory>
    ensures is { IfOk result (λ command. command ≡ unwatched_in (map (λ word. string_bytes word) words.now)) }
    ensures sized { IfOk result (λ command. IfSome command IsSized) }
    ensures unwatched { IfOk result (λ command. IfSome command (λ it. is_watched it ≡ false)) }
{
    match command_in(alloc, words)? {
        Some(command) => Ok(if command.is_watched() {
            None
        } else {
            Some(command)
        }),
        None => Ok(None),
    }
}
