//! The words of the command line, read by `clap`.

ghost use Rattle.std.specs.Prelude.{◌≡◌, ◌≤◌, ◌||◌, ℕ, List, IfOk, IfErr, None, Some, true, false, codes, map, option_map, if◌then◌else◌};
ghost use Rattle.std.specs.Str.Parse.{digits_value, without_leading_plus};
ghost use Rattle.clap.specs.Words.{FailsBy, app_of, first_of, found_of, kind_of, one_text, rows_of, rule_of};
ghost use Rattle.clap.specs.Takes.{is_given};
ghost use Rattle.script_text.specs.declared.framing.Framing.TheVariants.{Continued, Lines};
ghost use Rattle.term_core.specs.declared.TheConstants.{MAX_ROOM, MAX_SIZE};
ghost use Rattle.session_history.specs.declared.TheConstants.{MAX_BUDGET, MOST_STEPS};
ghost use Rattle.clap.specs.declared.error.kind.ErrorKind.TheVariants.{ValueValidation};
ghost use Rattle.command_line.specs.Line.{are_named_all, as_given, budget_of, file_name, files_option, flag_of, given, interactive_flag, line, line_fault, max_steps_option, max_terms_option, max_tokens_option, modules_of, most_steps_of, most_terms_of, most_tokens_of, steps_option, trees_of, values};
ghost use Rattle.command_line.specs.inside.Malformed.{IfMalformed};
ghost use Rattle.command_line.specs.inside.Numbers.{Spells};

use crate::escaped::Escaped;
use crate::named::{Load, Named, Untaken, in_order, read_all};
use clap::error::ErrorKind;
use clap::{Arg, ArgAction, ArgMatches, Command, Error, value_parser};
use script_text::Framing;
use session_history::{Limits, MAX_BUDGET, MOST_STEPS, MOST_TOKENS, USUAL_TOKENS};
use std::alloc::{AllocError, Global};
use std::convert::AsStr;
use term_core::{MAX_ROOM, MAX_SIZE};

/// The budget of a command that names none, if the command line names none either.
pub const DEFAULT_BUDGET: u32 = 100_000;

/// The version of the program. `tools/package` writes over what is in brackets, to the byte: of which
/// commit the program is, and whether it is proved.
pub const VERSION: &str = "1.3.0 (commit ------------, not stated)";

// Examples of use, for the end of the help text.
const EXAMPLES: &str = "Examples:
  stratbench --library simplify.txt      runs a script that applies definitions of the library
  stratbench --steps 1000 --stop <FILE   runs standard input up to the first refused command
  stratbench -i --library                answers line by line at a terminal
  stratbench --module m=rules.str --tree t=in.aterm --write t=out.aterm script
                                         loads a module and a tree, runs a script that changes the
                                         tree, and writes it";

/// What the command line says.
#[derive(Debug, Drop)]
pub struct CommandLine<'a> {
    /// Whether the library's definitions are loaded before the script.
    pub library: bool,
    /// The budget of commands that name none, from 1 to 4,000,000,000.
    pub budget: u32,
    /// The greatest budget, from 1,000,000 to 4,000,000,000.
    pub max_steps: u32,
    /// The greatest size of a term, from 100,000 to 1,000,000,000.
    pub max_terms: u32,
    /// The greatest number of tokens of a module, from 4,000 to 65,535.
    pub max_tokens: u32,
    /// Whether the run ends after the first refused command.
    pub stop: bool,
    /// Whether each line of the script is a command.
    pub lines: bool,
    /// Whether refused commands are explained.
    pub explain: bool,
    /// Whether it is said where the steps of accepted strategies went.
    pub profile: bool,
    /// Whether each line is a command, refused commands are explained, and at a terminal a prompt
    /// comes before each line.
    pub interactive: bool,
    /// The modules and trees that are loaded before the script, in their order.
    pub loads: Vec<Load<'a>>,
    /// The trees that are written after the script, and their files.
    pub writes: Vec<Named<'a>>,
    /// Whether they are written over lines.
    pub pretty: bool,
    /// Whether refused commands are explained, and all that is said is JSON.
    pub explain_json: bool,
    /// Whether modules are only looked at, and the file is one of them.
    pub check: bool,
    /// The file that the script is read from, or none for standard input.
    pub file: Option<&'a str>,
}

impl CommandLine<'_> {
    /// Where a command of the script ends.
    pub fn framing(&self) -> Framing
        ensures { result ≡ (if self.now.lines || self.now.interactive then Lines else Continued) }
    {
        if self.lines || self.interactive {
            Framing::Lines
        } else {
            Framing::Continued
        }
    }

    /// The limits of the session.
    pub fn limits(&self) -> Limits
        ensures terms { result.max_terms ≡ self.now.max_terms }
        ensures steps { result.max_steps ≡ self.now.max_steps }
        ensures tokens { result.max_tokens ≡ self.now.max_tokens }
    {
        Limits {
            max_terms: self.max_terms,
            max_steps: self.max_steps,
            max_tokens: self.max_tokens,
        }
    }

    /// Whether refused commands are explained.
    pub fn explains(&self) -> bool
        ensures { result ≡ (self.now.explain || (self.now.explain_json || (self.now.interactive || self.now.check))) }
    {
        self.explain || self.explain_json || self.interactive || self.check
    }
}

/// Reads the command line, the program's name first: options and a file.
///
/// Errors: those of `clap`, which include a request for the help text and want of memory.
pub fn arguments<'a, S: AsStr>(alloc: Global, words: &'a [S]) -> Result<CommandLine<'a>, Error>
    ensures budget { IfOk result (λ arguments. (1 ≤ arguments.budget) × (arguments.budget ≤ arguments.max_steps)) }
    ensures most { IfOk result (λ arguments. (MAX_BUDGET ≤ arguments.max_steps) × (arguments.max_steps ≤ MOST_STEPS)) }
    ensures room { IfOk result (λ arguments. arguments.max_terms ≤ MAX_ROOM) }
    ensures least_room { IfOk result (λ arguments. MAX_SIZE ≤ arguments.max_terms) }

    // What `clap` finds in the words for this command line, by the names of its arguments.
    ensures number { IfOk result (λ arguments. arguments.budget
        ≡ budget_of (given (map S.text words.now))) }
    ensures max_steps { IfOk result (λ arguments. arguments.max_steps
        ≡ most_steps_of (given (map S.text words.now))) }
    ensures usual { IfOk result (λ arguments. is_given (codes "max-steps") (given (map S.text words.now)) ≡ false
        → arguments.max_steps ≡ MAX_BUDGET) }
    ensures max_terms { IfOk result (λ arguments. arguments.max_terms
        ≡ most_terms_of (given (map S.text words.now))) }
    ensures max_tokens { IfOk result (λ arguments. arguments.max_tokens
        ≡ most_tokens_of (given (map S.text words.now))) }
    ensures file { IfOk result (λ arguments. option_map (λ name. name.now) arguments.file
        ≡ first_of (codes "file") (given (map S.text words.now))) }
    ensures library { IfOk result (λ arguments. arguments.library
        ≡ is_given (codes "library") (given (map S.text words.now))) }
    ensures stop { IfOk result (λ arguments. arguments.stop
        ≡ is_given (codes "stop") (given (map S.text words.now))) }
    ensures lines { IfOk result (λ arguments. arguments.lines
        ≡ is_given (codes "lines") (given (map S.text words.now))) }
    ensures explain { IfOk result (λ arguments. arguments.explain
        ≡ is_given (codes "explain") (given (map S.text words.now))) }
    ensures profile { IfOk result (λ arguments. arguments.profile
        ≡ is_given (codes "profile") (given (map S.text words.now))) }
    ensures interactive { IfOk result (λ arguments. arguments.interactive
        ≡ is_given (codes "interactive") (given (map S.text words.now))) }
    ensures pretty { IfOk result (λ arguments. arguments.pretty
        ≡ is_given (codes "pretty") (given (map S.text words.now))) }
    ensures explain_json { IfOk result (λ arguments. arguments.explain_json
        ≡ is_given (codes "explain-json") (given (map S.text words.now))) }
    ensures check { IfOk result (λ arguments. arguments.check
        ≡ is_given (codes "check") (given (map S.text words.now))) }

    // The files of each option are those of its values, in order.
    ensures modules { IfOk result (λ arguments. map as_given (modules_of arguments.loads.items)
        ≡ values (codes "module") (given (map S.text words.now))) }
    ensures trees { IfOk result (λ arguments. map as_given (trees_of arguments.loads.items)
        ≡ values (codes "tree") (given (map S.text words.now))) }
    ensures writes { IfOk result (λ arguments. map as_given arguments.writes.items
        ≡ values (codes "write") (given (map S.text words.now))) }

    // Words are refused for the reason that `clap` finds, for a budget greater than the greatest, for a
    // value that isn't NAME=FILE, or for want of memory, and accepted only if there is no such reason.
    ensures refused { FailsBy (line_fault (map S.text words.now)) result }
{
    let mut command = command(alloc)?;
    let matches = command.try_get_matches_from_mut(words)?;
    let budget = number_of(&matches, "steps", 1, MOST_STEPS, DEFAULT_BUDGET);
    let max_steps = number_of(&matches, "max-steps", MAX_BUDGET, MOST_STEPS, MAX_BUDGET);
    if budget > max_steps {
        return Err(beyond(alloc, &mut command, budget, max_steps)?);
    }
    match read_files(alloc, &matches) {
        Ok((loads, writes)) => Ok(CommandLine {
            library: matches.get_flag("library"),
            budget,
            max_steps,
            max_terms: number_of(&matches, "max-terms", MAX_SIZE, MAX_ROOM, MAX_SIZE),
            max_tokens: number_of(
                &matches,
                "max-tokens",
                USUAL_TOKENS,
                MOST_TOKENS,
                USUAL_TOKENS,
            ),
            stop: matches.get_flag("stop"),
            lines: matches.get_flag("lines"),
            explain: matches.get_flag("explain"),
            profile: matches.get_flag("profile"),
            interactive: matches.get_flag("interactive"),
            loads,
            writes,
            pretty: matches.get_flag("pretty"),
            explain_json: matches.get_flag("explain-json"),
            check: matches.get_flag("check"),
            file: matches.get_str("file"),
        }),
        Err(Untaken::Malformed(option, value)) => {
            Err(malformed(alloc, &mut command, option, value)?)
        }
        Err(Untaken::Memory) => Err(Error::from(AllocError)),
    }
}

// The files that are loaded, and those that are written.
fn read_files<'a>(
    alloc: Global,
    matches: &ArgMatches<'a>,
) -> Result<(Vec<Load<'a>>, Vec<Named<'a>>), Untaken<'a>>
    ensures modules { IfOk result (λ files. map as_given (modules_of files.0.items)
        ≡ values (codes "module") (rows_of (found_of matches.now))) }
    ensures trees { IfOk result (λ files. map as_given (trees_of files.0.items)
        ≡ values (codes "tree") (rows_of (found_of matches.now))) }
    ensures writes { IfOk result (λ files. map as_given files.1.items
        ≡ values (codes "write") (rows_of (found_of matches.now))) }
    ensures named { IfOk result (λ _. are_named_all (rows_of (found_of matches.now)) ≡ true) }
    ensures malformed { IfErr result (λ untaken. IfMalformed untaken
        (are_named_all (rows_of (found_of matches.now)) ≡ false)) }
{
    let loads = in_order(
        alloc,
        matches.get_strs("module").unwrap_or(&[]),
        matches.indices_of("module").unwrap_or(&[]),
        matches.get_strs("tree").unwrap_or(&[]),
        matches.indices_of("tree").unwrap_or(&[]),
    )?;
    let writes = read_all(alloc, "write", matches.get_strs("write").unwrap_or(&[]))?;
    Ok((loads, writes))
}

// Why a budget isn't taken.
fn beyond(
    alloc: Global,
    command: &mut Command<'_>,
    budget: u32,
    most: u32,
) -> Result<Error, AllocError>
    ensures { IfOk result (λ error. kind_of error ≡ ValueValidation) }
{
    let message = format!(in alloc;
        "invalid value '{budget}' for '--steps <N>': the greatest budget is {most} (--max-steps raises it)"
    )?;
    command.error(ErrorKind::ValueValidation, &message)
}

// Why a value isn't taken.
fn malformed(
    alloc: Global,
    command: &mut Command<'_>,
    option: &str,
    value: &str,
) -> Result<Error, AllocError>
    ensures { IfOk result (λ error. kind_of error ≡ ValueValidation) }
{
    let value = Escaped(value);
    let message = format!(in alloc;
        "invalid value '{value}' for '--{option} <NAME=FILE>': it has to be a name, '=' and a file"
    )?;
    command.error(ErrorKind::ValueValidation, &message)
}

// Each argument is made where it is added, so that none is dropped where memory is refused.
fn command<'a>(alloc: Global) -> Result<Command<'a>, AllocError>
    ensures { IfOk result (λ command. app_of command ≡ line) }
{
    Command::new(alloc, "stratbench")
        .about("Transforms program trees by the commands of a script, and undoes what they changed")
        .version(VERSION)
        .after_help(EXAMPLES)
        .arg(flag(
            alloc,
            "library",
            "Loads the module `library` first, as a step: try, topdown, innermost, map and others",
        ))?
        .arg(steps_option(alloc))?
        .arg(max_steps_option(alloc))?
        .arg(max_terms_option(alloc))?
        .arg(max_tokens_option(alloc))?
        .arg(flag(
            alloc,
            "stop",
            "Ends the run after the first command that is refused",
        ))?
        .arg(flag(
            alloc,
            "lines",
            "Takes each line as a command and answers it at once, for terminals and other programs",
        ))?
        .arg(flag(
            alloc,
            "explain",
            "Says on standard error why a command was refused, and where, and what may be a mistake",
        ))?
        .arg(flag(
            alloc,
            "profile",
            "Says on standard error which definitions took the steps of each strategy",
        ))?
        .arg(interactive_flag(alloc))?
        .arg(files_option(
            alloc,
            "module",
            "Loads a module from a file before the script; can be given again, in any order",
        ))?
        .arg(files_option(
            alloc,
            "tree",
            "Loads a tree from a file before the script, as a step; can be given again",
        ))?
        .arg(files_option(
            alloc,
            "write",
            "Writes a tree to a file after the script; can be given again",
        ))?
        .arg(flag(
            alloc,
            "pretty",
            "Writes trees over lines, as the command `pretty` shows them",
        ))?
        .arg(flag(
            alloc,
            "explain-json",
            "As --explain, but says everything as JSON, a line each; --explain=json is the same",
        ))?
        .arg(flag(
            alloc,
            "check",
            "Says what is wrong with the modules, and with FILE as one more, and runs nothing",
        ))?
        .arg(file_name(alloc))
}

fn flag<'a>(alloc: Global, name: &'a str, help: &'a str) -> Arg<'a>
    ensures rule { rule_of result ≡ flag_of name.now }
    ensures local { result.global ≡ false }
{
    Arg::new(alloc, name)
        .long(name)
        .action(ArgAction::SetTrue)
        .help(help)
}

fn interactive_flag<'a>(alloc: Global) -> Arg<'a>
    ensures rule { rule_of result ≡ interactive_flag }
    ensures local { result.global ≡ false }
{
    flag(
        alloc,
        "interactive",
        "As --lines and --explain, and at a terminal with a prompt before each line",
    )
    .short('i')
}

fn steps_option<'a>(alloc: Global) -> Arg<'a>
    ensures rule { rule_of result ≡ steps_option }
    ensures local { result.global ≡ false }
{
    Arg::new(alloc, "steps")
        .long("steps")
        .value_name("N")
        .value_parser(value_parser!(u32).range(1..=MOST_STEPS as i64))
        .default_value("100000")
        .help("The steps that a strategy may take where `apply` names none")
}

fn max_steps_option<'a>(alloc: Global) -> Arg<'a>
    ensures rule { rule_of result ≡ max_steps_option }
    ensures local { result.global ≡ false }
{
    Arg::new(alloc, "max-steps")
        .long("max-steps")
        .value_name("N")
        .value_parser(value_parser!(u32).range(MAX_BUDGET as i64..=MOST_STEPS as i64))
        .default_value("1000000")
        .help("The most steps that `within` and --steps may name, up to 4,000,000,000")
}

fn max_terms_option<'a>(alloc: Global) -> Arg<'a>
    ensures rule { rule_of result ≡ max_terms_option }
    ensures local { result.global ≡ false }
{
    Arg::new(alloc, "max-terms")
        .long("max-terms")
        .value_name("N")
        .value_parser(value_parser!(u32).range(MAX_SIZE as i64..=MAX_ROOM as i64))
        .default_value("100000")
        .help("The most terms in one that is set or built, up to 1,000,000,000")
}

fn max_tokens_option<'a>(alloc: Global) -> Arg<'a>
    ensures rule { rule_of result ≡ max_tokens_option }
    ensures local { result.global ≡ false }
{
    Arg::new(alloc, "max-tokens")
        .long("max-tokens")
        .value_name("N")
        .value_parser(value_parser!(u32).range(USUAL_TOKENS as i64..=MOST_TOKENS as i64))
        .default_value("4000")
        .help(
            "The most tokens of a module, up to 65,535; none of its items may have more than 4,000",
        )
}

fn files_option<'a>(alloc: Global, name: &'a str, help: &'a str) -> Arg<'a>
    ensures rule { rule_of result ≡ files_option name.now }
    ensures local { result.global ≡ false }
{
    Arg::new(alloc, name)
        .long(name)
        .value_name("NAME=FILE")
        .action(ArgAction::Append)
        .help(help)
}

fn file_name<'a>(alloc: Global) -> Arg<'a>
    ensures rule { rule_of result ≡ file_name }
    ensures local { result.global ≡ false }
{
    Arg::new(alloc, "file")
        .value_name("FILE")
        .help("The script, or standard input where there is none")
}

// The number of an option, which the parser keeps in this range; `usual` where it isn't.
fn number_of(matches: &ArgMatches<'_>, option: &str, least: u32, most: u32, usual: u32) -> u32
    requires { (least ≤ usual) × (usual ≤ most) }
    ensures within { (least ≤ result) × (result ≤ most) }
    ensures none { one_text (found_of matches.now) option.now ≡ None → result ≡ usual }
    ensures read { (text : List ℕ) → one_text (found_of matches.now) option.now ≡ Some text
        → Spells least most text → result ≡ digits_value 10 (without_leading_plus text) }
    ensures other { (text : List ℕ) → one_text (found_of matches.now) option.now ≡ Some text
        → (Spells least most text → ⊥) → result ≡ usual }
{
    match matches.get_one::<u32>(option) {
        Some(number) if number >= least && number <= most => number,
        _ => usual,
    }
}
