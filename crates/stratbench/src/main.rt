//! Reads a script from a file or standard input and answers each of its commands on standard
//! output.
#![tactic(auto)]

ghost use Rattle.std.specs.Prelude.{◌≤◌, ◌+◌, ◌<◌, ◌^◌, Ok, OnOk};
ghost use Rattle.session_history.specs.Acts.{ComesTo, commit};
ghost use Rattle.term_core.specs.declared.TheConstants.{MAX_ROOM};
ghost use Rattle.command_line.specs.Line.{modules_of};
ghost use Rattle.stratbench.specs.Files.{Loads, LoadsAll, LoadsFile, LoadsModules, SetsAll};

mod checking;
mod dialogue;
mod explaining;
mod loading;
mod reading;
mod room;
mod status;
mod writing;

use checking::check_modules;
use clap::Error;
use clap::error::ErrorKind;
use command_line::{CommandLine, Escaped, Load, arguments};
use dialogue::Prompting;
use explaining::{Explaining, Shown, shown_name};
use loading::{Loaded, load_text, loaded_text, with_fault};
use observing::{Form, Observer, Wanted};
use prim_core::{Meaning, Primitive, Primitives};
use prim_extended::extended_primitives;
use reading::{ScriptFile, limit_of, read_file};
use room::{needed_stack, too_small_stack};
use script_core::{
    Answer, Counted, Framing, RunFault, Settings, Sink, Source, Summary, run, run_watched, status,
};
use session_core::{Refusal, Session};
use session_loading::{LIBRARY, load_library};
use status::{FileFault, file_status};
use std::alloc::Global;
use std::cell::Cell;
use std::env;
use std::fs::File;
use std::io::{self, BufWriter, IsTerminal, Write};
use std::process::ExitCode;
use writing::write_tree;

// The exit status if the command line is refused.
const REFUSED: u8 = 2;

// The exit status if there is no memory, or too little stack.
const NO_MEMORY: u8 = 4;

fn main(rt: HostRuntime) -> ExitCode {
    ExitCode::from(start(&rt))
}

// Reads the command line and runs the script. Returns the exit status.
fn start(rt: &HostRuntime) -> u8 {
    match words(rt) {
        Ok(words) => start_with(rt, &words),
        Err(error) if error.kind() == io::ErrorKind::OutOfMemory => {
            report(rt, Err(RunFault::Memory))
        }
        Err(error) => {
            let _ = eprintln!(rt; "stratbench: {error}");
            REFUSED
        }
    }
}

fn start_with(rt: &HostRuntime, words: &[String]) -> u8 {
    match arguments(rt.alloc(), words) {
        Ok(line) => {
            let needed = needed_stack(line.max_tokens);
            match too_small_stack(rt, needed) {
                None => run_line(rt, &line),
                Some(bytes) => refuse_stack(rt, bytes, needed),
            }
        }
        Err(error) => refuse_line(rt, &error),
    }
}

// Says that the stack is too small. The deepest terms and strategies would overflow it, and answers
// would be lost.
fn refuse_stack(rt: &HostRuntime, bytes: u64, needed: u64) -> u8 {
    let (has, needed) = (bytes / 1024, needed / 1024);
    let _ = eprintln!(rt;
        "stratbench: no memory: the stack has {has} KiB, and a session needs {needed} (`ulimit -s` sets it)"
    );
    NO_MEMORY
}

// The words of the command line, which have to be text. `--explain=json` is another spelling of
// `--explain-json`.
fn words(rt: &HostRuntime) -> io::Result<Vec<String>> {
    let mut words: Vec<String> = env::args(rt)?.collect(rt.alloc())?;
    for word in &mut words {
        if word.as_str() == "--" {
            break;
        }
        if word.as_str() == "--explain=json" {
            *word = String::from_str(rt.alloc(), "--explain-json")?;
        }
    }
    Ok(words)
}

// Prints the help text, or why the command line is refused.
fn refuse_line(rt: &HostRuntime, error: &Error) -> u8 {
    if error.kind() == ErrorKind::OutOfMemory {
        return report(rt, Err(RunFault::Memory));
    }
    let _ = error.print(rt);
    error.exit_code() as u8
}

// Prints the fault of a run, if there was one.
fn report(rt: &HostRuntime, outcome: Result<Summary, RunFault>) -> u8 {
    if let Err(fault) = &outcome {
        let _ = eprintln!(rt; "stratbench: {fault}");
    }
    status(&outcome)
}

// Prints what is wrong with a file.
fn report_file(rt: &HostRuntime, file: &str, fault: &FileFault) -> u8 {
    let file = Escaped(file);
    let _ = match fault {
        FileFault::Read(error) => eprintln!(rt; "stratbench: read fault: {file}\n    {error}"),
        FileFault::Write(error) => eprintln!(rt; "stratbench: write fault: {file}\n    {error}"),
        FileFault::Memory => eprintln!(rt; "stratbench: no memory: {file}"),
        FileFault::Refused(refusal) => print_refusal(rt, file, refusal),
    };
    file_status(fault)
}

// Prints a refusal as an answer has it.
fn print_refusal(rt: &HostRuntime, file: Escaped<'_>, refusal: &Refusal) -> io::Result<()> {
    let Ok(mut text) = Answer::new(rt.alloc()) else {
        return Err(io::ErrorKind::OutOfMemory.into());
    };
    text.refuse(refusal);
    eprint!(rt; "stratbench: {file}: ")?;
    rt.stderr().write_all(text.bytes())
}

// Runs a new session with the extended primitives over the script. Returns the exit status.
fn run_line(rt: &HostRuntime, line: &CommandLine<'_>) -> u8
    requires room { line.now.max_terms ≤ MAX_ROOM }
    requires budget { line.now.budget ≤ line.now.max_steps }
{
    match extended_primitives(rt.alloc()) {
        Ok(primitives) => run_with(rt, line, primitives),
        Err(_) => report(rt, Err(RunFault::Memory)),
    }
}

// Runs a new session with these primitives.
fn run_with<M: Meaning>(
    rt: &HostRuntime,
    line: &CommandLine<'_>,
    primitives: Vec<Primitive<M>>,
) -> u8
    requires { line.now.max_terms ≤ MAX_ROOM }
{
    let primitives = Primitives::new(primitives);
    let mut session = Session::with_limits(rt.alloc(), primitives, line.limits());
    run_whole(rt, line, &mut session)
}

// Loads what is to be loaded, runs the script, and writes what is to be written; or only looks at the
// modules.
fn run_whole<M: Meaning>(rt: &HostRuntime, line: &CommandLine<'_>, session: &mut Session<M>) -> u8 {
    // On a new session only want of memory can refuse the library.
    if line.library && load_library(rt.alloc(), session).is_err() {
        return report(rt, Err(RunFault::Memory));
    }
    if line.check {
        return check_modules(rt, session, line, &mut observer(rt, line));
    }
    if let Err(status) = load_all(rt, session, line) {
        return status;
    }
    let reason = Cell::new(None);
    let outcome = run_session(rt, line, session, &reason);
    let ended = report_run(rt, line, outcome, reason.into_inner());
    match outcome {
        Ok(_) => write_all(rt, session, line, ended),
        // What stands after a fault isn't what the script leads to.
        Err(_) => ended,
    }
}

// Loads the files, up to the first with a fault, whose exit status is returned then. The modules
// are one step, where the first of them stands, so that their order doesn't matter.
fn load_all<M: Meaning>(
    rt: &HostRuntime,
    session: &mut Session<M>,
    line: &CommandLine<'_>,
) -> Result<(), u8>
    ensures { OnOk result (LoadsAll line.now.loads.items session.old session.new) }
{
    let mut done = false;
    for load in &line.loads {
        match load {
            Load::Tree(_) => load_tree(rt, session, load, line)?,
            Load::Module(_) if done => {}
            Load::Module(_) => {
                load_modules(rt, session, line)?;
                done = true;
            }
        }
    }
    Ok(())
}

// Loads all modules as one step, at whose end they are checked.
fn load_modules<M: Meaning>(
    rt: &HostRuntime,
    session: &mut Session<M>,
    line: &CommandLine<'_>,
) -> Result<(), u8>
    ensures { OnOk result (LoadsModules (modules_of line.now.loads.items) session.old session.new) }
{
    if let Err(refusal) = session.begin() {
        return Err(report_file(rt, "--module", &FileFault::from(refusal)));
    }
    // The texts of the files are kept to the end, where it is known what is wrong with them.
    let mut loaded = Vec::new(rt.alloc());
    match set_modules(rt, session, line, &mut loaded) {
        Ok(()) => commit_modules(rt, session, line, &loaded),
        Err(status) => Err(status),
    }
}

// Ends the group of the modules, which are checked together.
fn commit_modules<M: Meaning>(
    rt: &HostRuntime,
    session: &mut Session<M>,
    line: &CommandLine<'_>,
    loaded: &[Loaded<'_, '_>],
) -> Result<(), u8>
    ensures { OnOk result (ComesTo commit session.old (Ok session.new)) }
{
    match session.commit() {
        Ok(()) => {
            warn_of_modules(rt, session, line, loaded);
            Ok(())
        }
        Err(refusal) => Err(report_modules(rt, session, line, loaded, refusal)),
    }
}

// Sets all modules, in their order.
fn set_modules<'l, 'a, M: Meaning>(
    rt: &HostRuntime,
    session: &mut Session<M>,
    line: &'l CommandLine<'a>,
    loaded: &mut Vec<Loaded<'l, 'a>>,
) -> Result<(), u8>
    ensures { OnOk result (SetsAll (modules_of line.now.loads.items) session.old session.new) }
{
    for load in &line.loads {
        match load {
            Load::Module(_) => set_module(rt, session, load, line, loaded)?,
            Load::Tree(_) => {}
        }
    }
    Ok(())
}

// Sets a module, and keeps the text of its file.
fn set_module<'l, 'a, M: Meaning>(
    rt: &HostRuntime,
    session: &mut Session<M>,
    load: &'l Load<'a>,
    line: &CommandLine<'_>,
    loaded: &mut Vec<Loaded<'l, 'a>>,
) -> Result<(), u8>
    ensures { OnOk result (LoadsFile load.now session.old session.new) }
{
    let text = match read_file(rt, load.file(), limit_of(line.max_terms)) {
        Ok(text) => text,
        Err(fault) => return Err(report_file(rt, load.file(), &fault)),
    };
    load_one(rt, session, load, &text, line)?;
    match loaded.push(Loaded { load, text }) {
        Ok(()) => Ok(()),
        Err(_) => Err(report_file(rt, load.file(), &FileFault::Memory)),
    }
}

// Loads a tree, and says what is wrong with it.
fn load_tree<M: Meaning>(
    rt: &HostRuntime,
    session: &mut Session<M>,
    load: &Load<'_>,
    line: &CommandLine<'_>,
) -> Result<(), u8>
    ensures { OnOk result (LoadsFile load.now session.old session.new) }
{
    match read_file(rt, load.file(), limit_of(line.max_terms)) {
        Ok(text) => {
            load_one(rt, session, load, &text, line)?;
            warn_of_load(rt, session, line, &observer(rt, line), load, &text);
            Ok(())
        }
        Err(fault) => Err(report_file(rt, load.file(), &fault)),
    }
}

// Loads the text of a file, and says why it is refused.
fn load_one<M: Meaning>(
    rt: &HostRuntime,
    session: &mut Session<M>,
    load: &Load<'_>,
    text: &[u8],
    line: &CommandLine<'_>,
) -> Result<(), u8>
    ensures { OnOk result (Loads load.now text.now session.old (Ok session.new)) }
{
    match load_text(rt.alloc(), session, load, text) {
        Ok(()) => Ok(()),
        Err(refusal) => Err(report_load(rt, session, line, load, text, refusal)),
    }
}

// Says what the modules may not be meant to say.
fn warn_of_modules<M: Meaning>(
    rt: &HostRuntime,
    session: &Session<M>,
    line: &CommandLine<'_>,
    modules: &[Loaded<'_, '_>],
) {
    let mut observer = observer(rt, line);
    observer.see_modules(session);
    for module in modules {
        warn_of_load(rt, session, line, &observer, module.load, &module.text);
    }
}

// Says what a text from a file may not be meant to say.
fn warn_of_load<M: Meaning>(
    rt: &HostRuntime,
    session: &Session<M>,
    line: &CommandLine<'_>,
    observer: &Observer<'_>,
    load: &Load<'_>,
    text: &[u8],
) {
    if let Ok(file) = shown_name(rt.alloc(), line, load.file()) {
        warn_of_text(rt, session, observer, load, &file, text);
    }
}

// Says it of a file that has this name in messages.
fn warn_of_text<'x, M: Meaning>(
    rt: &HostRuntime,
    session: &Session<M>,
    observer: &Observer<'_>,
    load: &'x Load<'_>,
    file: &'x str,
    text: &'x [u8],
) {
    let mut screen = Shown {
        stream: rt.stderr(),
    };
    observer.loaded_together(session, loaded_text(load, file, text), &mut screen);
}

// Prints why the text of a file is refused. Returns the exit status.
fn report_load<M: Meaning>(
    rt: &HostRuntime,
    session: &Session<M>,
    line: &CommandLine<'_>,
    load: &Load<'_>,
    text: &[u8],
    refusal: Refusal,
) -> u8 {
    let told = match shown_name(rt.alloc(), line, load.file()) {
        Ok(file) => explain_text(rt, session, line, &*load, &file, &*text, &refusal),
        Err(_) => false,
    };
    let fault = FileFault::from(refusal);
    if told {
        file_status(&fault)
    } else {
        report_file(rt, load.file(), &fault)
    }
}

// Says why the text of a file is refused, if that is wanted. Returns whether it did. The file has this
// name in messages.
fn explain_text<'x, M: Meaning>(
    rt: &HostRuntime,
    session: &Session<M>,
    line: &CommandLine<'_>,
    load: &'x Load<'_>,
    file: &'x str,
    text: &'x [u8],
    refusal: &Refusal,
) -> bool {
    let mut screen = Shown {
        stream: rt.stderr(),
    };
    let loaded = loaded_text(load, file, text);
    observer(rt, line).load_refused(session, loaded, refusal, &mut screen)
}

// Prints why the modules are refused together, with the file of the one that has the fault, or that
// clashes with one before it.
fn report_modules<M: Meaning>(
    rt: &HostRuntime,
    session: &Session<M>,
    line: &CommandLine<'_>,
    modules: &[Loaded<'_, '_>],
    refusal: Refusal,
) -> u8 {
    match with_fault(rt.alloc(), session, modules, &refusal) {
        Some(it) => report_load(rt, session, line, it.load, &it.text, refusal),
        None => report_file(rt, "--module", &FileFault::from(refusal)),
    }
}

// Writes the trees. Returns the greatest exit status, from this one on.
fn write_all<M: Meaning>(
    rt: &HostRuntime,
    session: &Session<M>,
    line: &CommandLine<'_>,
    ended: u8,
) -> u8 {
    let mut status = ended;
    for named in &line.writes {
        if let Err(fault) = write_tree(rt, session, named, line.pretty) {
            status = status.max(report_file(rt, named.file, &fault));
        }
    }
    status
}

// Prints the fault of a run, if there was one, and the file that couldn't be read, with the reason.
fn report_run(
    rt: &HostRuntime,
    line: &CommandLine<'_>,
    outcome: Result<Summary, RunFault>,
    reason: Option<io::Error>,
) -> u8 {
    let ended = report(rt, outcome);
    if let (Err(RunFault::Read), Some(file)) = (outcome, line.file) {
        let _ = eprintln!(rt; "stratbench: can't read {}", Escaped(file));
    }
    if let Some(error) = &reason {
        let _ = eprintln!(rt; "    {error}");
    }
    ended
}

// Runs the session over the file, or over standard input if no file is named. If the file can't be
// read, the reason is left in `reason`.
fn run_session<M: Meaning>(
    rt: &HostRuntime,
    line: &CommandLine<'_>,
    session: &mut Session<M>,
    reason: &Cell<Option<io::Error>>,
) -> Result<Summary, RunFault> {
    let Ok(writer) = BufWriter::new(rt.alloc(), rt.stdout()) else {
        return Err(RunFault::Memory);
    };
    match line.file {
        None => run_input(rt, session, line, writer),
        Some(path) => match File::open(rt, path) {
            Ok(file) => {
                let file = ScriptFile::new(rt.alloc(), file, limit_of(line.max_terms), reason);
                let (source, sink) = (Counted::new(file), Counted::new(writer));
                run_between(rt, session, line, source, sink, None)
            }
            Err(error) => {
                reason.set(Some(error));
                Err(RunFault::Read)
            }
        },
    }
}

// Runs the session over standard input, with prompts if that is wanted, and it is a terminal.
fn run_input<M: Meaning, W: Write + Drop>(
    rt: &HostRuntime,
    session: &mut Session<M>,
    line: &CommandLine<'_>,
    writer: W,
) -> Result<Summary, RunFault> {
    let source = Counted::new(rt.stdin());
    let sink = Counted::new(writer);
    let at_terminal = rt.stdin().is_terminal() && rt.stderr().is_terminal();
    if at_terminal && line.interactive {
        let in_group = Cell::new(false);
        let source = Prompting::new(source, rt.stderr(), &in_group);
        return run_between(rt, session, line, source, sink, Some(&in_group));
    }
    if at_terminal && line.framing() == Framing::Continued {
        let _ = eprintln!(rt; "stratbench: {LATE}");
    }
    run_between(rt, session, line, source, sink, None)
}

// The settings of the run.
fn settings(line: &CommandLine<'_>) -> Settings {
    Settings {
        steps: line.budget,
        stop: line.stop,
        framing: line.framing(),
    }
}

// What says of the commands of the run, and of the files, what the command line wants.
fn observer(rt: &HostRuntime, line: &CommandLine<'_>) -> Observer<'static> {
    let wanted = Wanted {
        explanations: line.explains(),
        profiles: line.profile,
        form: if line.explain_json {
            Form::Json
        } else {
            Form::Text("stratbench: ")
        },
    };
    let unloaded = if line.library { None } else { Some(LIBRARY) };
    Observer::new(rt.alloc(), settings(line), wanted, unloaded)
}

// What is said at a terminal where lines may go on.
const LATE: &str = "an answer comes with the next command; with -i each line is answered at once";

// Runs the session from the source to the sink. With prompts, commands are explained, and whether a
// group is open is noted in the cell after each of them.
fn run_between<M: Meaning, I: Source + Drop, O: Sink + Drop>(
    rt: &HostRuntime,
    session: &mut Session<M>,
    line: &CommandLine<'_>,
    mut source: I,
    mut sink: O,
    in_group: Option<&Cell<bool>>,
) -> Result<Summary, RunFault>
    requires source { I.failed source + 1 < 2 ^ 64 }
    requires sink { O.failed sink + 1 < 2 ^ 64 }
{
    let settings = settings(line);
    if line.explains() || line.profile {
        let mut watch = Explaining::new(observer(rt, line), rt.stderr(), in_group);
        let outcome = run_watched(
            rt.alloc(),
            session,
            &mut source,
            &mut sink,
            &mut watch,
            settings,
        );
        watch.end();
        return outcome;
    }
    run(rt.alloc(), session, &mut source, &mut sink, settings)
}
