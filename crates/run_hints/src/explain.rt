//! Runs of commands, run again and looked at.

ghost use Rattle.std.specs.Prelude.{◌≡◌, IfOk};

use crate::about::About;
use crate::observing::Observer;
use crate::record::{RunRecord, Wanted};
use crate::spending::sum;
use crate::telling::Teller;
use diagnostic::{Code, Diagnostic, Fill, Origin, Severity, say};
use hint_text::{CommandParts, Ground, ScriptCommand};
use prim_core::Meaning;
use session_history::{Refusal, Timeline};
use std::alloc::Global;
use strategy_check::resolve;
use strategy_machine::Host;
use strategy_parse::parse_strategy;
use strategy_run::{Ended, Stop, plan_patch_seen};
use term_core::{MAX_HEIGHT, NoMemory, Term};
use term_paths::at;

/// Adds at most eight lines on why the run of a refused command ended as it did; nothing if the refusal
/// is none of a run. The command is run again, in its session, which is left as it is. The code stays.
///
/// Errors: `NoMemory` if memory can't grow, or the stop is asked for.
pub fn explain_run<'a, M: Meaning>(
    alloc: Global,
    ground: &Ground<'a, M>,
    command: &ScriptCommand<'a>,
    refusal: &Refusal,
    stop: Option<&'a Stop>,
    hint: Diagnostic,
) -> Result<Diagnostic, NoMemory>
    ensures code { IfOk result (λ it. it.code ≡ hint.code) }
{
    let code = hint.code;
    let wanted = match refusal {
        Refusal::Fails => Wanted::Failure,
        Refusal::Spent => Wanted::Spending,
        Refusal::Big => Wanted::End,
        _ => return Ok(hint),
    };
    match look_at_own(alloc, ground, command, wanted, stop, hint) {
        Ok(explained) => Ok(explained.with_code(code)),
        Err(NoMemory) => Err(NoMemory),
    }
}

/// Adds at most three lines on the rule that came nearest to a match in an accepted command that
/// replaced nothing; nothing if no rule of the user matched a root without matching all. The command
/// is run again, in the session after it.
///
/// Errors: `NoMemory` if memory can't grow, or the stop is asked for.
pub fn explain_nothing<'a, M: Meaning>(
    alloc: Global,
    ground: &Ground<'a, M>,
    command: &ScriptCommand<'a>,
    stop: Option<&'a Stop>,
    hint: Diagnostic,
) -> Result<Diagnostic, NoMemory> {
    look_at_own(alloc, ground, command, Wanted::Nearest, stop, hint)
}

/// Two lines on where the steps of an accepted command went that applied a strategy to this tree;
/// the session is the one after it, whose modules it leaves as they were.
///
/// Errors: `NoMemory` if memory can't grow, or the stop is asked for.
pub fn profile_run<'a, M: Meaning>(
    alloc: Global,
    ground: &Ground<'a, M>,
    command: &ScriptCommand<'a>,
    tree: &'a Term,
    stop: Option<&'a Stop>,
) -> Result<Diagnostic, NoMemory> {
    let code = Code {
        number: 0,
        word: "steps",
    };
    let origin = Origin::Line(command.line);
    let hint = Diagnostic::new(alloc, Severity::Profile, code, origin);
    look_at(alloc, ground, command, tree, Wanted::Steps, stop, hint)
}

/// The tree that the command of these parts applies a strategy to, if it does.
pub fn tree_of<'a>(
    alloc: Global,
    history: &'a Timeline,
    parts: &CommandParts<'_>,
) -> Option<&'a Term> {
    if parts.is_strategy() {
        parts.tree(alloc, history)
    } else {
        None
    }
}

// Runs the command on its tree, if it applies a strategy, and says what is wanted.
fn look_at_own<'a, M: Meaning>(
    alloc: Global,
    ground: &Ground<'a, M>,
    command: &ScriptCommand<'a>,
    wanted: Wanted,
    stop: Option<&'a Stop>,
    hint: Diagnostic,
) -> Result<Diagnostic, NoMemory> {
    match tree_of(alloc, ground.history, &command.parts) {
        Some(tree) => look_at(alloc, ground, command, tree, wanted, stop, hint),
        None => Ok(hint),
    }
}

// Runs the command on the tree, and says what is wanted.
fn look_at<'a, M: Meaning>(
    alloc: Global,
    ground: &Ground<'a, M>,
    command: &ScriptCommand<'a>,
    tree: &'a Term,
    wanted: Wanted,
    stop: Option<&'a Stop>,
    hint: Diagnostic,
) -> Result<Diagnostic, NoMemory> {
    let parts = &command.parts;
    let path = parts.path_or_root(alloc)?;
    let (Some(term), Some(modules)) = (at(tree, &path), ground.kept) else {
        return Ok(hint);
    };
    let asked = Asked {
        steps: parts.number_or(command.budget),
        wanted,
    };
    // Each of these is held where there is one way out: its drop is proved at each.
    match parse_strategy(alloc, parts.text) {
        Ok(named) => match resolve(alloc, modules.program(), ground.primitives, &named) {
            Ok(resolved) => {
                let about = About {
                    alloc,
                    modules,
                    text: parts.text,
                    named: &named,
                    resolved: &resolved,
                    term,
                    path: path.parts(),
                    stop,
                };
                tell(ground, about, asked, hint)
            }
            Err(_) => Ok(hint),
        },
        Err(_) => Ok(hint),
    }
}

// What is asked of a command that may take so many steps.
#[derive(Clone, Copy)]
struct Asked {
    steps: u64,
    wanted: Wanted,
}

fn tell<M: Meaning>(
    ground: &Ground<'_, M>,
    about: About<'_>,
    asked: Asked,
    hint: Diagnostic,
) -> Result<Diagnostic, NoMemory> {
    let mut teller = Teller { about, hint };
    tell_run(&mut teller, ground, asked)?;
    Ok(teller.hint)
}

fn tell_run<M: Meaning>(
    teller: &mut Teller<'_>,
    ground: &Ground<'_, M>,
    asked: Asked,
) -> Result<(), NoMemory> {
    let kept = watch(ground, teller.about, asked)?;
    tell_kept(teller, ground, asked, &kept)
}

fn tell_kept<M: Meaning>(
    teller: &mut Teller<'_>,
    ground: &Ground<'_, M>,
    asked: Asked,
    kept: &RunRecord<'_>,
) -> Result<(), NoMemory> {
    let nearest = kept.nearest.as_ref();
    match (asked.wanted, &kept.stand, kept.causes.greatest()) {
        (Wanted::Spending, _, _) => teller.say_spent(kept),
        (Wanted::Steps, _, _) => {
            let steps = Fill::Count(sum(&kept.spent), "step");
            say!(teller.hint; "{}", steps);
            teller.say_shares(&kept.spent);
        }
        (Wanted::Nearest, _, _) => {
            if let Some(nearest) = nearest
                && kept.has_left
            {
                teller.say_nearest(nearest);
            }
        }
        (Wanted::Failure | Wanted::FailureIn(_) | Wanted::End, None, _) => {}
        (Wanted::End, Some(stand), _) => teller.say_big(stand),
        (Wanted::Failure | Wanted::FailureIn(_), Some(stand), None) => {
            teller.say_failure(stand, nearest, None, 0);
        }
        (Wanted::Failure | Wanted::FailureIn(_), Some(stand), Some(cause)) => {
            let wanted = Wanted::FailureIn(cause.turn);
            let earlier = watch(ground, teller.about, Asked { wanted, ..asked })?;
            teller.say_failure(stand, nearest, earlier.stand.as_ref(), cause.steps);
        }
    }
    Ok(())
}

// Runs it again, and returns what is kept of that.
fn watch<'t, M: Meaning>(
    ground: &Ground<'t, M>,
    about: About<'t>,
    asked: Asked,
) -> Result<RunRecord<'t>, NoMemory> {
    let host = Host {
        definitions: about.modules.program().definitions(),
        primitives: ground.primitives,
        room: ground.history.limits().max_terms,
    };
    let kept = RunRecord::new(about, asked.wanted, asked.steps)?;
    let mut observer = Observer { host: &host, kept };
    let (alloc, term, level) = (about.alloc, about.term, about.path.len() as u64);
    let mut has_run = true;
    let mut has_left = false;
    if let Some(most) = MAX_HEIGHT.checked_sub(level)
        && term.height() <= most
    {
        let (strategy, look) = (about.resolved, &mut observer);
        let ended = plan_patch_seen(alloc, &host, term, level, strategy, asked.steps, look);
        has_run = ended.is_ok();
        if let Ok(Ended::Done(planned)) = ended {
            has_left = planned.patch.is_nothing();
        }
    }
    if !has_run && !observer.kept.is_complete() {
        return Err(NoMemory);
    }
    let Observer { mut kept, .. } = observer;
    kept.has_left = has_left;
    Ok(kept)
}
