//! What is odd in an accepted command.

use crate::explainer::{Explainer, origin_of};
use crate::variables::{Uses, VariableUse, has_name, variables_of};
use diagnostic::{Code, Diagnostic, Fill, Origin, Report, Severity, say};
use hint_text::{Ground, Past, ScriptCommand, arity_of, declaring, known_modules, missing_modules};
use prim_core::Meaning;
use script_text::{Framing, Keyword as Command};
use session_history::{ReadModule, Timeline};
use sort_hints::Signature;
use std::alloc::Global;
use strategy_syntax::{Definition, Pattern, PatternForm, Place, Strategy, StrategyForm};
use strategy_tokens::TokenPlace;
use term_core::{Name, NoMemory};

// The most bytes of a term that is looked through.
const LOOKED: usize = 16_384;

/// Reports the oddities of a command that was accepted. The ground is the one after the command, and so
/// is what the modules declare, if that is known.
///
/// Errors: `NoMemory` if memory can't grow; what was found before that is reported.
pub fn warn<M: Meaning, R: Report>(
    alloc: Global,
    ground: &Ground<'_, M>,
    command: &ScriptCommand<'_>,
    signature: Option<&Signature>,
    report: &mut R,
) -> Result<(), NoMemory> {
    let parts = command.parts;
    if !parts.is_module() && (!parts.is_term() || parts.text.len() > LOOKED) {
        return Ok(());
    }
    let missing = missing_modules(alloc, ground)?;
    warn_among(alloc, ground, command, &missing, signature, report)
}

fn warn_among<M: Meaning, R: Report>(
    alloc: Global,
    ground: &Ground<'_, M>,
    command: &ScriptCommand<'_>,
    missing: &[ReadModule],
    signature: Option<&Signature>,
    report: &mut R,
) -> Result<(), NoMemory> {
    let modules = known_modules(alloc, ground, missing, &command.parts)?;
    let hint = warning(alloc, "", origin_of(command));
    let limits = ground.history.limits();
    let mut explainer = Explainer::new(alloc, hint, command, &modules, limits);
    if explainer.parts.is_module() {
        explainer.warn_of_modules(signature, report)
    } else {
        explainer.warn_of_constructors(report)
    }
}

pub(crate) fn warning(alloc: Global, word: &'static str, origin: Origin<'_>) -> Diagnostic {
    Diagnostic::new(alloc, Severity::Warning, Code { number: 0, word }, origin)
}

/// What is said of an `apply` that was accepted and replaced nothing. In a group nothing is said.
pub fn warn_of_nothing(
    alloc: Global,
    history: &Timeline,
    command: &ScriptCommand<'_>,
) -> Option<Diagnostic> {
    if !matches!(command.parts.command, Command::Apply) || !history.last_is_empty() {
        return None;
    }
    let mut hint = warning(alloc, "nothing", origin_of(command));
    hint.words("the strategy replaced nothing");
    Some(hint)
}

/// Reports what is odd at the end of a script: a group that is still open.
pub fn warn_of_end<R: Report>(alloc: Global, past: Past, report: &mut R) {
    if let (Some(line), true) = (past.group, past.open) {
        let mut hint = warning(alloc, "group", Origin::Line(line));
        hint.words("the group is still open at the end: what it changed is no step");
        report.report(&hint);
    }
}

// The sides of a rule, or of a definition that is like one, and whether it has a condition.
#[derive(Clone, Copy)]
struct Sides<'a> {
    variables: &'a [Name],
    left: &'a Pattern,
    right: &'a Pattern,
    is_conditional: bool,
}

fn sides_of(definition: &Definition) -> Option<Sides<'_>> {
    let StrategyForm::Scope(variables, inside) = definition.body().form() else {
        return None;
    };
    let (left, then) = match_first(inside)?;
    if let StrategyForm::Build(right) = then.form() {
        return Some(Sides {
            variables,
            left,
            right,
            is_conditional: false,
        });
    }
    if let StrategyForm::Seq(parts) = then.form()
        && let (StrategyForm::Test(_), StrategyForm::Build(right)) = (
            parts.0.form(),
            parts.1.form(),
        )
    {
        return Some(Sides {
            variables,
            left,
            right,
            is_conditional: true,
        });
    }
    None
}

// The pattern that a strategy matches first, and what it does then.
fn match_first(strategy: &Strategy) -> Option<(&Pattern, &Strategy)> {
    if let StrategyForm::Seq(parts) = strategy.form()
        && let StrategyForm::Match(left) = parts.0.form()
    {
        return Some((left, &parts.1));
    }
    None
}

// Whether it is a rule without a condition whose left side is `_` or a variable.
fn catches_all(definition: &Definition) -> bool {
    match sides_of(definition) {
        Some(sides) if !sides.is_conditional => match sides.left.form() {
            PatternForm::Wildcard => true,
            PatternForm::Variable(name) => !has_name(definition.term_parameters(), name),
            _ => false,
        },
        _ => false,
    }
}

impl Explainer<'_, '_> {
    fn warn_of_modules<R: Report>(
        &mut self,
        signature: Option<&Signature>,
        report: &mut R,
    ) -> Result<(), NoMemory> {
        if self.parts.text.is_empty() && self.command.framing == Framing::Lines {
            self.begin("empty");
            let name = Fill::Quoted(self.parts.name);
            say!(self.hint; "the module {} is empty now: each line is a command; `undo` takes it back", name);
            report.report(&self.hint);
        }
        for module in self.modules {
            if module.is_new {
                let definitions = module.definitions();
                for (number, definition) in definitions.iter().enumerate() {
                    self.warn_of_variables(definition, report)?;
                    let before = definitions.get(..number).unwrap_or(&[]);
                    self.warn_of_order(definition, before, report);
                }
                if let Some(signature) = signature {
                    self.warn_of_sorts(signature, *module, report)?;
                }
            }
        }
        Ok(())
    }

    /// Begins a warning of this word.
    pub fn begin(&mut self, word: &'static str) {
        self.hint = warning(self.alloc, word, origin_of(&self.command));
    }

    /// Begins a warning on these bytes of the text, in the definition of this name, if they are in one.
    pub fn begin_warning(&mut self, word: &'static str, within: Option<&Name>, place: TokenPlace) {
        self.begin(word);
        if let Some(name) = within {
            say!(self.hint; "in {}, ", Fill::Quoted(name.bytes()));
        }
        let (token, at) = self.quoted_at(place);
        say!(self.hint; "{}: {}", at, token);
    }

    // Warns once of each variable with the name of a constant, and of each that only the right side of
    // a rule has.
    fn warn_of_variables<R: Report>(
        &mut self,
        definition: &Definition,
        report: &mut R,
    ) -> Result<(), NoMemory> {
        let uses = variables_of(self.alloc, definition.body())?;
        let variables = &uses.variables;
        for (number, found) in variables.iter().enumerate() {
            if !has_use(variables.get(..number).unwrap_or(&[]), found.name) {
                self.warn_of_variable(definition, *found, variables, report);
            }
        }
        self.warn_of_repeated(definition, &uses, report);
        drop(uses);
        Ok(())
    }

    fn warn_of_variable<R: Report>(
        &mut self,
        definition: &Definition,
        found: VariableUse<'_>,
        uses: &[VariableUse<'_>],
        report: &mut R,
    ) {
        let within = Some(definition.name());
        if declaring(self.modules, found.name, 0).is_some() {
            self.begin_warning("constant", within, self.bytes_of(found.place));
            say!(self.hint; " is a variable; the constant is `{}()`", Fill::Bytes(found.name.bytes()));
            report.report(&self.hint);
        } else if let Some(sides) = sides_of(definition)
            && has_name(sides.variables, found.name)
            && all_within(uses, found.name, sides.right.place())
        {
            self.begin_warning("unbound", within, self.bytes_of(found.place));
            self.hint
                .words(" is only on the right side: nothing binds it");
            report.report(&self.hint);
        }
    }

    // Warns of each strategy that is run at many places, and binds a variable at the first of them.
    fn warn_of_repeated<R: Report>(
        &mut self,
        definition: &Definition,
        uses: &Uses<'_>,
        report: &mut R,
    ) {
        let mut told = Place::nowhere();
        for found in &uses.variables {
            if let Some(place) = uses.bound_once(*found)
                && place != told
                && !has_name(definition.term_parameters(), found.name)
            {
                told = place;
                let within = Some(definition.name());
                self.begin_warning("once", within, self.bytes_of(found.place));
                self.hint.words(" is bound at the first place that matches, for all others");
                self.say_advice(
                    "a rule, or a closure `\\ l -> r \\`, binds its variables at each place",
                );
                report.report(&self.hint);
            }
        }
    }

    // Warns of a definition after one of the same name and parameters that matches every term.
    fn warn_of_order<R: Report>(
        &mut self,
        definition: &Definition,
        before: &[Definition],
        report: &mut R,
    ) {
        for earlier in before {
            if earlier.name().equals(definition.name())
                && arity_of(earlier) == arity_of(definition)
                && catches_all(earlier)
            {
                let at = self.at(self.bytes_of(earlier.place().token(0)));
                let place = self.bytes_of(definition.place().token(0));
                self.begin_warning("unreached", Some(definition.name()), place);
                say!(self.hint; " isn't reached: the rule at {} matches every term", at);
                report.report(&self.hint);
                return;
            }
        }
    }
}

fn has_use(uses: &[VariableUse<'_>], name: &Name) -> bool {
    uses.iter().any(|it| it.name.equals(name))
}

// Whether all uses of the variable are within this place.
fn all_within(uses: &[VariableUse<'_>], name: &Name, place: Place) -> bool {
    uses.iter()
        .all(|it| !it.name.equals(name) || place.contains(it.place))
}
