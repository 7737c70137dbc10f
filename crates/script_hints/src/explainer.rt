//! What is said of a refused command.

ghost use Rattle.std.specs.Prelude.{◌≡◌, IfOk};
ghost use Rattle.session_modules.specs.Refusal.{number_of};

use crate::faults::fault_of;
use diagnostic::{
    Code, Diagnostic, Fill, Origin, Severity, Source, Span, Spot, count_characters, place_of, say,
};
use hint_text::{
    CommandParts, Ground, KnownModule, ModuleTexts, ScriptCommand, bytes_at, token_of,
};
use prim_core::Meaning;
use session_history::{Limits, Refusal, Timeline};
use std::alloc::Global;
use strategy_parse::{ParseFault, parse_strategy};
use strategy_syntax::{Place, Strategy};
use strategy_tokens::TokenPlace;
use term_core::NoMemory;

/// What is said so far of a command, and what it is said from.
#[derive(Drop)]
pub struct Explainer<'a, 'm> {
    pub alloc: Global,
    pub hint: Diagnostic,
    pub command: ScriptCommand<'a>,
    pub parts: CommandParts<'a>,
    /// The modules, in the order of their names, where the explanation needs them.
    pub modules: &'m [KnownModule<'m>],
    /// Those of the session.
    pub limits: Limits,
    /// The name in the text of the command that another may be meant by.
    pub wrong: Option<Span>,
}

/// Why the command was refused. The ground is that of the session that refused it. The code is the
/// refusal's: its number, and its word or that of the fault.
///
/// Errors: `NoMemory` if memory can't grow.
pub fn explain<M: Meaning>(
    alloc: Global,
    ground: &Ground<'_, M>,
    command: &ScriptCommand<'_>,
    refusal: &Refusal,
) -> Result<Diagnostic, NoMemory>
    ensures number { IfOk result (λ it. it.code.number ≡ number_of refusal.now) }
{
    if !matches!(refusal, Refusal::Check(..) | Refusal::Fails) {
        return explain_with(alloc, ground, command, refusal, None);
    }
    match ModuleTexts::read(alloc, ground, &command.parts) {
        Ok(texts) => explain_with(alloc, ground, command, refusal, Some(&texts)),
        Err(NoMemory) => Err(NoMemory),
    }
}

fn explain_with<M: Meaning>(
    alloc: Global,
    ground: &Ground<'_, M>,
    command: &ScriptCommand<'_>,
    refusal: &Refusal,
    texts: Option<&ModuleTexts<'_>>,
) -> Result<Diagnostic, NoMemory>
    ensures number { IfOk result (λ it. it.code.number ≡ number_of refusal.now) }
{
    let modules = match texts {
        Some(texts) => texts.all(alloc, &command.parts)?,
        None => Vec::new(alloc),
    };
    let code = Code {
        number: refusal.number(),
        word: match fault_of(refusal) {
            Some(fault) => fault.kind.word(),
            None => refusal.word(),
        },
    };
    let hint = Diagnostic::new(alloc, Severity::Refusal, code, origin_of(command));
    let limits = ground.history.limits();
    let mut explainer = Explainer::new(alloc, hint, command, &modules, limits);
    let explained = explainer.explain_refusal(ground, refusal, texts);
    explainer.hint.keep(explained);
    Ok(explainer.hint.with_code(code))
}

/// Where a command stands.
pub fn origin_of<'a>(command: &ScriptCommand<'a>) -> Origin<'a> {
    match command.file {
        Some(file) => Origin::File(file),
        None => Origin::Line(command.line),
    }
}

impl<'a, 'm> Explainer<'a, 'm> {
    /// One that has said this of the command.
    pub fn new(
        alloc: Global,
        hint: Diagnostic,
        command: &ScriptCommand<'a>,
        modules: &'m [KnownModule<'m>],
        limits: Limits,
    ) -> Explainer<'a, 'm> {
        Explainer {
            alloc,
            hint,
            command: *command,
            parts: command.parts,
            modules,
            limits,
            wrong: None,
        }
    }

    // `refused 10 syntax`; a fault of the checker follows with its name and numbers.
    fn say_refusal(&mut self, refusal: &Refusal) {
        let number = Fill::Number(u64::from(refusal.number()));
        say!(self.hint; "refused {} ", number);
        match fault_of(refusal) {
            Some(fault) => self.say_fault_itself(fault),
            None => self.hint.words(refusal.word()),
        }
        self.hint.end_answer();
    }

    fn explain_refusal<M: Meaning>(
        &mut self,
        ground: &Ground<'_, M>,
        refusal: &Refusal,
        texts: Option<&ModuleTexts<'_>>,
    ) -> Result<(), NoMemory> {
        self.say_refusal(refusal);
        if let Some(fault) = fault_of(refusal) {
            return self.explain_check(ground, fault, texts);
        }
        let history = ground.history;
        match refusal {
            Refusal::Line => self.explain_line(),
            Refusal::NoTree => self.explain_missing(history, "tree"),
            Refusal::NoModule => self.explain_missing(history, "module"),
            Refusal::Term => self.explain_term(),
            Refusal::Path => self.explain_path(history),
            Refusal::Syntax => self.explain_syntax(),
            Refusal::Fails => self.explain_fails(history),
            Refusal::Big => self.explain_big(),
            other => {
                self.explain_limit(history, other);
                Ok(())
            }
        }
    }

    /// The strategy of the command; none if its text is no strategy.
    pub fn strategy(&self) -> Result<Option<Strategy>, NoMemory> {
        match parse_strategy(self.alloc, self.parts.text) {
            Ok(strategy) => Ok(Some(strategy)),
            Err(ParseFault::Memory) => Err(NoMemory),
            Err(_) => Ok(None),
        }
    }

    // ---- places

    /// The place of these bytes of the text of the command, as it stands in the script.
    pub fn spot(&self, start: usize, end: usize) -> Spot<'a> {
        let command = &self.command;
        // The text is without the blanks before the command and the comments within it.
        let place = place_of(
            command.text,
            command.line,
            self.parts.at.saturating_add(start),
        );
        let mut column = count_characters(place.before).saturating_add(1);
        if place.line == command.line {
            column = column.saturating_add(command.indent);
        }
        let mut line = place.line;
        for comment in command.comments {
            if *comment <= line {
                line = line.saturating_add(1);
            }
        }
        Spot {
            source: Source::Command,
            span: Span::within(self.parts.text, start, end),
            line,
            column,
        }
    }

    /// The place of what stands at these bytes, in a sentence.
    pub fn at(&self, place: TokenPlace) -> Fill<'a> {
        Fill::At(self.spot(place.start, place.end))
    }

    /// The place of the character after so many bytes of the text of the command, in a sentence.
    pub fn at_byte(&self, start: usize) -> Fill<'a> {
        Fill::At(self.spot(start, start.saturating_add(1)))
    }

    /// The bytes of the text of the command at a place of it; all of it if that isn't known.
    pub fn bytes_of(&self, place: Place) -> TokenPlace {
        match bytes_at(self.parts.text, place) {
            Some(bytes) => bytes,
            None => TokenPlace {
                start: 0,
                end: self.parts.text.len(),
            },
        }
    }

    /// The bytes of the text of the command at a place of it, in a sentence, and that place.
    pub fn quoted_at(&self, place: TokenPlace) -> (Fill<'a>, Fill<'a>) {
        let bytes = self.parts.text.get(place.start..place.end);
        (Fill::Quoted(bytes.unwrap_or(&[])), self.at(place))
    }

    /// The token of this number of the text of the command, the number of bytes before it, and its
    /// place.
    pub fn token(&self, number: usize) -> (Fill<'a>, usize, Fill<'a>) {
        let (bytes, start) = token_of(self.parts.text, number);
        let end = start.saturating_add(bytes.len());
        (
            Fill::Quoted(bytes),
            start,
            self.at(TokenPlace { start, end }),
        )
    }

    /// Adds the line of the place after so many bytes of the text of the command, and a `^` below it.
    pub fn show(&mut self, start: usize) {
        let (text, at) = (self.command.text, self.parts.at.saturating_add(start));
        self.hint.show(text, at);
    }

    /// Appends a sentence with that place in it, and shows the place.
    pub fn say_at(&mut self, sentence: &str, start: usize) {
        say!(self.hint; sentence, self.at_byte(start));
        self.show(start);
    }

    /// Adds a line with the advice, unless it is empty.
    pub fn say_advice(&mut self, advice: &str) {
        if !advice.is_empty() {
            self.hint.help();
            self.hint.words(advice);
        }
    }
}
