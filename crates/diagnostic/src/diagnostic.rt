//! What is said of a command, as data.

ghost use Rattle.std.specs.Prelude.{◌≡◌, true, codes, IfErr};

use crate::span::{Source, Span, Spot};
use std::alloc::Global;
use term_core::NoMemory;

/// What a diagnostic is.
#[derive(Clone, Copy, PartialEq)]
pub enum Severity {
    /// Why a command was refused.
    Refusal,
    /// What may be a mistake.
    Warning,
    /// Where the steps of a strategy went.
    Profile,
}

impl Severity {
    /// Its word.
    pub fn word(self) -> &'static str
        ensures refusal { self ≡ Severity.Refusal → result.now ≡ codes "refusal" }
        ensures warning { self ≡ Severity.Warning → result.now ≡ codes "warning" }
        ensures profile { self ≡ Severity.Profile → result.now ≡ codes "profile" }
    {
        match self {
            Severity::Refusal => "refusal",
            Severity::Warning => "warning",
            Severity::Profile => "profile",
        }
    }
}

/// What it is about: the number and the word of a refusal, or the word of a warning.
#[derive(Clone, Copy)]
pub struct Code {
    /// From 1 to 18; 0 if it is no refusal.
    pub number: u8,
    pub word: &'static str,
}

/// Where the command stands.
#[derive(Clone, Copy)]
pub enum Origin<'a> {
    /// On this line of the script, and those after it.
    Line(u64),
    /// In no script: it loads this file.
    File(&'a str),
}

/// Takes what is said.
pub trait Report {
    /// Called with each diagnostic, in order.
    fn report(&mut self, diagnostic: &Diagnostic);
}

/// What a line of a diagnostic is.
#[derive(Clone, Copy, PartialEq)]
pub(crate) enum LineKind {
    /// The answer that is explained.
    Answer,
    /// What is said first.
    Message,
    /// More of it.
    Note,
    /// A further fault.
    Fault,
    /// What to do.
    Help,
    /// A line of a text, or a `^` below it.
    Excerpt,
}

/// A line: its first byte among those of all, and its first label.
#[derive(Clone, Copy)]
pub(crate) struct Line {
    pub(crate) kind: LineKind,
    pub(crate) start: usize,
    pub(crate) labels: usize,
    /// What takes the place of a span of the command's text, if it is a help that can be applied.
    pub(crate) replacement: Option<Replacement>,
}

/// Bytes of what is kept beside the sentences.
#[derive(Clone, Copy)]
pub(crate) struct Kept {
    pub(crate) start: usize,
    pub(crate) end: usize,
}

/// Bytes that take the place of a span.
#[derive(Clone, Copy)]
pub(crate) struct Replacement {
    pub(crate) span: Span,
    pub(crate) with: Kept,
}

/// A place that a line speaks of, and the bytes among those of all that say where it is.
#[derive(Clone, Copy)]
pub(crate) struct Label {
    pub(crate) place: LabelPlace,
    pub(crate) said: Kept,
}

/// What a label is the place of.
#[derive(Clone, Copy)]
pub(crate) enum LabelPlace {
    /// A place of the command's text, or of that of a module.
    Text {
        module: Option<Kept>,
        span: Option<Span>,
        line: u64,
        column: u64,
    },
    /// A subterm of the tree of the command, by its path.
    Tree(Kept),
}

/// A definition, or the command if it has no name, and steps that were taken in it.
#[derive(Clone, Copy)]
pub(crate) struct Share {
    pub(crate) name: Option<Kept>,
    pub(crate) steps: u64,
}

/// What is said of a command. Its lines are written one after the other, by `say!`; a growth of memory
/// that is refused is kept in mind until the end.
pub struct Diagnostic {
    pub(crate) severity: Severity,
    pub code: Code,
    /// The line of the command, if it stands in a script, or the file that it loads.
    pub(crate) line: u64,
    pub(crate) file: Option<Kept>,
    /// What the message is about, in front of it: a command by its word and its name.
    pub(crate) subject: Option<Kept>,
    /// Whether a text ends too early.
    pub(crate) ends: bool,
    /// The bytes of all lines, one after the other.
    pub(crate) text: Vec<u8>,
    pub(crate) lines: Vec<Line>,
    pub(crate) labels: Vec<Label>,
    pub(crate) shares: Vec<Share>,
    /// The module and the definition in which the cause is.
    pub(crate) cause: Option<(Kept, Kept)>,
    /// Names, and texts that take the place of others.
    pub(crate) kept: Vec<u8>,
    refused: bool,
}

// By hand, so that a drop is a call: a derived one is proved anew wherever a scope ends.
impl Drop for Diagnostic {
    fn drop(self) {
        let Diagnostic {
            severity: _,
            code: _,
            line: _,
            file: _,
            subject: _,
            ends: _,
            text: _,
            lines: _,
            labels: _,
            shares: _,
            cause: _,
            kept: _,
            refused: _,
        } = self;
    }
}

impl Diagnostic {
    /// One that says nothing yet of a command that stands there. What is written first is its message.
    pub fn new(alloc: Global, severity: Severity, code: Code, origin: Origin<'_>) -> Diagnostic
        ensures severity { result.severity ≡ severity }
        ensures code { result.code ≡ code }
    {
        let mut new = Diagnostic {
            severity,
            code,
            line: 0,
            file: None,
            subject: None,
            ends: false,
            text: Vec::new(alloc),
            lines: Vec::new(alloc),
            labels: Vec::new(alloc),
            shares: Vec::new(alloc),
            cause: None,
            kept: Vec::new(alloc),
            refused: false,
        };
        match origin {
            Origin::Line(line) => new.line = line,
            Origin::File(file) => new.file = Some(new.keep_bytes(file.as_bytes())),
        }
        new.begin(LineKind::Message);
        new
    }

    /// With this code, whatever was said.
    pub fn with_code(mut self, code: Code) -> Diagnostic
        ensures { result.code ≡ code }
    {
        self.code = code;
        self
    }

    /// Whether a growth of memory was refused, so that it isn't whole.
    pub fn is_broken(&self) -> bool
        ensures { result ≡ self.now.refused }
    {
        self.refused
    }

    /// Keeps in mind whether something was refused.
    pub fn keep(&mut self, outcome: Result<(), NoMemory>)
        ensures refused { IfErr outcome (λ e. self.new.refused ≡ true) }
        ensures earlier { self.old.refused ≡ true → self.new.refused ≡ true }
    {
        self.refused |= outcome.is_err();
    }

    /// Takes what was written so far for the answer that is explained. The message follows.
    pub fn end_answer(&mut self)
        ensures { (self.new.severity ≡ self.old.severity) × (self.new.code ≡ self.old.code) }
    {
        if let Some(line) = self.lines.last_mut() {
            line.kind = LineKind::Answer;
        }
        self.begin(LineKind::Message);
    }

    /// Says in front of the message that it is about the command of this word and name.
    pub fn set_subject(&mut self, word: &[u8], name: &[u8])
        ensures { (self.new.severity ≡ self.old.severity) × (self.new.code ≡ self.old.code) }
    {
        let mut subject = self.keep_bytes(word);
        let _ = self.keep_bytes(b" ");
        subject.end = self.keep_bytes(name).end;
        self.subject = Some(subject);
    }

    /// Begins a line that says more.
    pub fn note(&mut self)
        ensures { (self.new.severity ≡ self.old.severity) × (self.new.code ≡ self.old.code) }
    {
        self.begin(LineKind::Note);
    }

    /// Begins a line on a further fault.
    pub fn fault(&mut self)
        ensures { (self.new.severity ≡ self.old.severity) × (self.new.code ≡ self.old.code) }
    {
        self.begin(LineKind::Fault);
    }

    /// Begins a line that says what to do.
    pub fn help(&mut self)
        ensures { (self.new.severity ≡ self.old.severity) × (self.new.code ≡ self.old.code) }
    {
        self.begin(LineKind::Help);
    }

    /// Says that a tool may put these bytes in the place of a span of the command's text. That is what
    /// the line says.
    pub fn replace(&mut self, span: Option<Span>, with: &[u8])
        ensures { (self.new.severity ≡ self.old.severity) × (self.new.code ≡ self.old.code) }
    {
        if let Some(span) = span {
            let with = self.keep_bytes(with);
            if let Some(line) = self.lines.last_mut() {
                line.replacement = Some(Replacement { span, with });
            }
        }
    }

    /// Notes that the text ends too early: the place that is spoken of is what is open at its end.
    pub fn note_end(&mut self)
        ensures kept { (self.new.severity ≡ self.old.severity) × (self.new.code ≡ self.old.code) }
        ensures end { self.new.ends ≡ true }
    {
        self.ends = true;
    }

    /// Notes in which definition of which module the cause is. The first one that is noted counts.
    pub fn note_cause(&mut self, module: &[u8], definition: &[u8])
        ensures { (self.new.severity ≡ self.old.severity) × (self.new.code ≡ self.old.code) }
    {
        if self.cause.is_none() {
            let module = self.keep_bytes(module);
            self.cause = Some((module, self.keep_bytes(definition)));
        }
    }

    /// Notes steps that were taken in the definition of this name, or in the command.
    pub fn add_share(&mut self, name: Option<&[u8]>, steps: u64)
        ensures { (self.new.severity ≡ self.old.severity) × (self.new.code ≡ self.old.code) }
    {
        let name = match name {
            Some(name) => Some(self.keep_bytes(name)),
            None => None,
        };
        self.refused |= self.shares.push(Share { name, steps }).is_err();
    }

    /// The bytes of a line.
    pub(crate) fn line_bytes(&self, number: usize) -> &[u8] {
        let end = match self.lines.get(number.saturating_add(1)) {
            Some(next) => next.start,
            None => self.text.len(),
        };
        match self.lines.get(number) {
            Some(line) => self.text.get(line.start..end).unwrap_or(&[]),
            None => &[],
        }
    }

    /// The labels of a line.
    pub(crate) fn labels_of(&self, number: usize) -> &[Label] {
        let end = match self.lines.get(number.saturating_add(1)) {
            Some(next) => next.labels,
            None => self.labels.len(),
        };
        match self.lines.get(number) {
            Some(line) => self.labels.get(line.labels..end).unwrap_or(&[]),
            None => &[],
        }
    }

    pub(crate) fn kept_bytes(&self, kept: Kept) -> &[u8] {
        self.kept.get(kept.start..kept.end).unwrap_or(&[])
    }

    pub(crate) fn begin(&mut self, kind: LineKind)
        ensures { (self.new.severity ≡ self.old.severity) × (self.new.code ≡ self.old.code) }
    {
        let line = Line {
            kind,
            start: self.text.len(),
            labels: self.labels.len(),
            replacement: None,
        };
        self.refused |= self.lines.push(line).is_err();
    }

    /// Notes that the bytes since so many say where this is.
    pub(crate) fn label(&mut self, spot: Spot<'_>, start: usize)
        ensures { (self.new.severity ≡ self.old.severity) × (self.new.code ≡ self.old.code) }
    {
        let module = match spot.source {
            Source::Command => None,
            Source::Module(name) => Some(self.keep_bytes(name)),
        };
        let place = LabelPlace::Text {
            module,
            span: spot.span,
            line: spot.line,
            column: spot.column,
        };
        self.push_label(place, start);
    }

    /// Notes that the bytes since so many say where the subterm at this path is.
    pub(crate) fn label_path(&mut self, path: Kept, start: usize)
        ensures { (self.new.severity ≡ self.old.severity) × (self.new.code ≡ self.old.code) }
    {
        self.push_label(LabelPlace::Tree(path), start);
    }

    fn push_label(&mut self, place: LabelPlace, start: usize)
        ensures { (self.new.severity ≡ self.old.severity) × (self.new.code ≡ self.old.code) }
    {
        let said = Kept {
            start,
            end: self.text.len(),
        };
        self.refused |= self.labels.push(Label { place, said }).is_err();
    }

    pub(crate) fn keep_bytes(&mut self, bytes: &[u8]) -> Kept
        ensures { (self.new.severity ≡ self.old.severity) × (self.new.code ≡ self.old.code) }
    {
        let start = self.kept.len();
        self.refused |= self.kept.extend_from_slice(bytes).is_err();
        Kept {
            start,
            end: self.kept.len(),
        }
    }

    pub(crate) fn note_refused(&mut self, refused: bool)
        ensures kept { (self.new.severity ≡ self.old.severity) × (self.new.code ≡ self.old.code) }
        ensures refused { refused ≡ true → self.new.refused ≡ true }
        ensures earlier { self.old.refused ≡ true → self.new.refused ≡ true }
        ensures text { self.new.text ≡ self.old.text }
    {
        self.refused |= refused;
    }
}
