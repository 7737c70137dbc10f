//! What is said of refused commands and of accepted ones.

use crate::screen::{Form, Screen, Writer};
use diagnostic::Report;
use hint_text::{CommandParts, Ground, Numbered, Past, ScriptCommand, parts_of, parts_of_load};
use prim_core::Meaning;
use run_hints::{explain_nothing, explain_run, profile_run, tree_of};
use script_core::{Framing, Piece, Settings};
use script_hints::{
    explain, part_before, signature_after, signature_of, warn, warn_of_end, warn_of_nothing,
    warn_of_result,
};
use script_text::Keyword;
use session_core::{MAX_BUDGET, Refusal, Session};
use sort_hints::Signature;
use std::alloc::Global;
use term_core::{Label, NoMemory, Term};

/// What is said.
#[derive(Clone, Copy)]
pub struct Wanted {
    /// Why commands are refused, and what may not be meant.
    pub explanations: bool,
    /// Where the steps of accepted strategies went.
    pub profiles: bool,
    /// In which form.
    pub form: Form,
}

/// A text that was loaded, or refused: by the command of this word, under a name.
#[derive(Clone, Copy)]
pub struct LoadedText<'a> {
    /// `module` or `tree`.
    pub word: &'static str,
    pub name: &'a [u8],
    /// What it is called where it is spoken of: a file.
    pub file: &'a str,
    pub text: &'a [u8],
}

/// Sees a run, and says of its commands what is wanted. What it says changes no answer.
#[derive(Drop)]
pub struct Observer<'a> {
    alloc: Global,
    settings: Settings,
    wanted: Wanted,
    // The library's text, if it wasn't loaded.
    library: Option<&'a [u8]>,
    numbered: Numbered,
    past: Past,
    // The tree that the next command applies a strategy to, if its steps are wanted.
    before: Option<Term>,
    // What the modules declare, if that was read since they changed.
    signature: Option<Signature>,
    // The subterm that the next command applies a strategy to, where something is declared.
    part: Option<Term>,
}

impl<'a> Observer<'a> {
    /// One of a run with these settings, before the first command.
    pub fn new(
        alloc: Global,
        settings: Settings,
        wanted: Wanted,
        library: Option<&'a [u8]>,
    ) -> Observer<'a> {
        Observer {
            alloc,
            settings,
            wanted,
            library,
            numbered: Numbered::new(alloc, settings.framing),
            past: Past::new(),
            before: None,
            signature: None,
            part: None,
        }
    }

    /// Begins another script with these settings.
    pub fn begin(&mut self, settings: Settings) {
        self.settings = settings;
        self.numbered = Numbered::new(self.alloc, settings.framing);
        self.past = Past::new();
        self.before = None;
        self.signature = None;
        self.part = None;
    }

    /// The library was loaded.
    pub fn add_library(&mut self) {
        self.library = None;
        self.signature = None;
    }

    /// What is said.
    pub fn wanted(&self) -> Wanted {
        self.wanted
    }

    /// Sets what is said from now on.
    pub fn want(&mut self, wanted: Wanted) {
        self.wanted = wanted;
    }

    // ---- a run, as `Watch` of `script_core` sees it

    /// Sees bytes of the script.
    pub fn consumed(&mut self, bytes: &[u8]) {
        self.numbered.consume(bytes);
    }

    /// Sees a command before it is answered.
    pub fn expected<M: Meaning>(&mut self, session: &Session<M>, command: Piece<'_>) {
        self.before = None;
        self.part = None;
        let parts = parts_of(text_of(command));
        let history = session.timeline();
        if self.wanted.profiles
            && let Some(tree) = tree_of(self.alloc, history, &parts)
            && let Ok(copy) = tree.try_clone()
        {
            self.before = Some(copy);
        }
        if self.wanted.explanations
            && matches!(parts.command, Keyword::Apply)
            && self.has_signature(session)
            && let Ok(part) = part_before(self.alloc, history, &parts)
        {
            self.part = part;
        }
    }

    // Reads what the modules declare, unless that is known. Returns whether anything is declared.
    fn has_signature<M: Meaning>(&mut self, session: &Session<M>) -> bool {
        if self.signature.is_none() {
            self.see_modules(session);
        }
        match &self.signature {
            Some(signature) => !signature.is_empty(),
            None => false,
        }
    }

    // Keeps what the modules declare up to date with a command that was accepted.
    fn keep_signature<M: Meaning>(&mut self, session: &Session<M>, parts: &CommandParts<'_>) {
        if parts.is_module() {
            self.see_module(session, parts.name, parts.text);
        } else if !keeps_modules(parts.command) {
            self.signature = None;
        }
    }

    // Keeps it up to date with a module that was loaded.
    fn see_module<M: Meaning>(&mut self, session: &Session<M>, name: &[u8], text: &[u8]) {
        let before = self.signature.take();
        if self.wanted.explanations
            && let Ok(signature) = signature_after(
                self.alloc,
                session.timeline(),
                before,
                name,
                text,
            )
        {
            self.signature = Some(signature);
        }
    }

    /// Sees a command that was accepted, and says what may not be meant, and where its steps went.
    pub fn accepted<M: Meaning, S: Screen>(
        &mut self,
        session: &Session<M>,
        command: Piece<'_>,
        screen: &mut S,
    ) {
        self.keep_signature(session, &parts_of(text_of(command)));
        let here = self.script_command(command);
        let ground = ground_of(session);
        let mut writer = self.writer(screen);
        if self.wanted.explanations {
            let declared = self.signature.as_ref();
            let _ = warn(self.alloc, &ground, &here, declared, &mut writer);
            if let Some(nothing) = warn_of_nothing(self.alloc, ground.history, &here)
                && let Ok(nothing) = explain_nothing(
                    self.alloc,
                    &ground,
                    &here,
                    session.stop(),
                    nothing,
                )
            {
                writer.report(&nothing);
            }
            if let (Some(part), Some(signature)) = (&self.part, &self.signature)
                && let Ok(Some(wrong)) = warn_of_result(
                    self.alloc,
                    ground.history,
                    &here,
                    signature,
                    part,
                )
            {
                writer.report(&wrong);
            }
        }
        if let Some(tree) = &self.before
            && let Ok(diagnostic) = profile_run(self.alloc, &ground, &here, tree, session.stop())
        {
            writer.report(&diagnostic);
        }
        let past = self.past.after(here.line, here.parts.command, true);
        self.past = past;
    }

    /// Sees a command that was refused, and says why.
    pub fn refused<M: Meaning, S: Screen>(
        &mut self,
        session: &Session<M>,
        command: Piece<'_>,
        refusal: &Refusal,
        screen: &mut S,
    ) {
        let here = self.script_command(command);
        if self.wanted.explanations {
            self.explain(session, &here, refusal, screen);
        }
        let past = self.past.after(here.line, here.parts.command, false);
        self.past = past;
    }

    /// Sees the end of the script, and says what may not be meant there.
    pub fn end<S: Screen>(&mut self, screen: &mut S) {
        if self.wanted.explanations {
            warn_of_end(self.alloc, self.past, &mut self.writer(screen));
        }
    }

    // ---- loads

    /// Sees that a text was loaded, and says what may not be meant.
    pub fn loaded<M: Meaning, S: Screen>(
        &mut self,
        session: &Session<M>,
        text: LoadedText<'_>,
        screen: &mut S,
    ) {
        self.keep_signature(session, &parts_of_load(text.word, text.name, text.text));
        self.loaded_together(session, text, screen);
    }

    /// Sees that several modules were loaded together.
    pub fn see_modules<M: Meaning>(&mut self, session: &Session<M>) {
        self.signature = None;
        if self.wanted.explanations
            && let Ok(signature) = signature_of(self.alloc, session.timeline(), &[])
        {
            self.signature = Some(signature);
        }
    }

    /// Says what may not be meant in a text that was loaded together with others, which were all seen.
    pub fn loaded_together<M: Meaning, S: Screen>(
        &self,
        session: &Session<M>,
        text: LoadedText<'_>,
        screen: &mut S,
    ) {
        if self.wanted.explanations {
            let command = self.load_command(text);
            let declared = self.signature.as_ref();
            let mut writer = self.writer(screen);
            let _ = warn(
                self.alloc,
                &ground_of(session),
                &command,
                declared,
                &mut writer,
            );
        }
    }

    /// Sees that a text was refused, and says why. Returns whether it did.
    pub fn load_refused<M: Meaning, S: Screen>(
        &self,
        session: &Session<M>,
        text: LoadedText<'_>,
        refusal: &Refusal,
        screen: &mut S,
    ) -> bool {
        if !self.wanted.explanations {
            return false;
        }
        let command = self.load_command(text);
        self.explain(session, &command, refusal, screen)
    }

    fn load_command<'c>(&self, text: LoadedText<'c>) -> ScriptCommand<'c>
    where
        'a: 'c,
    {
        ScriptCommand {
            file: Some(text.file),
            line: 1,
            indent: 0,
            comments: &[],
            text: text.text,
            parts: parts_of_load(text.word, text.name, text.text),
            budget: MAX_BUDGET,
            framing: Framing::Continued,
            past: Past::new(),
            library: self.library,
        }
    }

    // ---- what is said

    // Says why a command was refused, and of one that ran how it did. Returns whether there was memory
    // for that.
    fn explain<M: Meaning, S: Screen>(
        &self,
        session: &Session<M>,
        command: &ScriptCommand<'_>,
        refusal: &Refusal,
        screen: &mut S,
    ) -> bool {
        let ground = ground_of(session);
        let stop = session.stop();
        let explained = explain(self.alloc, &ground, command, refusal);
        match explained.and_then(|it| explain_run(
            self.alloc, &ground, command, refusal, stop, it,
        )) {
            Ok(diagnostic) => {
                self.writer(screen).report(&diagnostic);
                !diagnostic.is_broken()
            }
            Err(_) => false,
        }
    }

    fn writer<'s, S>(&self, screen: &'s mut S) -> Writer<'s, S> {
        Writer {
            alloc: self.alloc,
            form: self.wanted.form,
            screen,
        }
    }

    // The command that was completed last, as it stands in the script.
    fn script_command<'c>(&'c self, command: Piece<'c>) -> ScriptCommand<'c> {
        let text = text_of(command);
        ScriptCommand {
            file: None,
            line: self.numbered.line(),
            indent: self.numbered.indent(),
            comments: self.numbered.comments(),
            text,
            parts: parts_of(text),
            budget: self.settings.steps,
            framing: self.settings.framing,
            past: self.past,
            library: self.library,
        }
    }
}

// Whether the modules stay the same where a command is accepted.
fn keeps_modules(command: Keyword) -> bool {
    !matches!(
        command,
        Keyword::Module | Keyword::Unload | Keyword::Undo | Keyword::Redo | Keyword::Abandon
    )
}

/// The name of the module with the first fault of the modules of a session as they are, also in a group.
/// None if they have no fault, or there is no memory to look.
pub fn faulty_module<M: Meaning>(alloc: Global, session: &Session<M>) -> Option<Label> {
    match script_hints::faulty_module(alloc, &ground_of(session)) {
        Ok(found) => found,
        Err(NoMemory) => None,
    }
}

// What the commands of the session are run with.
fn ground_of<M: Meaning>(session: &Session<M>) -> Ground<'_, M> {
    Ground {
        history: session.timeline(),
        kept: session.kept_modules(),
        waiting: session.waiting_modules(),
        primitives: session.primitives(),
    }
}

// The bytes of a command; none if it is too long.
fn text_of(command: Piece<'_>) -> &[u8] {
    match command {
        Piece::Text(text) => text,
        Piece::Long => &[],
    }
}
