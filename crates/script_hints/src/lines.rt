//! Commands that have none of the forms.

use crate::explainer::Explainer;
use crate::names::Near;
use crate::texts::BEGINS_WITH_MARK;
use diagnostic::{Fill, begins_with_mark, say};
use hint_text::{FORMS, has_word, split_word};
use script_text::{Framing, Keyword};
use session_history::MAX_STEPS;
use std::alloc::Global;
use term_core::NoMemory;
use term_paths::read_number;

// The words that begin parts of a module, and the signs that modules and trees have, and words
// don't.
const PARTS: &str = "signature sorts constructors rules strategies imports";

const SIGNS: &[u8] = b"()[]{},:;=\"";

// The words of other programs that show their commands, or end.
const QUESTIONS: &str = "help ? quit exit bye q";

const READ_AS_NAME: &str = "{} is read as the name of the tree";

const NO_AT: &str = "`at` is missing before {}";

const NO_SLASH: &str = "the path {} doesn't begin with `/`";

const NO_NUMBER: &str = "{} is no number from 1 to {}";

impl Explainer<'_, '_> {
    /// Refusal 2: what is wrong with the command, and its form.
    pub fn explain_line(&mut self) -> Result<(), NoMemory> {
        if self.parts.form.is_empty() {
            return self.explain_word();
        }
        self.say_fault();
        self.hint.help();
        say!(self.hint; "the form is `{}`", Fill::Words(self.parts.form));
        Ok(())
    }

    // Says the first fault of a known form, in the order in which they are looked for.
    fn say_fault(&mut self) {
        let parts = self.parts;
        if has_word(parts.form, b"N") && parts.name.is_empty() {
            self.hint.words("the name is missing");
        } else if has_word(parts.form, b"C") && parts.copy.is_empty() {
            self.hint.words("the second name is missing");
        } else if parts.is_strategy() && !has_word("do", parts.keyword) {
            self.say_fault_before_do();
        } else if !parts.has_text() && !parts.text.is_empty() {
            self.say_fault_after_form();
        } else {
            self.say_fault_of_operand();
        }
    }

    // Appends a sentence on this word, or on it and the greatest number that may stand there.
    fn say_of(&mut self, sentence: &str, word: &[u8]) {
        let is_steps = matches!(self.parts.command, Keyword::Undo | Keyword::Redo);
        let most = if is_steps {
            MAX_STEPS
        } else {
            self.limits.max_steps
        };
        say!(self.hint; sentence, Fill::Quoted(word), Fill::Number(u64::from(most)));
    }

    fn say_fault_before_do(&mut self) {
        let (name, word) = (self.parts.name, self.parts.keyword);
        let path = self.parts.path.unwrap_or(&[]);
        let number = self.parts.number.unwrap_or(&[]);
        let is_plain = self.parts.path.is_none() && self.parts.number.is_none();
        if is_plain && has_word("at within do", name) {
            self.say_of(READ_AS_NAME, name);
        } else if has_word("do", number) {
            self.say_of(NO_NUMBER, number);
        } else if has_word("do", path) {
            self.say_of(NO_SLASH, path);
        } else if is_plain && word.starts_with(b"/") {
            self.say_of(NO_AT, word);
        } else if word.is_empty() {
            self.hint.words("`do` and a strategy are missing");
        } else if has_word("at", word) {
            self.hint
                .words("`at` comes before `within`, and at most once");
        } else if has_word("within", word) {
            self.hint.words("`within` comes at most once");
        } else {
            self.say_of("`do` is missing before {}", word);
        }
    }

    fn say_fault_after_form(&mut self) {
        let (parts, word) = (self.parts, split_word(self.parts.text).0);
        if !has_word(parts.form, b"[at") || parts.path.is_some() {
            self.say_of("nothing may follow, but there is {}", word);
        } else if has_word("at", parts.name) {
            self.say_of(READ_AS_NAME, parts.name);
        } else if word.starts_with(b"/") {
            self.say_of(NO_AT, word);
        } else {
            self.say_of("only `at` and a path may follow, but there is {}", word);
        }
    }

    fn say_fault_of_operand(&mut self) {
        let path = self.parts.path.unwrap_or(b"/");
        let Some(numbers) = path.strip_prefix(b"/") else {
            let is_missing = path.is_empty();
            return self.say_of(
                if is_missing {
                    "the path is missing"
                } else {
                    NO_SLASH
                },
                path,
            );
        };
        for part in numbers.split(|byte| *byte == b'/') {
            if part.is_empty() && !numbers.is_empty() {
                return self.say_of("the path {} has no number after a `/`", path);
            } else if !part.is_empty() && read_number(part).is_none() {
                let (path, part) = (Fill::Quoted(path), Fill::Quoted(part));
                say!(self.hint; "the path {} has {}, which is no number from 0 to 4294967295", path, part);
                return;
            }
        }
        match self.parts.number {
            Some([]) | None => self.hint.words("the number is missing"),
            Some(word) => self.say_of(NO_NUMBER, word),
        }
    }

    fn explain_word(&mut self) -> Result<(), NoMemory> {
        let word = self.parts.word;
        let near = nearest_command(self.alloc, word)?;
        if begins_with_mark(word) {
            say!(self.hint; BEGINS_WITH_MARK);
            return Ok(());
        }
        say!(self.hint; "there is no command {}", Fill::Quoted(word));
        match self.command.past.before {
            _ if !near.is_empty() => say!(self.hint; "; did you mean {}?", Fill::Quoted(near)),
            Some((before, line)) if self.goes_on() => self.say_continued(before, line),
            _ => self.say_commands(),
        }
        Ok(())
    }

    // Whether the command looks like a line of the module or the tree before: it has a word or a
    // sign of these, or is a word alone, and none that asks how to go on.
    fn goes_on(&self) -> bool {
        let word = self.parts.word;
        let is_alone = self.parts.text.is_empty() && !has_word(QUESTIONS, word);
        let is_sign = |byte: &u8| SIGNS.contains(byte);
        is_alone || has_word(PARTS, word) || self.command.text.iter().any(is_sign)
    }

    fn say_commands(&mut self) {
        self.hint.help();
        self.hint.words("the commands are");
        for form in FORMS.lines() {
            say!(self.hint; " {}", Fill::Bytes(split_word(form.as_bytes()).0));
        }
    }

    // Says that the command before, of this word, ended.
    fn say_continued(&mut self, before: &str, line: u64) {
        self.hint.help();
        say!(self.hint; match self.command.framing {
            Framing::Lines => "with `--lines` and `-i` each line is a command",
            Framing::Continued => "every line of a command but the first begins with a blank: the `{}` of {} ended before this one",
        }, Fill::Words(before), Fill::Line(line));
    }
}

// The command whose word is nearest: at most one edit away, or two after the same letter. None if
// there is no such command.
fn nearest_command(alloc: Global, word: &[u8]) -> Result<&'static [u8], NoMemory> {
    let mut nearest = Near::none();
    for form in FORMS.lines() {
        let mut near = nearest;
        let name = split_word(form.as_bytes()).0;
        near.offer(alloc, word, name, (0, 0))?;
        if near.far < 2 || word.first() == near.name.first() {
            nearest = near;
        }
    }
    Ok(nearest.name)
}
