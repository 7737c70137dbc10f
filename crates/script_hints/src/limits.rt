//! Limits that a command passes, and steps and groups that aren't there.

use crate::explainer::Explainer;
use aterm_text::{MAX_NESTING, nesting, read, read_annotations};
use diagnostic::{Fill, say};
use hint_text::token_of;
use script_text::MAX_COMMAND;
use session_history::{MOST_STEPS, Refusal, Timeline};
use strategy_tokens::{MAX_TOKENS, MODULE_TOKENS, long_item, token_count};
use term_core::{MAX_HEIGHT, MAX_ROOM, NoMemory, Term};

impl Explainer<'_, '_> {
    /// The refusals whose explanation takes no memory but for its text.
    pub fn explain_limit(&mut self, history: &Timeline, refusal: &Refusal) {
        let group = self.command.past.group;
        let line = Fill::Line(group.unwrap_or(0));
        match refusal {
            Refusal::Name => self.explain_name(),
            Refusal::Deep => self.explain_deep(),
            Refusal::Long => {
                let most = Fill::Number(MAX_COMMAND as u64);
                say!(self.hint; "a command has at most {} bytes", most);
            }
            Refusal::Spent => self.explain_spent(),
            Refusal::NoUndo => self.explain_steps(history.past() as u64, "undo"),
            Refusal::NoRedo => self.explain_steps(history.later() as u64, "redo"),
            Refusal::Group if group.is_some() =>
                say!(self.hint; "a group is open since {}; `commit` or `abandon` ends it", line),
            Refusal::Group => say!(self.hint; "a group is open; `commit` or `abandon` ends it"),
            Refusal::NoGroup if group.is_some() =>
                say!(self.hint; "no group is open; `begin` begins one, and that of {} was ended", line),
            Refusal::NoGroup => say!(self.hint; "no group is open; `begin` begins one"),
            _ => {}
        }
    }

    fn explain_spent(&mut self) {
        let budget = Fill::Count(self.parts.number_or(self.command.budget), "step");
        let most = Fill::Number(u64::from(self.limits.max_steps));
        let raises = Fill::Words(if self.limits.max_steps < MOST_STEPS {
            " (the program's `--max-steps` raises that)"
        } else {
            ""
        });
        say!(self.hint; "the {} of the budget are used up", budget);
        self.hint.help();
        say!(self.hint; "`within K` takes K up to {}{}", most, raises);
    }

    // Which option of the program raises the limit on the size of terms, unless it is the greatest.
    fn raises_terms(&self) -> Fill<'static> {
        Fill::Words(if self.limits.max_terms < MAX_ROOM {
            " (the program's `--max-terms` raises that)"
        } else {
            ""
        })
    }

    fn explain_steps(&mut self, steps: u64, word: &str) {
        let there = Fill::Words(if steps == 1 { "is" } else { "are" });
        say!(self.hint; "there {} {} to {}", there, Fill::Count(steps, "step"), Fill::Words(word));
    }

    // Refusal 8: how deep the term is, or how many tokens the text has.
    fn explain_deep(&mut self) {
        let text = self.parts.text;
        if self.parts.is_module() {
            self.explain_many_tokens(text);
            return;
        }
        let (sentence, count, most, start) = if self.parts.is_strategy() {
            let start = token_of(text, MAX_TOKENS as usize).1;
            let sentence = "the strategy has {} tokens, and may have {}";
            (sentence, token_count(text), MAX_TOKENS, start)
        } else {
            let sentence = "{} brackets are open at one place, and {} may be";
            (sentence, nesting(text), MAX_NESTING, deep_place(text))
        };
        say!(self.hint; sentence, Fill::Number(count), Fill::Number(most));
        self.say_at("; the first too many is at {}", start);
    }

    // The tokens of a module: those of an item if one has too many, which no option allows.
    fn explain_many_tokens(&mut self, text: &[u8]) {
        let start = if let Some(number) = long_item(text) {
            let most = Fill::Number(MAX_TOKENS);
            say!(self.hint; "an item of the module has more than {} tokens", most);
            token_of(text, number).1
        } else {
            let most = u64::from(self.limits.max_tokens).clamp(MAX_TOKENS, MODULE_TOKENS);
            let raises = Fill::Words(if most < MODULE_TOKENS {
                " (the program's `--max-tokens` raises that)"
            } else {
                ""
            });
            say!(self.hint; "the module has {} tokens, and may have {}{}", Fill::Number(token_count(text)), Fill::Number(most), raises);
            token_of(text, most as usize).1
        };
        self.say_at("; the first too many is at {}", start);
    }

    /// Refusal 14: which limit the term passes.
    pub fn explain_big(&mut self) -> Result<(), NoMemory> {
        let level = self.parts.path_or_root(self.alloc)?.len() as u64;
        if self.parts.is_annotations() {
            if let Ok(annotations) = read_annotations(self.alloc, self.parts.text) {
                self.say_first_big(level.saturating_add(1), &annotations);
            }
        } else if self.parts.is_strategy() {
            let (size, height) = (
                Fill::Number(u64::from(self.limits.max_terms)),
                Fill::Number(MAX_HEIGHT),
            );
            self.hint.words("a term that was built doesn't fit");
            self.hint.note();
            say!(self.hint; "a built term has at most {} terms in it{}, and a tree is at most {} high", size, self.raises_terms(), height);
        } else if let Ok(term) = read(self.alloc, self.parts.text) {
            self.say_size(level, &term);
        }
        Ok(())
    }

    fn say_first_big(&mut self, level: u64, annotations: &[Term]) {
        let room = self.limits.max_terms;
        if let Some(annotation) = annotations.iter().find(|it| !it.fits(level, room)) {
            self.say_size(level, annotation);
        }
    }

    fn say_size(&mut self, level: u64, term: &Term) {
        let (size, height) = (term.size(), term.height());
        let most = MAX_HEIGHT.saturating_sub(level);
        let room = u64::from(self.limits.max_terms);
        if size > room {
            say!(self.hint; "the term has {} terms in it, and may have {}{}", Fill::Number(size), Fill::Number(room), self.raises_terms());
        } else if level == 0 {
            say!(self.hint; "the term is {} high, and may be {}", Fill::Number(height), Fill::Number(most));
        } else {
            say!(self.hint; "the term is {} high, and may be {} below {}", Fill::Number(height), Fill::Number(most), Fill::Count(level, "term"));
        }
    }
}

// The number of bytes before the first bracket with which more than 1,000 are open: the greatest
// number of those that don't yet open so many.
fn deep_place(text: &[u8]) -> usize {
    let (mut fits, mut most) = (0usize, text.len());
    for _ in 0..64 {
        let middle = fits.saturating_add(most) / 2;
        if nesting(text.get(..middle).unwrap_or(text)) > MAX_NESTING {
            most = middle;
        } else {
            fits = middle;
        }
    }
    fits
}
