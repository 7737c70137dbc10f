//! Texts that are no terms, no strategies, or no modules.

use crate::explainer::Explainer;
use crate::stuck::{StuckToken, is_bracket, stuck_of};
use diagnostic::{Fill, begins_with_mark, character_at, say};
use hint_text::{token_of, tokens_of};
use strategy_parse::StuckModule;
use strategy_tokens::Token;
use term_core::NoMemory;
use text_faults::{
    BadToken, OpenForm, StuckTerm, TermFault, bad_token, stuck_annotations, stuck_term,
};

/// What is said of a text that begins with the bytes EF BB BF.
pub const BEGINS_WITH_MARK: &str = "the text begins with a byte order mark (U+FEFF)";

const OUT_OF_RANGE: &str =
    "the integer at {} isn't from -9223372036854775808 to 9223372036854775807";

const ESCAPES: &str =
    "the escapes are \\\" \\\\ \\n \\t \\r and \\ with three octal digits, at most \\377";

impl<'a> Explainer<'a, '_> {
    // ---- terms

    /// Refusal 7: where the text stops being a term, or an annotation part.
    pub fn explain_term(&mut self) -> Result<(), NoMemory> {
        let text = self.parts.text;
        let found = if self.parts.is_annotations() {
            stuck_annotations(self.alloc, text)?
        } else {
            stuck_term(self.alloc, text)?
        };
        if let Some(stuck) = found {
            self.say_stuck_term(stuck);
            if stuck.at == 0 && begins_with_mark(text) {
                self.say_advice(BEGINS_WITH_MARK);
            }
        }
        Ok(())
    }

    fn say_stuck_term(&mut self, stuck: StuckTerm) {
        let at = stuck.at;
        match stuck.fault {
            TermFault::End => {
                self.hint.note_end();
                match stuck.open {
                    Some(open) => self.say_here(
                        "the term ends too early; the {} at {} is open",
                        open,
                    ),
                    None => self.hint.words("the term is missing"),
                }
            }
            TermFault::Byte => self.say_byte(stuck),
            TermFault::After => self.say_here("the term ends before {} at {}", at),
            TermFault::Real => self.say_at("the number at {} is a real, and there are none", at),
            TermFault::Placeholder => {
                self.say_at("the `<` at {} begins a placeholder, and there are none", at);
            }
            TermFault::OpenString => self.say_bad(BadToken::OpenString, at),
            TermFault::Escape => self.say_bad(BadToken::Escape(0), at),
            TermFault::Range => self.say_bad(BadToken::Range, at),
        }
    }

    fn say_byte(&mut self, stuck: StuckTerm) {
        let sentence = if self.parts.is_annotations() && !self.parts.text.starts_with(b"{") {
            "annotations begin with `{`, not with {} at {}"
        } else if stuck.at == 0 {
            "no term begins with {} at {}"
        } else {
            "no term goes on with {} at {}"
        };
        say!(self.hint; sentence, self.character(stuck.at), self.at_byte(stuck.at));
        if let Some(open) = stuck.open {
            say!(self.hint; "; the {} at {} is open", self.character(open), self.at_byte(open));
        }
        self.show(stuck.at);
    }

    // Appends a sentence with the character at this place of the text, and the place, which is
    // shown.
    fn say_here(&mut self, sentence: &str, start: usize) {
        say!(self.hint; sentence, self.character(start), self.at_byte(start));
        self.show(start);
    }

    fn character(&self, start: usize) -> Fill<'a> {
        Fill::Quoted(character_at(self.parts.text, start))
    }

    // ---- strategies and modules

    /// Refusal 10: the token with which the text stops being a strategy or a module, or what is
    /// open at its end.
    pub fn explain_syntax(&mut self) -> Result<(), NoMemory> {
        let tokens = tokens_of(self.alloc, self.parts.text)?;
        let said = self.say_syntax(&tokens);
        drop(tokens);
        said
    }

    fn say_syntax(&mut self, tokens: &[Token]) -> Result<(), NoMemory> {
        let parts = self.parts;
        let stuck = stuck_of(self.alloc, &parts, tokens)?;
        let advice = stuck.advice(self.alloc)?;
        self.hint.set_subject(parts.word, parts.name);
        let kind = Fill::Words(if parts.is_module() {
            "module"
        } else {
            "strategy"
        });
        match stuck.after.first() {
            Some(Token::Bad) => {
                let (bytes, start) = token_of(parts.text, stuck.number);
                self.say_bad(bad_token(bytes), start);
            }
            Some(_) => {
                self.say_stuck(kind, &stuck, advice);
                return self.say_later(StuckModule {
                    item: stuck.begin,
                    token: stuck.number,
                });
            }
            None => self.say_end(kind, &stuck, advice),
        }
        Ok(())
    }

    // A token that doesn't go on. The open form is named where nothing better is known.
    fn say_stuck(&mut self, kind: Fill<'_>, stuck: &StuckToken<'_>, advice: &str) {
        let (token, start, at) = self.token(stuck.number);
        let goes_on = Fill::Words(if stuck.number == 0 {
            "begins"
        } else {
            "goes on"
        });
        say!(self.hint; "no {} {} with {} at {}", kind, goes_on, token, at);
        if let Some(open) = stuck.open
            && advice.is_empty()
        {
            let (form, _start, at) = self.token(open.token);
            let sentence = if is_bracket(open.form) {
                "; the {} at {} is open"
            } else {
                "; the {} at {} has no {}"
            };
            say!(self.hint; sentence, form, at, lack_of(open.form));
        }
        self.show(start);
        self.say_advice(advice);
    }

    // A text that ends too early.
    fn say_end(&mut self, kind: Fill<'_>, stuck: &StuckToken<'_>, advice: &str) {
        self.hint.note_end();
        if stuck.number == 0 {
            say!(self.hint; "the {} is missing", kind);
        } else if let Some(open) = stuck.open {
            let (form, start, at) = self.token(open.token);
            say!(self.hint; "the {} ends too early: the {} at {} has no {}", kind, form, at, lack_of(open.form));
            self.show(start);
        } else {
            let (last, start, at) = self.token(stuck.number.saturating_sub(1));
            say!(self.hint; "the {} ends too early: it can't end with {} at {}", kind, last, at);
            self.show(start);
            self.say_advice(advice);
        }
    }

    // A token that is none, or a part of a term, after so many bytes of the text.
    fn say_bad(&mut self, bad: BadToken, start: usize) {
        match bad {
            BadToken::OpenString => self.say_at("the string at {} isn't closed", start),
            BadToken::OpenComment => self.say_at("the comment at {} isn't closed", start),
            BadToken::Escape(more) => {
                self.say_at("the escape at {} isn't known", start.saturating_add(more));
                self.say_advice(ESCAPES);
            }
            BadToken::Range => self.say_at(OUT_OF_RANGE, start),
            BadToken::Byte => {
                self.say_here("no token begins with {} at {}", start);
                self.say_advice(advice_on_bytes(self.parts.text, start));
            }
        }
    }
}

fn advice_on_bytes(text: &[u8], start: usize) -> &'static str {
    let rest = text.get(start..).unwrap_or(&[]);
    if start == 0 && begins_with_mark(text) {
        BEGINS_WITH_MARK
    } else if rest.starts_with(b"$") {
        "there is no `$[..]`: a string is built from its parts by a primitive"
    } else if rest.starts_with(b"#(") {
        "there is no `c#(..)`: a pattern names its constructor"
    } else if rest.starts_with(b"#") {
        "`#` begins a comment of a script in the first column only: write `// ..`"
    } else {
        ""
    }
}

// What has to come in an open form.
fn lack_of(form: OpenForm) -> Fill<'static> {
    Fill::Words(match form {
        OpenForm::Round => "`)`",
        OpenForm::Square => "`]`",
        OpenForm::Curly => "`}`",
        OpenForm::Application => "`>`",
        OpenForm::Guard => "`+`",
        OpenForm::Closure => "second `\\`",
        OpenForm::If => "`then`",
        OpenForm::Then => "`end`, and no `else` before it",
        OpenForm::Else => "`end`",
    })
}
