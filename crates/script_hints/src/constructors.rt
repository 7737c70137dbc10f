//! Constructors of an accepted term that no module declares, but nearly.

use crate::explainer::Explainer;
use crate::names::distance;
use diagnostic::{Fill, Report, say};
use hint_text::{KnownModule, token_of, tokens_of};
use std::alloc::Global;
use strategy_syntax::Constructor;
use strategy_tokens::{Sign, Token, TokenPlace, is_mark};
use term_core::{Name, NoMemory};

// The most constructors that are warned of.
const WARNED: u64 = 4;

impl Explainer<'_, '_> {
    /// Warns of the constructors of a term that no module declares, where one declares it with
    /// another number of terms, or one whose name is a byte away. Of a term of more than 4,000
    /// tokens nothing is said.
    pub fn warn_of_constructors<R: Report>(&mut self, report: &mut R) -> Result<(), NoMemory> {
        let tokens = tokens_of(self.alloc, self.parts.text)?;
        let warned = self.warn_of_tokens(&tokens, report);
        drop(tokens);
        warned
    }

    fn warn_of_tokens<R: Report>(
        &mut self,
        tokens: &[Token],
        report: &mut R,
    ) -> Result<(), NoMemory> {
        let mut warned = 0u64;
        for (number, token) in tokens.iter().enumerate() {
            if let Token::Ident(name) = token
                && warned < WARNED
            {
                let terms = terms_of(tokens.get(number..).unwrap_or(&[]));
                if let Some(near) = near_constructor(self.alloc, self.modules, name, terms)?
                    && !has_use(tokens, number, name, terms)
                    && self.is_apart(number)
                {
                    self.warn_of_constructor(number, terms, near, near.name().equals(name));
                    report.report(&self.hint);
                    warned = warned.saturating_add(1);
                }
            }
        }
        Ok(())
    }

    // Whether the token of this number is a whole word of the term: there are signs in these that
    // begin tokens of their own.
    fn is_apart(&self, number: usize) -> bool {
        let (bytes, start) = token_of(self.parts.text, number);
        let (before, rest) = self.parts.text.split_at(start.min(self.parts.text.len()));
        !joins(before.last()) && !joins(rest.get(bytes.len()))
    }

    // Warns of the token of this number, with so many terms: there is a constructor of the same
    // name, or of a near one.
    fn warn_of_constructor(&mut self, number: usize, terms: u64, near: &Constructor, same: bool) {
        let (bytes, start) = token_of(self.parts.text, number);
        let end = start.saturating_add(bytes.len());
        let word = if same { "arity" } else { "undeclared" };
        self.begin_warning(word, None, TokenPlace { start, end });
        let (name, terms) = (
            Fill::Quoted(near.name().bytes()),
            Fill::Count(terms, "term"),
        );
        let declared = Fill::Number(near.arity() as u64);
        if same {
            say!(self.hint; " has {}, and is declared with {}", terms, declared);
        } else {
            say!(self.hint; " isn't declared; {} with {} is", name, terms);
        }
    }
}

// The number of terms of the constructor that these tokens begin with.
fn terms_of(tokens: &[Token]) -> u64 {
    arguments_of(tokens.get(1..).unwrap_or(&[]))
}

fn joins(byte: Option<&u8>) -> bool {
    byte.is_some_and(|byte| b"-+*$.'".contains(byte))
}

// Whether a constructor of this name with so many terms begins before the token of this number.
fn has_use(tokens: &[Token], last: usize, name: &Name, terms: u64) -> bool {
    for (number, token) in tokens.iter().enumerate().take(last) {
        if let Token::Ident(found) = token
            && found.equals(name)
            && terms_of(tokens.get(number..).unwrap_or(&[])) == terms
        {
            return true;
        }
    }
    false
}

// Unless this constructor is declared with so many terms: one of this name, or else one with so
// many terms whose name is a byte away.
fn near_constructor<'m>(
    alloc: Global,
    modules: &'m [KnownModule<'m>],
    name: &Name,
    terms: u64,
) -> Result<Option<&'m Constructor>, NoMemory> {
    let mut near = None;
    for module in modules {
        for placed in module.module.module().constructors() {
            let constructor = placed.item();
            let is_same = constructor.name().equals(name);
            let has_terms = constructor.arity() as u64 == terms;
            let is_better = has_terms && near.is_none();
            if is_same && has_terms {
                return Ok(None);
            } else if is_same
                || (is_better && is_near(alloc, name.bytes(), constructor.name().bytes())?)
            {
                near = Some(constructor);
            }
        }
    }
    Ok(near)
}

// Whether the names differ in one byte. No name of a single byte is taken for another one.
fn is_near(alloc: Global, name: &[u8], other: &[u8]) -> Result<bool, NoMemory> {
    let (least, most) = (name.len().min(other.len()), name.len().max(other.len()));
    if least < 2 || least.saturating_add(1) < most {
        return Ok(false);
    }
    Ok(distance(alloc, name, other)? == 1)
}

// The number of terms in the brackets that come next, if any do. A term begins with a token after `(`
// or `,`.
fn arguments_of(after: &[Token]) -> u64 {
    let mut terms = 0u64;
    let (mut depth, mut begins) = (0u64, false);
    for token in after {
        let next = depth_after(depth, token);
        if begins && next >= depth {
            terms = terms.saturating_add(1);
        }
        begins = next == 1 && (next > depth || is_mark(token, Sign::Comma));
        depth = next;
        if depth == 0 {
            break;
        }
    }
    terms
}

// How many brackets are open after the token, where so many are before. The first one is round.
fn depth_after(depth: u64, token: &Token) -> u64 {
    match token {
        Token::Sign(Sign::OpenRound) => depth.saturating_add(1),
        Token::Sign(Sign::OpenSquare | Sign::OpenCurly) if depth > 0 => depth.saturating_add(1),
        Token::Sign(Sign::CloseRound | Sign::CloseSquare | Sign::CloseCurly) => {
            depth.saturating_sub(1)
        }
        _ => depth,
    }
}
