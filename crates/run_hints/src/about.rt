//! What a command ran, and where its strategies stand: in the command, or in the bodies of
//! definitions.

use crate::finding::{Node, Part, is_around};
use crate::stands::Called;
use diagnostic::{DEEPEST, Spot};
use hint_text::{bytes_at, token_of};
use session_history::CheckedTexts;
use std::alloc::Global;
use strategy_parse::{definition_stands_at, stands_at, token_count};
use strategy_run::Stop;
use strategy_syntax::{
    Definition, Place, Resolved, ResolvedForm, ResolvedStrategy, Strategy, TokenRange,
};
use term_core::Term;

/// What a command ran: its strategy with names and resolved, its text, and the modules.
#[derive(Clone, Copy)]
pub struct About<'a> {
    pub alloc: Global,
    pub modules: &'a CheckedTexts,
    pub text: &'a [u8],
    pub named: &'a Strategy,
    pub resolved: &'a Resolved,
    /// The term that the strategy was applied to, and its path.
    pub term: &'a Term,
    pub path: &'a [usize],
    /// What ends a run of it, if anything.
    pub stop: Option<&'a Stop>,
}

/// A body of the definition of this number.
#[derive(Clone, Copy)]
pub struct Body<'a> {
    pub number: usize,
    pub resolved: &'a ResolvedStrategy,
    pub definition: &'a Definition,
    /// The name of its module, and the text of that.
    pub module: &'a [u8],
    pub text: &'a [u8],
}

/// Where a strategy is.
#[derive(Clone, Copy)]
pub struct StrategyPlace<'a> {
    /// The body that has it, or the first of those that it chooses among; none if the command has
    /// it.
    pub body: Option<Body<'a>>,
    /// The strategy; none if it is that choice, or isn't found.
    pub node: Option<Node<'a>>,
    pub is_choice: bool,
    /// The number of calls around it, from the outermost on.
    pub calls: usize,
}

impl<'a> Body<'a> {
    /// The body, resolved and with its names.
    pub fn whole(&self) -> Part<'a> {
        Part::new(self.resolved, self.definition.body())
    }

    /// Whether the library has it.
    pub fn is_of_library(&self) -> bool {
        self.module == b"library".as_slice()
    }

    /// Where it begins in its module's text, with its name.
    pub fn spot(&self) -> Spot<'a> {
        let first = match tokens_at(self.text, self.definition.place()) {
            Some(tokens) => tokens.first,
            None => 0,
        };
        let (name, start) = token_of(self.text, first);
        Spot::in_module(
            self.module,
            self.text,
            start,
            start.saturating_add(name.len()),
        )
    }

    /// Where a part of it stands in its module's text; where it begins, if that part has no tokens.
    pub fn spot_of(&self, part: Place) -> Spot<'a> {
        match bytes_at(self.text, part) {
            Some(bytes) => Spot::in_module(self.module, self.text, bytes.start, bytes.end),
            None => self.spot(),
        }
    }

    /// Whether both are the same.
    pub fn is(&self, other: &Body<'_>) -> bool {
        self.number == other.number && self.resolved.place() == other.resolved.place()
    }
}

/// The body that a choice among those of a definition begins with, and the choice among the others;
/// any other strategy stands alone.
pub fn split_bodies(whole: &ResolvedStrategy) -> (&ResolvedStrategy, Option<&ResolvedStrategy>) {
    match whole.form() {
        ResolvedForm::Guard(parts) if whole.place().is_nowhere() => (&parts.0, Some(&parts.2)),
        _ => (whole, None),
    }
}

/// Whether one of these calls is of the definition.
pub fn has_call(calls: &[Called<'_>], definition: usize) -> bool {
    calls.iter().any(|call| call.definition == definition)
}

impl<'a> About<'a> {
    /// Where a strategy is that was begun within these calls, the outermost first. It may have been
    /// an argument of one of them: then one further out has it, or the command.
    pub fn find(
        &self,
        calls: &[Called<'_>],
        wanted: &ResolvedStrategy,
    ) -> Option<StrategyPlace<'a>> {
        let (first, others) = split_bodies(wanted);
        if others.is_none() && wanted.text() == 0 {
            let whole = Part::new(&self.resolved.strategy, self.named);
            return Some(StrategyPlace {
                body: None,
                node: Node::new(whole, true).find(wanted, DEEPEST),
                is_choice: false,
                calls: 0,
            });
        }
        let (body, calls) = self.body_around(calls, first)?;
        let is_choice = others.is_some();
        let mut node = None;
        if !is_choice {
            node = Node::new(body.whole(), true).find(wanted, DEEPEST);
        }
        Some(StrategyPlace {
            body: Some(body),
            node,
            is_choice,
            calls,
        })
    }

    // The body that has the strategy, of the innermost call that has one, and the number of calls
    // up to that. Calls that others took the place of aren't known any more.
    fn body_around(
        &self,
        calls: &[Called<'_>],
        part: &ResolvedStrategy,
    ) -> Option<(Body<'a>, usize)> {
        for (outer, call) in calls.iter().enumerate().rev() {
            if let Some(body) = self.body_of(call.definition, part) {
                return Some((body, outer.saturating_add(1)));
            }
        }
        for number in 0..self.modules.program().definitions().len() {
            if let Some(body) = self.body_of(number, part) {
                return Some((body, 0));
            }
        }
        None
    }

    // The body of the definition that has the strategy.
    fn body_of(&self, number: usize, part: &ResolvedStrategy) -> Option<Body<'a>> {
        let mut rest = &self.modules.program().definitions().get(number)?.strategy;
        for _ in 0..DEEPEST {
            let (body, others) = split_bodies(rest);
            if is_around(body, part) {
                return self.named_body(number, body);
            }
            rest = others?;
        }
        None
    }

    /// The body after so many others of a definition.
    pub fn body(&self, number: usize, before: usize) -> Option<Body<'a>> {
        let mut rest = &self.modules.program().definitions().get(number)?.strategy;
        for _ in 0..before {
            rest = split_bodies(rest).1?;
        }
        self.named_body(number, split_bodies(rest).0)
    }

    // The body as its module has it.
    fn named_body(&self, number: usize, resolved: &'a ResolvedStrategy) -> Option<Body<'a>> {
        let index = self.modules.index_of(resolved.text())?;
        let named = self.modules.modules().get(index)?;
        let module = named.module();
        let definition = module.definition_at(resolved.place())?;
        Some(Body {
            number,
            resolved,
            definition: module.definitions().get(definition)?,
            module: named.name().bytes(),
            text: self.modules.text(index)?,
        })
    }

    /// The body of a definition that has this strategy; its only one if none has it.
    pub fn body_with(&self, number: usize, wanted: &ResolvedStrategy) -> Option<Body<'a>> {
        let found = self.body_of(number, split_bodies(wanted).0);
        match self.body(number, 1) {
            Some(_) => found,
            None => found.or(self.body(number, 0)),
        }
    }

    /// Whether the tokens at its place give the strategy of the node, or, if it has no tokens of
    /// its own, those around it what it is part of: the definition, or the strategy of the command.
    pub fn is_shown(&self, body: Option<Body<'a>>, node: Node<'a>) -> bool {
        let text = match body {
            Some(body) => body.text,
            None => self.text,
        };
        if stands(self.alloc, text, node.part.named) {
            return true;
        }
        let Some(Body { definition, .. }) = body else {
            return stands(self.alloc, text, self.named);
        };
        let Some(TokenRange { first, end }) = tokens_at(text, definition.place()) else {
            return false;
        };
        let found = definition_stands_at(self.alloc, text, first, end, definition);
        matches!(found, Ok(true))
    }
}

// Whether the tokens of the text at the place of the strategy give it.
fn stands(alloc: Global, text: &[u8], strategy: &Strategy) -> bool {
    let Some(TokenRange { first, end }) = tokens_at(text, strategy.place()) else {
        return false;
    };
    matches!(stands_at(alloc, text, first, end, strategy), Ok(true))
}

fn tokens_at(text: &[u8], place: Place) -> Option<TokenRange> {
    place.tokens(token_count(text) as usize)
}
