//! The alternatives of a choice that failed, and why each did.

use crate::about::{About, Body, StrategyPlace};
use crate::finding::Part;
use crate::matching::{Compared, Miss, are_alike, compare, matched, may_match, part_after};
use crate::stands::Called;
use crate::telling::{Teller, kind_of};
use diagnostic::{DEEPEST, Fill, say};
use strategy_syntax::{Pattern, PatternForm, ResolvedForm as Form, StrategyForm as Named};
use term_core::{Kind, NoMemory, Term};
use term_values::Value;

// The most alternatives for other terms that are listed.
const LISTED: usize = 8;

/// An alternative of a choice: a strategy, or a body of a definition.
#[derive(Clone, Copy)]
pub enum Alternative<'a> {
    Strategy(Part<'a>),
    Body(Body<'a>),
}

impl<'a> Alternative<'a> {
    // The number of the definition that has this body.
    fn number(self) -> Option<usize> {
        match self {
            Alternative::Strategy(_) => None,
            Alternative::Body(body) => Some(body.number),
        }
    }

    fn part(self) -> Part<'a> {
        match self {
            Alternative::Strategy(part) => part,
            Alternative::Body(body) => body.whole(),
        }
    }
}

/// The alternatives that failed before this place of a run did, or of which it is the choice: those
/// around it first.
pub fn alternatives<'a>(
    about: About<'a>,
    place: StrategyPlace<'a>,
    calls: &[Called<'_>],
) -> Result<Vec<Alternative<'a>>, NoMemory> {
    let mut found = Vec::new(about.alloc);
    let mut place = place;
    for _ in 0..=calls.len() {
        add_around(about, &mut found, place)?;
        let number = place.calls.saturating_sub(1);
        let (Some(call), Some(outer)) = (calls.get(number), calls.get(..number)) else {
            break;
        };
        let is_whole = match place.node {
            Some(node) => node.is_whole,
            None => true,
        };
        if !is_whole || place.calls == 0 {
            break;
        }
        match about.find(outer, call.from) {
            Some(around) => place = around,
            None => break,
        }
    }
    Ok(found)
}

// Adds the alternatives of the choice around a place, and the bodies before its own.
fn add_around<'a>(
    about: About<'a>,
    found: &mut Vec<Alternative<'a>>,
    place: StrategyPlace<'a>,
) -> Result<(), NoMemory> {
    if let Some(node) = place.node {
        let is_choice = matches!(node.part.resolved.form(), Form::Guard(_));
        add_choice(found, node.choice.unwrap_or(node.part), is_choice)?;
        if !node.is_whole {
            return Ok(());
        }
    }
    let Some(own) = place.body else {
        return Ok(());
    };
    for before in 0..DEEPEST {
        let Some(body) = about.body(own.number, before) else {
            break;
        };
        if !place.is_choice && body.is(&own) {
            break;
        }
        found.push(Alternative::Body(body))?;
    }
    Ok(())
}

// Adds the alternatives of a choice, but for the last unless that is wanted.
fn add_choice<'a>(
    found: &mut Vec<Alternative<'a>>,
    start: Part<'a>,
    with_last: bool,
) -> Result<(), NoMemory> {
    let mut part = start;
    for _ in 0..DEEPEST {
        let (Form::Guard(parts), Named::Guard(names)) = (part.resolved.form(), part.named.form())
        else {
            break;
        };
        found.push(Alternative::Strategy(Part::new(&parts.0, &names.0)))?;
        part = Part::new(&parts.2, &names.2);
    }
    if with_last {
        found.push(Alternative::Strategy(part))?;
    }
    Ok(())
}

// What an alternative begins with, whatever the term; of a definition with several bodies that of
// one whose left side may match it, or else of the first.
fn first_part<'a>(about: About<'a>, alternative: Alternative<'a>, term: &Term) -> Part<'a> {
    let mut part = alternative.part();
    for _ in 0..DEEPEST {
        let inside = match (part.resolved.form(), part.named.form()) {
            (Form::Test(part), Named::Test(name)) => Some(Part::new(part, name)),
            (Form::Call(number, strategies, patterns), _)
                if strategies.is_empty() && patterns.is_empty() => {
                best_body(about, *number, term)
            }
            _ => part.front(),
        };
        match inside {
            Some(inside) => part = inside,
            None => break,
        }
    }
    part
}

fn best_body<'a>(about: About<'a>, number: usize, term: &Term) -> Option<Part<'a>> {
    for before in 0..DEEPEST {
        let Some(body) = about.body(number, before) else {
            break;
        };
        if let Some(left) = matched(body.whole())
            && may_match(left.resolved, term.kind(), term.child_count())
        {
            return Some(body.whole());
        }
    }
    Some(about.body(number, 0)?.whole())
}

// Whether an alternative may succeed with the term, by its root.
fn matches_root(about: About<'_>, alternative: Alternative<'_>, term: &Term) -> bool {
    let (kind, count) = (term.kind(), term.child_count());
    match first_part(about, alternative, term).resolved.form() {
        Form::Match(pattern) => may_match(pattern, kind, count),
        Form::Congruence(head, parts) => head.is_head_of(kind) && parts.len() == count,
        Form::TailCongruence(parts, _) => matches!(kind, Kind::List) && parts.len() <= count,
        Form::Id
        | Form::Fail
        | Form::Build(_)
        | Form::Seq(_)
        | Form::Guard(_)
        | Form::Test(_)
        | Form::Scope(_, _)
        | Form::Param(_)
        | Form::Call(_, _, _)
        | Form::All(_)
        | Form::One(_)
        | Form::Some(_)
        | Form::Child(_, _)
        | Form::Rec(_)
        | Form::Prim(_, _) => true,
    }
}

impl Teller<'_> {
    /// Appends a line on each of at most so many alternatives that match the root of the term, and
    /// one on those that don't. They failed before this place did.
    pub fn say_alternatives(
        &mut self,
        found: &[Alternative<'_>],
        place: StrategyPlace<'_>,
        term: &Term,
        most: usize,
    ) {
        let own = place.body.map(|body| body.number);
        let mut said = 0usize;
        let mut others = 0usize;
        let mut are_bodies = true;
        for alternative in found {
            if !matches_root(self.about, *alternative, term) {
                others = others.saturating_add(1);
                are_bodies = are_bodies && own.is_some() && own == alternative.number();
            } else if said < most {
                self.hint.note();

                self.say_alternative(*alternative);
                self.say_why(*alternative, term);
                said = said.saturating_add(1);
            }
        }
        let separator = match place.node {
            _ if !are_bodies => "alternatives for other terms: ",
            Some(_) => "other rules of that name: ",
            None => "rules for other terms: ",
        };
        self.hint.note();
        self.say_others(found, term, are_bodies, separator);
        if others > LISTED {
            let more = others.saturating_sub(LISTED) as u64;
            say!(self.hint; ", and {} more", Fill::Number(more));
        }
    }

    // Appends the first alternatives for terms with another root: of bodies only their lines.
    fn say_others(
        &mut self,
        found: &[Alternative<'_>],
        term: &Term,
        are_bodies: bool,
        separator: &'static str,
    ) {
        let mut separator = separator;
        let mut said = 0usize;
        for other in found {
            if said < LISTED && !matches_root(self.about, *other, term) {
                self.hint.words(separator);
                match other {
                    Alternative::Body(body) if are_bodies => {
                        say!(self.hint; "{}", Fill::LineOf(body.spot()));
                    }
                    _ => self.say_alternative(*other),
                }
                separator = ", ";
                said = said.saturating_add(1);
            }
        }
    }

    // The text of a strategy, or the name of a body with its line.
    fn say_alternative(&mut self, alternative: Alternative<'_>) {
        match alternative {
            Alternative::Strategy(part) => say!(self.hint; "{}", Fill::Strategy(part.named)),
            Alternative::Body(body) => {
                self.say_definition(body.number);
                say!(self.hint; " of {}", Fill::LineOf(body.spot()));
            }
        }
    }

    // Appends why an alternative failed whose root matches.
    fn say_why(&mut self, alternative: Alternative<'_>, term: &Term) {
        let part = first_part(self.about, alternative, term);
        let (Form::Match(resolved), Named::Match(named)) = (part.resolved.form(), part.named.form())
        else {
            self.hint.words(" fails");
            return;
        };
        match compare(self.about.alloc, resolved, &Value::original(term), None) {
            Ok(Compared { miss: None, .. }) => self.hint.words(" matches, and fails after that"),
            Ok(
                Compared {
                    miss: Some(miss),
                    ..
                },
            ) => {
                let said = self.say_miss(named, &miss);
                self.hint.keep(said);
            }
            Err(NoMemory) => self.hint.keep(Err(NoMemory)),
        }
    }

    /// Appends what a pattern takes in place of what is there.
    pub fn say_miss(&mut self, whole: &Pattern, miss: &Miss<'_>) -> Result<(), NoMemory> {
        let alloc = self.about.alloc;
        let part = part_after(alloc, whole, miss.before)?;
        let term = miss.value.to_term(alloc)?;
        let (pattern, there) = (Fill::Pattern(part), Fill::Term(&term));
        let mut is_annotated = miss.is_annotated;
        if let Some(bound) = &miss.bound {
            let bound = bound.to_term(alloc)?;
            is_annotated = are_alike(&bound, &term, DEEPEST);
            say!(self.hint; " has {} for {} already, and here is {}", pattern, Fill::Term(&bound), there);
        } else if !miss.is_root || is_annotated {
            say!(self.hint; " has {}, and there is {}", pattern, there);
        } else {
            self.hint.words(" takes ");
            self.say_root(part);
        }
        if is_annotated {
            self.hint.words("; it differs only in annotations");
        }
        Ok(())
    }

    // Appends what the root of a pattern takes.
    fn say_root(&mut self, pattern: &Pattern) {
        match pattern.form() {
            PatternForm::Integer(value) => self.hint.root(Kind::Integer(*value), 0),
            PatternForm::Compound(head, parts) => self.hint.root(kind_of(head), parts.len()),
            PatternForm::WithTail(parts, _) => self.say_list(parts.len()),
            PatternForm::Wildcard
            | PatternForm::Variable(_)
            | PatternForm::At(_, _)
            | PatternForm::Annotated(_, _) => {}
        }
    }

    /// Appends that it is a list of at least so many terms.
    pub fn say_list(&mut self, count: usize) {
        say!(self.hint; "a list of at least {}", Fill::Count(count as u64, "term"));
    }
}
