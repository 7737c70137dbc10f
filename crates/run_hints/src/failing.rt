//! Why a run failed, and where it met a term that is too big.

use crate::about::{StrategyPlace, split_bodies};
use crate::alternatives::alternatives;
use crate::finding::{is_same, is_search};
use crate::matching::{matched, may_match};
use crate::stands::{Bound, Stand};
use crate::telling::{Teller, kind_of};
use diagnostic::{Fill, say};
use strategy_syntax::{Pattern, Place, Strategy, StrategyForm};
use term_core::{Kind, NoMemory};
use term_paths::at_parts;

// The most variables whose terms are shown.
const SHOWN: usize = 3;

impl Teller<'_> {
    /// Says what failed, where, and why; and if an alternative before it took more than a few
    /// steps, what failed there, and how many steps it took. In place of a search that found
    /// nothing it says what came nearest, and what got furthest.
    pub fn say_failure(
        &mut self,
        failure: &Stand<'_>,
        nearest: Option<&Stand<'_>>,
        cause: Option<&Stand<'_>>,
        steps: u64,
    ) {
        let is_search = is_search(failure.strategy);
        let steps = Fill::Count(steps, "step");
        let furthest = cause.filter(|cause| tells_why(cause));
        let other = furthest.filter(|cause| !matches!(nearest, Some(it) if is_repeated(cause, it)));
        match (nearest, cause) {
            (Some(nearest), _)
                if is_search || (furthest.is_none() && is_elsewhere(nearest, failure)) => {
                if !is_search {
                    self.say_failed(failure, Some(""), cause.is_none());
                }
                self.say_nearest(nearest);
                if let Some(cause) = other {
                    self.hint.note();
                    say!(self.hint; "got furthest, in {}: ", steps);
                    self.say_failed(cause, None, false);
                }
            }
            (_, Some(cause)) if is_search && furthest.is_some() => {
                self.hint.note();
                say!(self.hint; "got furthest, in {}: ", steps);
                self.say_failed(cause, None, false);
            }
            (_, Some(cause)) if !is_repeated(cause, failure) => {
                self.say_failed(failure, Some(""), false);
                self.hint.note();
                say!(self.hint; "tried before that, and got furthest, in {}: ", steps);
                self.say_failed(cause, None, false);
            }
            _ => self.say_failed(failure, Some(""), true),
        }
    }

    /// Says which rule came nearest to a match.
    pub fn say_nearest(&mut self, nearest: &Stand<'_>) {
        self.say_failed(nearest, Some("nearest to a match: "), false);
    }

    /// Says what failed, where, and why, on a line of its own that begins with these words, if there
    /// are any.
    pub fn say_failed(
        &mut self,
        stand: &Stand<'_>,
        before: Option<&'static str>,
        with_alternatives: bool,
    ) {
        if let Some(place) = stand.place {
            if let Some(before) = before {
                self.hint.note();
                self.hint.words(before);
            }
            if stand.is_rest {
                let _ = self.say_stand(place, stand, "gives");
                self.hint.note();
                self.hint
                    .words("that is no list, and is given for the rest of one");
            } else if self.say_stand(place, stand, "fails on") {
                let told = self.say_reason(place, stand);
                if with_alternatives {
                    let most = if told { 2 } else { 3 };
                    match alternatives(self.about, place, &stand.calls) {
                        Ok(found) => self.say_alternatives(&found, place, &stand.focus, most),
                        Err(NoMemory) => self.hint.keep(Err(NoMemory)),
                    }
                }
            }
        }
        self.say_calls(stand);
    }

    /// Says which strategy made a term that is too big, and where.
    pub fn say_big(&mut self, stand: &Stand<'_>) {
        if let Some(place) = stand.place {
            self.hint.note();

            let _ = self.say_stand(place, stand, "makes it from");
            let size = Fill::Count(stand.focus.size(), "term");
            self.hint.note();
            say!(self.hint; "what it makes it from has {} in it", size);
        }
        self.say_calls(stand);
    }

    // The strategy, what it did with which term, and where both are. Returns whether the strategy
    // is shown: it isn't where its text gives another one.
    fn say_stand(
        &mut self,
        place: StrategyPlace<'_>,
        stand: &Stand<'_>,
        did: &'static str,
    ) -> bool {
        let (did, term) = (Fill::Words(did), Fill::Term(&stand.focus));
        let mut is_shown = true;
        let mut shown = Place::nowhere();
        match place.node {
            Some(node) if self.about.is_shown(place.body, node) => {
                let begun = begun_first(node.guard.unwrap_or(node.part.named));
                shown = begun.place();
                say!(self.hint; "{} {} {}", Fill::Strategy(begun), did, term);
            }
            None if place.is_choice => say!(self.hint; "each body {} {}", did, term),
            _ => {
                is_shown = false;
                say!(self.hint; "a part {} {}", did, term);
            }
        }
        // A term that was built has another place in the tree, or none.
        let is_there = match at_parts(self.about.term, &stand.spot.path) {
            Some(term) => stand.spot.before > 0 || term.equals(&stand.focus),
            None => false,
        };
        self.hint
            .words(if is_there { " at " } else { ", made at " });
        self.say_spot(&stand.spot);
        let Some(body) = place.body else {
            self.hint.words(", in the strategy of the command");
            return is_shown;
        };
        self.hint.words(", in ");
        self.say_definition(body.number);
        let name = body.definition.name().bytes();
        self.hint.note_cause(body.module, name);
        let module = Fill::Quoted(body.module);
        say!(self.hint; " of the module {}, {} of its text", module, Fill::LineOf(body.spot_of(shown)));
        is_shown
    }

    // Says why a strategy failed that is no choice. Returns whether there was something to say.
    fn say_reason(&mut self, place: StrategyPlace<'_>, stand: &Stand<'_>) -> bool {
        let Some(node) = place.node else {
            return false;
        };
        if let Some(guard) = node.guard
            && let StrategyForm::Guard(parts) = guard.form()
        {
            self.hint.note();
            say!(self.hint; "{} succeeds", Fill::Strategy(&parts.0));
            return true;
        }
        if let Some(left) = matched(node.part) {
            return self.say_mismatch(left.named, stand);
        }
        match node.part.named.form() {
            StrategyForm::TailCongruence(parts, _) => {
                self.hint.note();
                self.hint.words("it takes ");
                self.say_list(parts.len());
            }
            StrategyForm::Congruence(head, parts) => {
                self.hint.note();
                self.hint.words("it takes ");
                self.hint.root(kind_of(head), parts.len());
            }
            StrategyForm::Use(name, parts, _) => {
                self.hint.note();
                self.hint.words("it takes ");
                self.hint.root(Kind::Application(name), parts.len());
            }
            StrategyForm::Id
            | StrategyForm::Fail
            | StrategyForm::Match(_)
            | StrategyForm::Build(_)
            | StrategyForm::Seq(_)
            | StrategyForm::Guard(_)
            | StrategyForm::Test(_)
            | StrategyForm::Scope(_, _)
            | StrategyForm::All(_)
            | StrategyForm::One(_)
            | StrategyForm::Some(_)
            | StrategyForm::Child(_, _)
            | StrategyForm::Rec(_, _)
            | StrategyForm::Prim(_, _) => {
                self.say_bound(&stand.bound);
                return !stand.bound.is_empty();
            }
        }
        true
    }

    // Says where the pattern doesn't match the term. Returns whether there is such a place.
    fn say_mismatch(&mut self, pattern: &Pattern, stand: &Stand<'_>) -> bool {
        let Some(miss) = &stand.miss else {
            return false;
        };
        self.hint.note();
        say!(self.hint; "{}", Fill::Pattern(pattern));
        let said = self.say_miss(pattern, miss);
        self.hint.keep(said);
        true
    }

    // Says what the first variables are bound to.
    fn say_bound(&mut self, bound: &[Bound<'_>]) {
        self.hint.note();
        let mut separator = "";
        for it in bound.get(..SHOWN).unwrap_or(bound) {
            let name = Fill::Quoted(it.name.bytes());
            say!(self.hint; "{}{} is {}", Fill::Words(separator), name, Fill::Term(&it.term));
            separator = ", ";
        }
    }
}

// Whether something else than the root of a pattern failed, or a search.
fn tells_why(stand: &Stand<'_>) -> bool {
    !is_search(stand.strategy) && !misses_root(stand)
}

// Whether a rule failed at the root of its left side, and nearly matched elsewhere.
fn is_elsewhere(nearest: &Stand<'_>, failure: &Stand<'_>) -> bool {
    is_same(failure.strategy, nearest.strategy) && misses_root(failure)
}

// Whether what failed is a match, at the root of its pattern.
fn misses_root(stand: &Stand<'_>) -> bool {
    if let Some(place) = stand.place
        && let Some(node) = place.node
        && let Some(left) = matched(node.part)
    {
        return !may_match(left.resolved, stand.focus.kind(), stand.focus.child_count());
    }
    false
}

// Whether both say the same.
fn is_repeated(cause: &Stand<'_>, failure: &Stand<'_>) -> bool {
    let (first, others) = split_bodies(cause.strategy);
    let (second, more) = split_bodies(failure.strategy);
    cause.focus.equals(&failure.focus)
        && is_same(first, second)
        && others.is_some() == more.is_some()
}

// Of a sequence that begins with a match only that was begun.
fn begun_first(strategy: &Strategy) -> &Strategy {
    if let StrategyForm::Seq(parts) = strategy.form()
        && let StrategyForm::Match(_) = parts.0.form()
    {
        return &parts.0;
    }
    strategy
}
