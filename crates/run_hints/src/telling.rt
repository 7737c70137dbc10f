//! Sentences about a run, with strategies, terms and places in them.

use crate::about::{About, Body, has_call};
use crate::stands::{Called, Stand};
use diagnostic::{Diagnostic, Fill, say};
use strategy_machine::Spot;
use strategy_syntax::Head;
use term_core::Kind;

// The most definitions that are listed.
const LISTED: usize = 5;

/// What is said so far of a run, and what it is said from.
#[derive(Drop)]
pub struct Teller<'a> {
    pub about: About<'a>,
    pub hint: Diagnostic,
}

impl Teller<'_> {
    /// Appends the name of a definition, by its number, or that of the command.
    pub fn say_definition(&mut self, number: usize) {
        match self.about.body(number, 0) {
            Some(body) => say!(self.hint; "{}", Fill::Quoted(body.definition.name().bytes())),
            None => self.hint.words("the command"),
        }
    }

    /// Appends the path of the focus, or the front of a long one, and how much of the list there is
    /// before it.
    pub fn say_spot(&mut self, spot: &Spot) {
        self.hint.path(self.about.path, spot.path.as_slice());
        if spot.before > 0 {
            say!(self.hint; " after {}", Fill::Count(spot.before as u64, "element"));
        }
    }

    /// Says which calls are open where a run stands, the innermost first, each definition once. It
    /// has the line of its body unless that is the library's, and its module if that isn't the one
    /// in which the run stands.
    pub fn say_calls(&mut self, stand: &Stand<'_>) {
        let module = match stand.place.and_then(|place| place.body) {
            Some(body) => body.module,
            None => &[],
        };
        let calls = stand.calls.as_slice();
        let mut begun = stand.strategy;
        let mut said = 0usize;
        for number in (0..calls.len()).rev() {
            let Some((call, inner)) = calls.get(number..).unwrap_or(&[]).split_first() else {
                break;
            };
            if !has_call(inner, call.definition) {
                if said == 0 {
                    self.hint.note();
                    self.hint.words("called by, innermost first: ");
                } else {
                    self.hint.words(", ");
                }
                if said == LISTED {
                    self.hint.words("..");
                    return;
                }
                said = said.saturating_add(1);
                let body = self.about.body_with(call.definition, begun);
                self.say_call(calls, call.definition, body, module);
            }
            begun = call.from;
        }
        if said > 0 {
            self.hint.words(", the command");
        }
    }

    // Says a definition, where its body is, and how many of these calls are calls of it, if more
    // than one is.
    fn say_call(
        &mut self,
        calls: &[Called<'_>],
        definition: usize,
        body: Option<Body<'_>>,
        module: &[u8],
    ) {
        let mut times = 0u64;
        for call in calls {
            if call.definition == definition {
                times = times.saturating_add(call.times);
            }
        }
        self.say_definition(definition);
        let mut end = "";
        if let Some(body) = body
            && !body.is_of_library()
        {
            say!(self.hint; " ({}", Fill::LineOf(body.spot()));
            if body.module != module {
                say!(self.hint; " of {}", Fill::Quoted(body.module));
            }
            end = ")";
        }
        if times > 1 {
            let before = Fill::Words(if end.is_empty() { " (" } else { ", " });
            say!(self.hint; "{}{} times", before, Fill::Number(times));
            end = ")";
        }
        self.hint.words(end);
    }
}

/// The root of terms that a head is for.
pub fn kind_of(head: &Head) -> Kind<'_> {
    match head {
        Head::Application(name) => Kind::Application(name),
        Head::List => Kind::List,
        Head::Tuple => Kind::Tuple,
    }
}
