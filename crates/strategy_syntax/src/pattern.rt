//! Patterns, with names for variables.
#![tactic(auto, using(crate::proofs::PatternLemmas::pattern_parts))]

ghost use Rattle.std.specs.Prelude.{◌≡◌, ◌↔◌, IsTrue};
ghost use Rattle.strategy_syntax.specs.PatternView.{pattern_of};

use crate::{Head, Place};
use std::marker::Model;
use term_core::Name;

/// A pattern.
#[derive(Drop)]
#[cycle(pattern)]
pub struct Pattern {
    form: PatternForm,
    // Where it stands in its text. Contracts don't see it.
    place: Place,
}

/// The forms of a pattern.
#[derive(Drop)]
#[cycle(pattern)]
pub enum PatternForm {
    /// `_`, which matches any term.
    Wildcard,
    /// A variable.
    Variable(Name),
    /// `x@p`: the variable x, for the term that p matches.
    At(Name, Box<Pattern>),
    /// An integer.
    Integer(i64),
    /// An application, a string, a list or a tuple. A string is its quoted name over no patterns.
    Compound(Head, Vec<Pattern>),
    /// `[p1,..,pn|p]`: the first elements of a list, and the list of the rest.
    WithTail(Vec<Pattern>, Box<Pattern>),
    /// `p{q1,..,qm}`: a pattern, and one for each annotation.
    Annotated(Box<Pattern>, Vec<Pattern>),
}

impl Model for Pattern {
    ghost use Rattle.strategy_syntax.specs.Syntax.{Pattern};
    ghost use Rattle.strategy_syntax.specs.inside.Codes.{pattern_code};

    ghost Value = { Pattern };

    ghost coded = { pattern_code };

    ghost use Rattle.strategy_syntax.specs.PatternView.{pattern_of};
    ghost use Rattle.strategy_syntax.specs.inside.PatternDepth.{pattern_depth};

    ghost view = { λ a. pattern_of a.form };

    ghost size = { pattern_depth };

    ghost use Rattle.strategy_syntax.specs.inside.PatternFalls.{depth_le-pattern};

    ghost size_decreases = { λ a h. depth_le-pattern a.form };
}

impl Pattern {
    /// The pattern of this form, which stands in no text.
    pub fn new(form: PatternForm) -> Pattern
        ensures { result ≡ pattern_of form }
    {
        Pattern {
            form,
            place: Place::nowhere(),
        }
    }

    /// The same pattern, at this place of its text.
    pub fn at(self, place: Place) -> Pattern
        ensures { result ≡ self }
    {
        Pattern { place, ..self }
    }

    /// Where it stands in its text.
    pub fn place(&self) -> Place {
        self.place
    }

    pub fn form(&self) -> &PatternForm
        ensures { self.now ≡ pattern_of result.now }
    {
        &self.form
    }

    /// Whether the two patterns are equal.
    #[cycle(same_pattern)]
    pub fn equals(&self, other: &Pattern) -> bool
        ensures { IsTrue result ↔ (self.now ≡ other.now) }
    {
        match (&self.form, &other.form) {
            (PatternForm::Wildcard, PatternForm::Wildcard) => true,
            (PatternForm::Variable(x), PatternForm::Variable(y)) => x.equals(y),
            (PatternForm::At(x, p), PatternForm::At(y, q)) => x.equals(y) && p.equals(q),
            (PatternForm::Integer(a), PatternForm::Integer(b)) => *a == *b,
            (PatternForm::Compound(h, ps), PatternForm::Compound(k, qs)) => {
                h.equals(k) && same_patterns(ps, qs)
            }
            (PatternForm::WithTail(ps, p), PatternForm::WithTail(qs, q)) => {
                same_patterns(ps, qs) && p.equals(q)
            }
            (PatternForm::Annotated(p, ps), PatternForm::Annotated(q, qs)) => {
                p.equals(q) && same_patterns(ps, qs)
            }
            _ => false,
        }
    }
}

/// Whether the two lists of patterns are equal.
#[cycle(same_pattern)]
pub fn same_patterns(patterns: &[Pattern], others: &[Pattern]) -> bool
    ensures { IsTrue result ↔ (patterns.now ≡ others.now) }
{
    if patterns.len() != others.len() {
        return false;
    }
    for (pattern, other) in patterns.iter().zip(others) {
        if !pattern.equals(other) {
            return false;
        }
    }
    true
}
