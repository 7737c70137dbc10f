//! Resolved patterns: patterns with numbers for variables.

ghost use Rattle.std.specs.Prelude.{◌≡◌};
ghost use Rattle.strategy_syntax.specs.ResolvedPatternView.{resolved_pattern_of};

use crate::Head;
use std::marker::Model;

/// A resolved pattern. A variable is the number of its binder among the enclosing binders of
/// variables, counted from the outermost of its definition or strategy.
#[derive(Drop)]
#[cycle(resolved_pattern)]
pub struct ResolvedPattern {
    form: ResolvedPatternForm,
}

/// The forms of a resolved pattern; they are those of a pattern.
#[derive(Drop)]
#[cycle(resolved_pattern)]
pub enum ResolvedPatternForm {
    /// `_`, which matches any term.
    Wildcard,
    /// A variable.
    Variable(usize),
    /// `x@p`: the variable x, for the term that p matches.
    At(usize, Box<ResolvedPattern>),
    /// An integer.
    Integer(i64),
    /// An application, a string, a list or a tuple. A string is its quoted name over no patterns.
    Compound(Head, Vec<ResolvedPattern>),
    /// `[p1,..,pn|p]`: the first elements of a list, and the list of the rest.
    WithTail(Vec<ResolvedPattern>, Box<ResolvedPattern>),
    /// `p{q1,..,qm}`: a pattern, and one for each annotation.
    Annotated(Box<ResolvedPattern>, Vec<ResolvedPattern>),
}

impl Model for ResolvedPattern {
    ghost use Rattle.strategy_syntax.specs.Resolved.{ResolvedPattern};
    ghost use Rattle.strategy_syntax.specs.inside.ResolvedCodes.{resolved_pattern_code};

    ghost Value = { ResolvedPattern };

    ghost coded = { resolved_pattern_code };

    ghost use Rattle.strategy_syntax.specs.ResolvedPatternView.{resolved_pattern_of};
    ghost use Rattle.strategy_syntax.specs.inside.ResolvedPatternDepth.{resolved_pattern_depth};

    ghost view = { λ a. resolved_pattern_of a.form };

    ghost size = { resolved_pattern_depth };

    ghost use Rattle.strategy_syntax.specs.inside.ResolvedPatternFalls.{depth_le-resolved_pattern};

    ghost size_decreases = { λ a h. depth_le-resolved_pattern a.form };
}

impl ResolvedPattern {
    /// The resolved pattern of this form.
    pub fn new(form: ResolvedPatternForm) -> ResolvedPattern
        ensures { result ≡ resolved_pattern_of form }
    {
        ResolvedPattern { form }
    }

    pub fn form(&self) -> &ResolvedPatternForm
        ensures { self.now ≡ resolved_pattern_of result.now }
    {
        &self.form
    }
}
