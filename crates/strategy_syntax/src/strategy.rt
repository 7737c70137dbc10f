//! Strategies in their core forms, with names.
#![tactic(auto, using(crate::proofs::StrategyLemmas::strategy_parts))]

ghost use Rattle.std.specs.Prelude.{◌≡◌, ◌↔◌, IsTrue};
ghost use Rattle.strategy_syntax.specs.StrategyView.{strategy_of};

use crate::names::same_names;
use crate::pattern::same_patterns;
use crate::{Head, Pattern, Place};
use std::marker::Model;
use term_core::Name;

/// A strategy.
#[derive(Drop)]
#[cycle(strategy)]
pub struct Strategy {
    form: StrategyForm,
    // Where it stands in its text. Contracts don't see it.
    place: Place,
}

/// The core forms of a strategy.
#[derive(Drop)]
#[cycle(strategy)]
pub enum StrategyForm {
    /// `id`, which succeeds with the term.
    Id,
    /// `fail`.
    Fail,
    /// `?p`, which matches the term.
    Match(Pattern),
    /// `!p`, which builds a term.
    Build(Pattern),
    /// `s1; s2`.
    Seq(Box<(Strategy, Strategy)>),
    /// `s1 < s2 + s3`: s2 if s1 succeeds, else s3.
    Guard(Box<(Strategy, Strategy, Strategy)>),
    /// `where(s)`, which succeeds with the original term if s succeeds.
    Test(Box<Strategy>),
    /// `{x1,..,xn: s}`: new variables in s.
    Scope(Vec<Name>, Box<Strategy>),
    /// `f(s1,..,sn|p1,..,pm)`: a parameter, a definition or a constructor, by its name.
    Use(Name, Vec<Strategy>, Vec<Pattern>),
    /// A congruence: a strategy for each child.
    Congruence(Head, Vec<Strategy>),
    /// `[s1,..,sn|s]`: a strategy for each of the first elements, and one for the list of the rest.
    TailCongruence(Vec<Strategy>, Box<Strategy>),
    /// `all(s)`.
    All(Box<Strategy>),
    /// `one(s)`.
    One(Box<Strategy>),
    /// `some(s)`.
    Some(Box<Strategy>),
    /// `i(s)`: s on child i, counted from 1.
    Child(usize, Box<Strategy>),
    /// `rec x(s)`: s, in which x stands for the whole strategy.
    Rec(Name, Box<Strategy>),
    /// `prim("n",p1,..,pk)`: the primitive of this quoted name.
    Prim(Name, Vec<Pattern>),
}

impl Model for Strategy {
    ghost use Rattle.strategy_syntax.specs.Syntax.{Strategy};
    ghost use Rattle.strategy_syntax.specs.inside.Codes.{strategy_code};

    ghost Value = { Strategy };

    ghost coded = { strategy_code };

    ghost use Rattle.strategy_syntax.specs.StrategyView.{strategy_of};
    ghost use Rattle.strategy_syntax.specs.inside.StrategyDepth.{depth};

    ghost view = { λ a. strategy_of a.form };

    ghost size = { depth };

    ghost use Rattle.strategy_syntax.specs.inside.StrategyFalls.{depth_le-strategy};

    ghost size_decreases = { λ a h. depth_le-strategy a.form };
}

impl Strategy {
    /// The strategy of this form, which stands in no text.
    pub fn new(form: StrategyForm) -> Strategy
        ensures { result ≡ strategy_of form }
    {
        Strategy {
            form,
            place: Place::nowhere(),
        }
    }

    /// The same strategy, at this place of its text.
    pub fn at(self, place: Place) -> Strategy
        ensures { result ≡ self }
    {
        Strategy { place, ..self }
    }

    /// Where it stands in its text. A form without tokens of its own stands where the part stands
    /// that it was made from: `?l` and `!r` of a rule `l -> r` where `l` and `r` do.
    pub fn place(&self) -> Place {
        self.place
    }

    /// Where the name of this index stands that the strategy binds, counted from 0: `x` of
    /// `rec x(s)`, and each name of `{x1,..,xn: s}`. The variables of a rule or a closure have no
    /// such place.
    pub fn binder_place(&self, index: usize) -> Place {
        match &self.form {
            StrategyForm::Rec(_, _) if index == 0 => self.place.token(1),
            StrategyForm::Scope(names, part) if index < names.len() => {
                // `{`, and each name with a comma or a colon after it
                let before = names.len().saturating_mul(2).saturating_add(1);
                if part.place.begun(before).to(self.place) != self.place {
                    return Place::nowhere();
                }
                self.place.token(index.saturating_mul(2).saturating_add(1))
            }
            _ => Place::nowhere(),
        }
    }

    pub fn form(&self) -> &StrategyForm
        ensures { self.now ≡ strategy_of result.now }
    {
        &self.form
    }

    /// The form of the strategy, consuming it.
    pub fn into_form(self) -> StrategyForm
        ensures { self ≡ strategy_of result }
    {
        self.form
    }

    /// Whether the two strategies are equal.
    #[cycle(same_strategy)]
    pub fn equals(&self, other: &Strategy) -> bool
        ensures { IsTrue result ↔ (self.now ≡ other.now) }
    {
        match &self.form {
            StrategyForm::Id => matches!(&other.form, StrategyForm::Id),
            StrategyForm::Fail => matches!(&other.form, StrategyForm::Fail),
            StrategyForm::Match(p) => match &other.form {
                StrategyForm::Match(q) => p.equals(q),
                _ => false,
            },
            StrategyForm::Build(p) => match &other.form {
                StrategyForm::Build(q) => p.equals(q),
                _ => false,
            },
            StrategyForm::Seq(a) => match &other.form {
                StrategyForm::Seq(b) => a.0.equals(&b.0) && a.1.equals(&b.1),
                _ => false,
            },
            StrategyForm::Guard(a) => match &other.form {
                StrategyForm::Guard(b) => {
                    a.0.equals(&b.0) && a.1.equals(&b.1) && a.2.equals(&b.2)
                },
                _ => false,
            },
            StrategyForm::Test(s) => match &other.form {
                StrategyForm::Test(t) => s.equals(t),
                _ => false,
            },
            StrategyForm::Scope(xs, s) => match &other.form {
                StrategyForm::Scope(ys, t) => same_names(xs, ys) && s.equals(t),
                _ => false,
            },
            StrategyForm::Use(f, ss, ps) => match &other.form {
                StrategyForm::Use(g, ts, qs) => {
                    f.equals(g) && same_strategies(ss, ts) && same_patterns(ps, qs)
                },
                _ => false,
            },
            StrategyForm::Congruence(h, ss) => match &other.form {
                StrategyForm::Congruence(k, ts) => h.equals(k) && same_strategies(ss, ts),
                _ => false,
            },
            StrategyForm::TailCongruence(ss, s) => match &other.form {
                StrategyForm::TailCongruence(ts, t) => same_strategies(ss, ts) && s.equals(t),
                _ => false,
            },
            StrategyForm::All(s) => match &other.form {
                StrategyForm::All(t) => s.equals(t),
                _ => false,
            },
            StrategyForm::One(s) => match &other.form {
                StrategyForm::One(t) => s.equals(t),
                _ => false,
            },
            StrategyForm::Some(s) => match &other.form {
                StrategyForm::Some(t) => s.equals(t),
                _ => false,
            },
            StrategyForm::Child(i, s) => match &other.form {
                StrategyForm::Child(j, t) => *i == *j && s.equals(t),
                _ => false,
            },
            StrategyForm::Rec(x, s) => match &other.form {
                StrategyForm::Rec(y, t) => x.equals(y) && s.equals(t),
                _ => false,
            },
            StrategyForm::Prim(n, ps) => match &other.form {
                StrategyForm::Prim(m, qs) => n.equals(m) && same_patterns(ps, qs),
                _ => false,
            },
        }
    }
}

#[cycle(same_strategy)]
fn same_strategies(strategies: &[Strategy], others: &[Strategy]) -> bool
    ensures { IsTrue result ↔ (strategies.now ≡ others.now) }
{
    if strategies.len() != others.len() {
        return false;
    }
    for (strategy, other) in strategies.iter().zip(others) {
        if !strategy.equals(other) {
            return false;
        }
    }
    true
}
