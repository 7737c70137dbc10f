//! Resolved strategies: strategies with numbers for names.

ghost use Rattle.std.specs.Prelude.{◌≡◌, ◌≢◌, ℕ, IfOk};
ghost use Rattle.std.specs.declared.option.Option.{Option};
ghost use Rattle.strategy_syntax.specs.Resolved.{resolveds_of};
ghost use Rattle.strategy_syntax.specs.ResolvedView.{resolved_of};
ghost use Rattle.strategy_syntax.specs.Apart.{AreApart};
ghost use Rattle.strategy_syntax.specs.Renumbering.{new_number, renumbered, all_renumbered};

use crate::skips::{Skips, skips_in};
use crate::{Head, Place, ResolvedPattern};
use std::alloc::Global;
use std::marker::Model;
use term_core::NoMemory;

/// A whole resolved strategy: the body of a definition, or a strategy to apply.
#[derive(Drop)]
pub struct Resolved {
    /// The number of its free variables, without the term parameters of a definition. They are
    /// numbered after these and before the variables of inner binders.
    pub variables: usize,
    pub strategy: ResolvedStrategy,
}

/// A resolved strategy or a part of one. Each name that has a binder is the number of that binder
/// among the enclosing ones, counted from the outermost of its definition or strategy; variables
/// and strategy names are counted separately.
#[derive(Drop)]
#[cycle(resolved)]
pub struct ResolvedStrategy {
    form: ResolvedForm,
    // Where it stands, and in which text. Contracts see neither.
    place: Place,
    text: u32,
    // What tells its alternatives apart, if it is a choice among rules. Contracts don't see it.
    skips: Option<Box<Skips>>,
}

/// The forms of a resolved strategy.
#[derive(Drop)]
#[cycle(resolved)]
pub enum ResolvedForm {
    /// `id`, which succeeds with the term.
    Id,
    /// `fail`.
    Fail,
    /// `?p`, which matches the term.
    Match(ResolvedPattern),
    /// `!p`, which builds a term.
    Build(ResolvedPattern),
    /// `s1; s2`.
    Seq(Box<(ResolvedStrategy, ResolvedStrategy)>),
    /// `s1 < s2 + s3`: s2 if s1 succeeds, else s3.
    Guard(Box<(ResolvedStrategy, ResolvedStrategy, ResolvedStrategy)>),
    /// `where(s)`, which succeeds with the original term if s succeeds.
    Test(Box<ResolvedStrategy>),
    /// New variables, this many, in a strategy.
    Scope(usize, Box<ResolvedStrategy>),
    /// A strategy parameter, or the name of a `rec`.
    Param(usize),
    /// A call of a definition, by its number in the program, with strategies and patterns for its
    /// parameters.
    Call(usize, Vec<ResolvedStrategy>, Vec<ResolvedPattern>),
    /// A congruence: a strategy for each child.
    Congruence(Head, Vec<ResolvedStrategy>),
    /// `[s1,..,sn|s]`: a strategy for each of the first elements, and one for the list of the rest.
    TailCongruence(Vec<ResolvedStrategy>, Box<ResolvedStrategy>),
    /// `all(s)`.
    All(Box<ResolvedStrategy>),
    /// `one(s)`.
    One(Box<ResolvedStrategy>),
    /// `some(s)`.
    Some(Box<ResolvedStrategy>),
    /// `i(s)`: s on child i, counted from 1.
    Child(usize, Box<ResolvedStrategy>),
    /// `rec x(s)`: s, in which the new name stands for the whole strategy.
    Rec(Box<ResolvedStrategy>),
    /// A primitive, by its number, with patterns for its arguments.
    Prim(usize, Vec<ResolvedPattern>),
}

impl Model for ResolvedStrategy {
    ghost use Rattle.strategy_syntax.specs.Resolved.{ResolvedStrategy};
    ghost use Rattle.strategy_syntax.specs.inside.ResolvedCodes.{resolved_code};

    ghost Value = { ResolvedStrategy };

    ghost coded = { resolved_code };

    ghost use Rattle.strategy_syntax.specs.ResolvedView.{resolved_of};
    ghost use Rattle.strategy_syntax.specs.inside.ResolvedDepth.{depth};

    ghost view = { λ a. resolved_of a.form };

    ghost use Rattle.strategy_syntax.specs.inside.Skipping.{Kept};

    ghost invariant = { λ a. Kept a.skips (resolved_of a.form) };

    ghost size = { depth };

    ghost use Rattle.strategy_syntax.specs.inside.ResolvedFalls.{depth_le-resolved};

    ghost size_decreases = { λ a h. depth_le-resolved a.form };
}

impl ResolvedStrategy {
    /// The resolved strategy of this form, which stands in no text.
    pub fn new(form: ResolvedForm) -> ResolvedStrategy
        ensures { result ≡ resolved_of form }
    {
        ResolvedStrategy {
            form,
            place: Place::nowhere(),
            text: 0,
            skips: None,
        }
    }

    /// The same resolved strategy, at this place of the text of this number.
    pub fn at(self, text: u32, place: Place) -> ResolvedStrategy
        ensures { result ≡ self }
    {
        ResolvedStrategy {
            place,
            text,
            ..self
        }
    }

    /// The same resolved strategy. If it is a choice among rules, it then knows which of them a term
    /// can't match.
    pub fn indexed(self, alloc: Global) -> Result<ResolvedStrategy, NoMemory>
        ensures { IfOk result (λ same. same ≡ self) }
    {
        let Some(skips) = skips_in(&self.form) else {
            return Ok(self);
        };
        match Box::new(alloc, skips) {
            Ok(skips) => Ok(ResolvedStrategy {
                skips: Some(skips),
                ..self
            }),
            Err(_) => {
                drop(self);
                Err(NoMemory)
            }
        }
    }

    /// Whether it knows which alternatives a term can't match.
    #[inline(always)]
    pub fn is_indexed(&self) -> bool {
        self.skips.is_some()
    }

    /// The child to ask of terms whose root has this class.
    #[inline(always)]
    pub fn child_to_ask(&self, root: u8) -> Option<usize> {
        match &self.skips {
            Some(skips) => skips.child_to_ask(root),
            None => None,
        }
    }

    /// How many of the first alternatives no term matches whose root has this class, and whose child
    /// at an index, if one is given.
    #[inline(always)]
    pub fn skipped(&self, root: u8, child: Option<(usize, u8)>) -> u8
        ensures { AreApart result self.now root child }
    {
        match &self.skips {
            Some(skips) => skips.count(root, child),
            None => 0,
        }
    }

    /// How many of the first alternatives no term matches whose root has another class.
    pub(crate) fn skipped_for_others(&self, root: u8) -> u8
        ensures { (r : ℕ) (c : Option (ℕ × ℕ)) → r ≢ root → AreApart result self.now r c }
    {
        match &self.skips {
            Some(skips) => skips.count_for_others(root),
            None => 0,
        }
    }

    /// Where it stands in its text.
    pub fn place(&self) -> Place {
        self.place
    }

    /// The number of its text: that of a checked module, from 1 on, or 0 for the text of a command.
    pub fn text(&self) -> u32 {
        self.text
    }

    pub fn form(&self) -> &ResolvedForm
        ensures { self.now ≡ resolved_of result.now }
    {
        &self.form
    }

    /// Changes the numbers of the definitions that it calls: definition k gets the number at index
    /// k of `numbers`, and keeps its own if there is none.
    #[cycle(renumbering)]
    pub fn renumber(&mut self, numbers: &[usize])
        ensures { self.new ≡ renumbered numbers.now self.old }
    {
        renumber_form(&mut self.form, numbers);
    }
}

#[cycle(renumbering)]
fn renumber_form(form: &mut ResolvedForm, numbers: &[usize])
    ensures { resolved_of form.new ≡ renumbered numbers.now (resolved_of form.old) }
{
    match form {
        ResolvedForm::Id
        | ResolvedForm::Fail
        | ResolvedForm::Match(_)
        | ResolvedForm::Build(_)
        | ResolvedForm::Param(_)
        | ResolvedForm::Prim(_, _) => {}
        ResolvedForm::Seq(parts) => {
            parts.0.renumber(numbers);
            parts.1.renumber(numbers);
        }
        ResolvedForm::Guard(parts) => {
            parts.0.renumber(numbers);
            parts.1.renumber(numbers);
            parts.2.renumber(numbers);
        }
        ResolvedForm::Test(part) => part.renumber(numbers),
        ResolvedForm::Scope(_, part) => part.renumber(numbers),
        ResolvedForm::All(part) => part.renumber(numbers),
        ResolvedForm::One(part) => part.renumber(numbers),
        ResolvedForm::Some(part) => part.renumber(numbers),
        ResolvedForm::Child(_, part) => part.renumber(numbers),
        ResolvedForm::Rec(part) => part.renumber(numbers),
        ResolvedForm::Call(number, parts, _) => {
            *number = renumbered_call(numbers, *number);
            renumber_all(parts, numbers);
        }
        ResolvedForm::Congruence(_, parts) => renumber_all(parts, numbers),
        ResolvedForm::TailCongruence(parts, part) => {
            renumber_all(parts, numbers);
            part.renumber(numbers);
        }
    }
}

#[cycle(renumbering)]
fn renumber_all(parts: &mut Vec<ResolvedStrategy>, numbers: &[usize])
    ensures { resolveds_of parts.new.items ≡ all_renumbered numbers.now (resolveds_of parts.old.items) }
{
    for i in 0..parts.len() {
        parts[i].renumber(numbers);
    }
}

fn renumbered_call(numbers: &[usize], number: usize) -> usize
    ensures { result ≡ new_number numbers.now number }
{
    match numbers.get(number) {
        Some(new) => *new,
        None => number,
    }
}
