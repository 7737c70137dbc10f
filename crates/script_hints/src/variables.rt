//! The variables in the patterns of a strategy, in the order of its form.

use diagnostic::DEEPEST;
use hint_text::has_word;
use std::alloc::Global;
use strategy_syntax::{Pattern, PatternForm, Place, Strategy, StrategyForm};
use term_core::{Name, NoMemory};

// The definitions of the library that run their argument at many places, and go on after one at which
// it succeeds.
const REPEATING: &str =
    "repeat topdown bottomup downup alltd sometd somebu innermost outermost map";

/// A variable in a pattern.
#[derive(Clone, Copy)]
pub struct VariableUse<'a> {
    pub name: &'a Name,
    /// Where its name stands.
    pub place: Place,
    /// Whether the pattern is matched; else it is built.
    pub is_matched: bool,
    /// The innermost scope that lists it; nowhere if none does.
    pub scope: Place,
}

/// The variables in the patterns of a strategy, and the strategies in it that are run at many places.
#[derive(Drop)]
pub struct Uses<'a> {
    pub variables: Vec<VariableUse<'a>>,
    /// Where they stand: those within others come first.
    pub repeated: Vec<Place>,
}

/// The variables in the patterns of a strategy.
///
/// Errors: `NoMemory` if memory can't grow.
pub fn variables_of<'a>(alloc: Global, strategy: &'a Strategy) -> Result<Uses<'a>, NoMemory> {
    let mut uses = Uses {
        variables: Vec::new(alloc),
        repeated: Vec::new(alloc),
    };
    add_strategy(&mut uses, strategy, DEEPEST)?;
    Ok(uses)
}

#[cycle(strategy)]
fn add_strategy<'a>(
    uses: &mut Uses<'a>,
    strategy: &'a Strategy,
    deep: usize,
) -> Result<(), NoMemory> {
    let Some(deep) = deep.checked_sub(1) else {
        return Ok(());
    };
    match strategy.form() {
        StrategyForm::Id | StrategyForm::Fail => Ok(()),
        StrategyForm::Match(pattern) => add_pattern(uses, pattern, true, DEEPEST),
        StrategyForm::Build(pattern) => add_pattern(uses, pattern, false, DEEPEST),
        StrategyForm::Seq(parts) => {
            add_strategy(uses, &parts.0, deep)?;
            add_strategy(uses, &parts.1, deep)
        }
        StrategyForm::Guard(parts) => {
            add_strategy(uses, &parts.0, deep)?;
            add_strategy(uses, &parts.1, deep)?;
            add_strategy(uses, &parts.2, deep)
        }
        StrategyForm::Scope(names, inside) => {
            let before = uses.variables.len();
            add_strategy(uses, inside, deep)?;
            uses.list(names, before, strategy.place());
            Ok(())
        }
        StrategyForm::All(inside) | StrategyForm::Some(inside) => {
            add_strategy(uses, inside, deep)?;
            Ok(uses.repeated.push(inside.place())?)
        }
        StrategyForm::Test(inside)
        | StrategyForm::One(inside)
        | StrategyForm::Child(_, inside)
        | StrategyForm::Rec(_, inside) => add_strategy(uses, inside, deep),
        StrategyForm::Use(name, strategies, patterns) => {
            add_strategies(uses, strategies, deep)?;
            add_patterns(uses, patterns, false, DEEPEST)?;
            if has_word(REPEATING, name.bytes())
                && let Some(argument) = strategies.first()
            {
                uses.repeated.push(argument.place())?;
            }
            Ok(())
        }
        StrategyForm::Congruence(_, strategies) => add_strategies(uses, strategies, deep),
        StrategyForm::TailCongruence(strategies, tail) => {
            add_strategies(uses, strategies, deep)?;
            add_strategy(uses, tail, deep)
        }
        StrategyForm::Prim(_, patterns) => add_patterns(uses, patterns, false, DEEPEST),
    }
}

#[cycle(strategy)]
fn add_strategies<'a>(
    uses: &mut Uses<'a>,
    strategies: &'a [Strategy],
    deep: usize,
) -> Result<(), NoMemory> {
    for strategy in strategies {
        add_strategy(uses, strategy, deep)?;
    }
    Ok(())
}

#[cycle(pattern)]
fn add_pattern<'a>(
    uses: &mut Uses<'a>,
    pattern: &'a Pattern,
    is_matched: bool,
    deep: usize,
) -> Result<(), NoMemory> {
    let Some(deep) = deep.checked_sub(1) else {
        return Ok(());
    };
    match pattern.form() {
        PatternForm::Wildcard | PatternForm::Integer(_) => Ok(()),
        PatternForm::Variable(name) => uses.add(name, pattern, is_matched),
        PatternForm::At(name, inside) => {
            uses.add(name, pattern, is_matched)?;
            add_pattern(uses, inside, is_matched, deep)
        }
        PatternForm::Compound(_, parts) => add_patterns(uses, parts, is_matched, deep),
        PatternForm::WithTail(parts, tail) => {
            add_patterns(uses, parts, is_matched, deep)?;
            add_pattern(uses, tail, is_matched, deep)
        }
        PatternForm::Annotated(inside, annotations) => {
            add_pattern(uses, inside, is_matched, deep)?;
            add_patterns(uses, annotations, is_matched, deep)
        }
    }
}

#[cycle(pattern)]
fn add_patterns<'a>(
    uses: &mut Uses<'a>,
    patterns: &'a [Pattern],
    is_matched: bool,
    deep: usize,
) -> Result<(), NoMemory> {
    for pattern in patterns {
        add_pattern(uses, pattern, is_matched, deep)?;
    }
    Ok(())
}

impl<'a> Uses<'a> {
    // The name of a variable is the first token of its pattern.
    fn add(&mut self, name: &'a Name, pattern: &Pattern, is_matched: bool) -> Result<(), NoMemory> {
        Ok(
            self.variables.push(VariableUse {
                name,
                place: pattern.place().token(0),
                is_matched,
                scope: Place::nowhere(),
            })?,
        )
    }

    // Those after so many that the scope at this place lists, and no scope within it does, are of it.
    fn list(&mut self, names: &[Name], before: usize, scope: Place) {
        for found in self.variables.iter_mut().skip(before) {
            if found.scope.is_nowhere() && has_name(names, found.name) {
                found.scope = scope;
            }
        }
    }

    /// Where the strategy stands that binds this variable at the first place at which it matches, and
    /// then builds from it at all others: it is run at many places, and the variable is listed by no
    /// scope within it, and used nowhere else.
    pub fn bound_once(&self, found: VariableUse<'_>) -> Option<Place> {
        let is_same = |it: &VariableUse<'_>| it.name.equals(found.name) && it.scope == found.scope;
        let uses = &self.variables;
        if !uses.iter().any(|it| is_same(it) && it.is_matched)
            || !uses.iter().any(|it| is_same(it) && !it.is_matched)
        {
            return None;
        }
        for place in &self.repeated {
            if place.contains(found.place)
                && !place.contains(found.scope)
                && uses
                    .iter()
                    .all(|it| !is_same(it) || place.contains(it.place))
            {
                return Some(*place);
            }
        }
        None
    }
}

/// Whether the name is among these.
pub fn has_name(names: &[Name], name: &Name) -> bool {
    names.iter().any(|it| it.equals(name))
}
