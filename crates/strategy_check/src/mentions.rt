//! What the bodies of definitions mention: other definitions, and constructors.
#![tactic(auto, using(crate::proofs::MentionLemmas::mention_rules))]

ghost use Rattle.std.specs.Prelude.{◌≡◌, is_some, IfOk, OnOk};
ghost use Rattle.strategy_syntax.specs.Syntax.{patterns_of, strategies_of};
ghost use Rattle.strategy_syntax.specs.Heads.{head_of};
ghost use Rattle.strategy_names.specs.Binders.{binder_number};
ghost use Rattle.strategy_check.specs.inside.Changing.{mentioned};
ghost use Rattle.strategy_check.specs.inside.Mentioned.{with_key, with_constructor, mentioned_by_head, mentioned_in_pattern, mentioned_in_patterns, mentioned_by_name, mentioned_in_strategy, mentioned_in_strategies, mentioned_in_body, mentioned_in_bodies};

use crate::key::DefinitionKey;
use crate::table::Table;
use std::alloc::Global;
use strategy_names::Binders;
use strategy_syntax::{
    Constructor, Definition, Head, Module, Pattern, PatternForm, Strategy, StrategyForm,
};
use term_core::{Name, NoMemory};

/// What the bodies of a module's definitions mention, as a table.
pub fn mentions(alloc: Global, module: &Module) -> Result<Table, NoMemory>
    ensures { IfOk result (λ found. found ≡ mentioned «module».now) }
{
    let mut mentioned = Table::empty(alloc);
    mention_in_bodies(alloc, &mut mentioned, module.definitions())?;
    Ok(mentioned)
}

// Adds what the bodies mention.
fn mention_in_bodies(
    alloc: Global,
    mentioned: &mut Table,
    definitions: &[Definition],
) -> Result<(), NoMemory>
    ensures { OnOk result (mentioned.new ≡ mentioned_in_bodies mentioned.old definitions.now) }
{
    for definition in definitions {
        mention_in_body(alloc, mentioned, definition)?;
    }
    Ok(())
}

fn mention_in_body(
    alloc: Global,
    mentioned: &mut Table,
    definition: &Definition,
) -> Result<(), NoMemory>
    ensures { OnOk result (mentioned.new ≡ mentioned_in_body mentioned.old definition.now) }
{
    let mut names = Binders::new(alloc);
    names.open_all(definition.strategy_parameters(), 0)?;
    mention_in_strategy(&mut names, mentioned, definition.body())
}

// Adds what the strategy mentions, with these strategy names in scope.
#[cycle(strategy)]
fn mention_in_strategy(
    names: &mut Binders,
    mentioned: &mut Table,
    strategy: &Strategy,
) -> Result<(), NoMemory>
    ensures mentioned { OnOk result (mentioned.new
        ≡ mentioned_in_strategy names.old mentioned.old strategy.now) }
    ensures names { OnOk result (names.new ≡ names.old) }
{
    match strategy.form() {
        StrategyForm::Id | StrategyForm::Fail => Ok(()),
        StrategyForm::Match(pattern) | StrategyForm::Build(pattern) => {
            mention_in_pattern(mentioned, pattern)
        }
        StrategyForm::Seq(parts) => {
            mention_in_strategy(names, mentioned, &parts.0)?;
            mention_in_strategy(names, mentioned, &parts.1)
        }
        StrategyForm::Guard(parts) => {
            mention_in_strategy(names, mentioned, &parts.0)?;
            mention_in_strategy(names, mentioned, &parts.1)?;
            mention_in_strategy(names, mentioned, &parts.2)
        }
        StrategyForm::Use(name, parts, terms) => {
            mention_name(names, mentioned, name, parts.len(), terms.len())?;
            mention_in_strategies(names, mentioned, parts)?;
            mention_in_patterns(mentioned, terms)
        }
        StrategyForm::Congruence(_, parts) => mention_in_strategies(names, mentioned, parts),
        StrategyForm::TailCongruence(parts, tail) => {
            mention_in_strategies(names, mentioned, parts)?;
            mention_in_strategy(names, mentioned, tail)
        }
        StrategyForm::Test(part)
        | StrategyForm::Scope(_, part)
        | StrategyForm::All(part)
        | StrategyForm::One(part)
        | StrategyForm::Some(part)
        | StrategyForm::Child(_, part) => mention_in_strategy(names, mentioned, part),
        StrategyForm::Rec(name, part) => {
            names.open(name, names.len())?;
            mention_in_strategy(names, mentioned, part)?;
            names.close()
        }
        StrategyForm::Prim(_, terms) => mention_in_patterns(mentioned, terms),
    }
}

#[cycle(strategy)]
fn mention_in_strategies(
    names: &mut Binders,
    mentioned: &mut Table,
    strategies: &[Strategy],
) -> Result<(), NoMemory>
    ensures mentioned { OnOk result (mentioned.new
        ≡ mentioned_in_strategies names.old mentioned.old (strategies_of strategies.now)) }
    ensures names { OnOk result (names.new ≡ names.old) }
{
    for strategy in strategies {
        mention_in_strategy(names, mentioned, strategy)?;
    }
    Ok(())
}

#[cycle(pattern)]
fn mention_in_pattern(mentioned: &mut Table, pattern: &Pattern) -> Result<(), NoMemory>
    ensures { OnOk result (mentioned.new ≡ mentioned_in_pattern mentioned.old pattern.now) }
{
    match pattern.form() {
        PatternForm::Wildcard | PatternForm::Integer(_) | PatternForm::Variable(_) => Ok(()),
        PatternForm::At(_, inner) => mention_in_pattern(mentioned, inner),
        PatternForm::Compound(head, patterns) => {
            mention_head(mentioned, head, patterns.len())?;
            mention_in_patterns(mentioned, patterns)
        }
        PatternForm::WithTail(patterns, tail) => {
            mention_in_patterns(mentioned, patterns)?;
            mention_in_pattern(mentioned, tail)
        }
        PatternForm::Annotated(base, annotations) => {
            mention_in_pattern(mentioned, base)?;
            mention_in_patterns(mentioned, annotations)
        }
    }
}

#[cycle(pattern)]
fn mention_in_patterns(mentioned: &mut Table, patterns: &[Pattern]) -> Result<(), NoMemory>
    ensures { OnOk result (mentioned.new
        ≡ mentioned_in_patterns mentioned.old (patterns_of patterns.now)) }
{
    for pattern in patterns {
        mention_in_pattern(mentioned, pattern)?;
    }
    Ok(())
}

// Adds the constructor of a pattern. Lists and tuples have none.
fn mention_head(mentioned: &mut Table, head: &Head, arity: usize) -> Result<(), NoMemory>
    ensures { OnOk result (mentioned.new ≡ mentioned_by_head mentioned.old (head_of head.now) arity) }
{
    match head {
        Head::Application(name) => mention_constructor(mentioned, name, arity),
        Head::List | Head::Tuple => Ok(()),
    }
}

// Adds a name with these numbers of strategies and terms, unless it is in scope: as a definition
// and as a constructor.
fn mention_name(
    names: &Binders,
    mentioned: &mut Table,
    name: &Name,
    strategies: usize,
    terms: usize,
) -> Result<(), NoMemory>
    ensures { OnOk result (mentioned.new ≡ mentioned_by_name mentioned.old
        (is_some (binder_number name.now names.now)) name.now strategies terms) }
{
    if names.number(name).is_some() {
        return Ok(());
    }
    mention_definition(mentioned, name, strategies, terms)?;
    mention_constructor(mentioned, name, strategies)
}

fn mention_definition(
    mentioned: &mut Table,
    name: &Name,
    strategies: usize,
    terms: usize,
) -> Result<(), NoMemory>
    ensures { OnOk result (mentioned.new ≡ with_key mentioned.old name.now strategies terms) }
{
    let key = DefinitionKey::new(name, strategies, terms)?;
    mentioned.definitions.insert(key)?;
    Ok(())
}

fn mention_constructor(mentioned: &mut Table, name: &Name, arity: usize) -> Result<(), NoMemory>
    ensures { OnOk result (mentioned.new ≡ with_constructor mentioned.old name.now arity) }
{
    let constructor = Constructor::new(name.try_clone()?, arity);
    mentioned.constructors.insert(constructor)?;
    Ok(())
}
