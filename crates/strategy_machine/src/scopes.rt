//! The table of scopes. A scope is given by its number.

ghost use Rattle.std.specs.Prelude.{◌≡◌, ◌≤◌, ◌<◌, ◌+◌, ◌∷◌, ◌++◌, ◌^◌, [], length, take, slice_get, OnErr, IfOk, IfSome, MatchOption, None};
ghost use Rattle.strategy_meaning.specs.Scopes.{inside, cells_in, stands_for, with_variables, with_name, numbers_from, argument, arguments};
ghost use Rattle.std.specs.Bool.{OnTrue};
ghost use Rattle.strategy_syntax.specs.Resolved.{param, resolveds_of};
ghost use Rattle.strategy_machine.specs.Table.{nowhere, scopes, scope_at, scope_from, with_addition, IsThere, NameStands, Starts, closure_of};
ghost use Rattle.strategy_machine.specs.inside.Entries.{AreNames, names_in, closure_count, addition_of, AddsFit, AddsRoom, added_cells, added_names};

use std::alloc::Global;
use std::marker::Model;
use strategy_syntax::{ResolvedForm, ResolvedStrategy};
use term_core::NoMemory;

/// What a strategy name stands for: a strategy, and the number of the scope that it belongs to.
#[derive(Clone, Copy)]
pub struct Closure<'t> {
    pub strategy: &'t ResolvedStrategy,
    pub written_in: usize,
}

#[derive(Clone, Copy)]
struct ScopeEntry<'t> {
    // the scope that is extended, unless it is the empty one
    outer: Option<usize>,
    // the numbers of variables and names of that scope
    variables: usize,
    names: usize,
    adds: Adds<'t>,
}

#[derive(Clone, Copy)]
enum Adds<'t> {
    // variables: the cell of the first one, and their number
    Variables(usize, usize),
    Name(Closure<'t>),
}

/// The scopes of a run, the oldest first.
#[derive(Drop)]
pub struct Scopes<'t> {
    entries: Vec<ScopeEntry<'t>>,
}

impl<'t> Model for Scopes<'t> {
    ghost use Rattle.std.specs.Prelude.{List, [], map};
    ghost use Rattle.std.specs.Coded.{coded_list};
    ghost use Rattle.strategy_machine.specs.Table.{Widening};
    ghost use Rattle.strategy_machine.specs.inside.TableCode.{widening_code};
    ghost use Rattle.strategy_machine.specs.inside.Entries.{widening_of, RestOnOlder};

    ghost Value = { List Widening };

    ghost coded = { coded_list widening_code };

    ghost view = { λ s. map widening_of s.entries.items };

    ghost invariant = { λ s. RestOnOlder [] s.entries.items };
}

impl<'t> Scopes<'t> {
    /// An empty table.
    pub fn new(alloc: Global) -> Scopes<'t>
        ensures { scopes result ≡ [] }
    {
        Scopes {
            entries: Vec::new(alloc),
        }
    }

    /// The number of scopes.
    pub fn count(&self) -> usize
        ensures { result ≡ length (scopes self.now) }
    {
        self.entries.len()
    }

    /// Keeps only the first `count` scopes.
    pub fn cut(&mut self, count: usize)
        ensures { scopes self.new ≡ take count (scopes self.old) }
    {
        self.entries.truncate(count);
    }

    /// Adds a scope: this one with `count` more variables, whose cells are those from `first` on.
    pub fn add_variables(
        &mut self,
        outer: Option<usize>,
        first: usize,
        count: usize,
    ) -> Result<usize, NoMemory>
        requires there { IsThere (length (scopes self.old)) outer }
        requires room { first + count < 2 ^ 64 }
        ensures number { IfOk result (λ n. n ≡ length (scopes self.old)) }
        ensures ok { IfOk result (λ _. scopes self.new ≡ scopes self.old ++ with_variables (scope_from (scopes self.old) outer) first count ∷ []) }
        ensures err { OnErr result (self.new ≡ self.old) }
    {
        self.add(outer, Adds::Variables(first, count))
    }

    /// Adds a scope: this one with a name for a strategy that belongs to a scope of the table.
    pub fn add_name(&mut self, outer: Option<usize>, known: Closure<'t>) -> Result<usize, NoMemory>
        requires there { IsThere (length (scopes self.old)) outer }
        requires written { known.written_in < length (scopes self.old) }
        ensures number { IfOk result (λ n. n ≡ length (scopes self.old)) }
        ensures ok { IfOk result (λ _. scopes self.new ≡ scopes self.old
            ++ with_name (scope_from (scopes self.old) outer) known.entry.strategy.now (scope_at (scopes self.old) known.entry.written_in) ∷ []) }
        ensures err { OnErr result (self.new ≡ self.old) }
    {
        self.add(outer, Adds::Name(known))
    }

    /// Adds the scope of a definition's body: its variables, whose cells are those from `first` on,
    /// and what its strategy parameters stand for, which are strategies that belong to this scope.
    /// If memory can't grow, some scopes may have been added, but no older one changes.
    pub fn add_call(
        &mut self,
        scope: usize,
        strategies: &'t [ResolvedStrategy],
        first: usize,
        count: usize,
    ) -> Result<usize, NoMemory>
        requires there { scope < length (scopes self.old) }
        requires room { first + count < 2 ^ 64 }
        ensures number { IfOk result (λ n. n < length (scopes self.new)) }
        ensures ok { IfOk result (λ n. scope_at (scopes self.new) n
            ≡ inside (numbers_from first count) (arguments (scope_at (scopes self.old) scope) (resolveds_of strategies.entry.now))) }
        ensures stay { IfOk result (λ _. Starts (scopes self.old) (scopes self.new)) }
        ensures err { OnErr result (Starts (scopes self.old) (scopes self.new)) }
    {
        if count == 0 && self.hands_all_on(scope, strategies) {
            return Ok(scope);
        }
        let names = self.add_arguments(scope, strategies)?;
        if count == 0 {
            if let Some(n) = names {
                return Ok(n);
            }
        }
        self.add_variables(names, first, count)
    }

    /// Whether these strategies are exactly the names of this scope, in order, and it has no
    /// variables: then they stand for the same in a scope of their own.
    #[inline(always)]
    pub fn hands_all_on(&self, scope: usize, strategies: &[ResolvedStrategy]) -> bool
        requires { scope < length (scopes self.now) }
        ensures { OnTrue result (scope_at (scopes self.now) scope
            ≡ inside [] (arguments (scope_at (scopes self.now) scope) (resolveds_of strategies.now))) }
    {
        let Some(counts) = self.counts(Some(scope)) else {
            return false;
        };
        if counts.variables != 0 {
            return false;
        }
        counts.names == strategies.len() && are_names(strategies)
    }

    /// A scope without variables and names, if the oldest one is such a scope.
    #[inline(always)]
    pub fn nowhere(&self) -> Option<usize>
        ensures there { IfSome result (λ n. n < length (scopes self.now)) }
        ensures empty { IfSome result (λ n. scope_at (scopes self.now) n ≡ nowhere) }
    {
        let oldest = self.entries.first()?;
        match (oldest.outer, oldest.adds) {
            (None, Adds::Variables(_, 0)) => Some(0),
            _ => None,
        }
    }

    // A scope without variables, whose names stand for strategies that belong to this scope; none
    // if there are no strategies.
    fn add_arguments(
        &mut self,
        scope: usize,
        strategies: &'t [ResolvedStrategy],
    ) -> Result<Option<usize>, NoMemory>
        requires { scope < length (scopes self.old) }
        ensures there { IfOk result (λ names. IsThere (length (scopes self.new)) names) }
        ensures ok { IfOk result (λ names. scope_from (scopes self.new) names
            ≡ inside [] (arguments (scope_at (scopes self.old) scope) (resolveds_of strategies.entry.now))) }
        ensures stay { IfOk result (λ _. Starts (scopes self.old) (scopes self.new)) }
        ensures err { OnErr result (Starts (scopes self.old) (scopes self.new)) }
    {
        let mut names = None;
        'each: for strategy in strategies {
            let known = self.argument(scope, strategy);
            names = Some(self.add_name(names, known)?);
        }
        Ok(names)
    }

    // What a strategy argument stands for.
    fn argument(&self, scope: usize, strategy: &'t ResolvedStrategy) -> Closure<'t>
        requires { scope < length (scopes self.now) }
        ensures there { result.written_in < length (scopes self.now) }
        ensures known { argument (scope_at (scopes self.now) scope) strategy.entry.now ≡ closure_of (scopes self.now) result }
    {
        if let ResolvedForm::Param(x) = strategy.form() {
            if let Some(known) = self.named(scope, *x) {
                return known;
            }
        }
        Closure {
            strategy,
            written_in: scope,
        }
    }

    // Adds a scope: this one with an addition.
    fn add(&mut self, outer: Option<usize>, adds: Adds<'t>) -> Result<usize, NoMemory>
        requires there { IsThere (length (scopes self.old)) outer }
        requires fit { AddsFit (length (scopes self.old)) adds }
        ensures number { IfOk result (λ n. n ≡ length (scopes self.old)) }
        ensures ok { IfOk result (λ _. scopes self.new ≡ scopes self.old
            ++ with_addition (scopes self.old) (addition_of adds.entry) (scope_from (scopes self.old) outer) ∷ []) }
        ensures err { OnErr result (self.new ≡ self.old) }
    {
        let Some(counts) = self.counts(outer) else {
            return Err(NoMemory);
        };
        let new = self.entries.len();
        self.entries.push(ScopeEntry {
            outer,
            variables: counts.variables,
            names: counts.names,
            adds,
        })?;
        Ok(new)
    }

    // The numbers of variables and names of a scope, if they fit in `usize`.
    #[inline(always)]
    fn counts(&self, scope: Option<usize>) -> Option<Counts>
        requires { IsThere (length (scopes self.now)) scope }
        ensures variables { IfSome result (λ c. c.variables ≡ length (cells_in (scope_from (scopes self.now) scope))) }
        ensures names { IfSome result (λ c. c.names ≡ closure_count (names_in (scope_from (scopes self.now) scope))) }
    {
        let Some(n) = scope else {
            return Some(Counts {
                variables: 0,
                names: 0,
            });
        };
        let entry = &self.entries[n];
        match entry.adds {
            Adds::Variables(_, count) => Some(Counts {
                variables: entry.variables.checked_add(count)?,
                names: entry.names,
            }),
            Adds::Name(_) => Some(Counts {
                variables: entry.variables,
                names: entry.names.checked_add(1)?,
            }),
        }
    }

    /// The cell of a scope's variable.
    #[inline(always)]
    pub fn cell(&self, scope: usize, variable: usize) -> Option<usize>
        ensures { result ≡ slice_get (cells_in (scope_at (scopes self.now) scope)) variable }
    {
        let mut at = scope;
        'outwards: while at < self.entries.len() {
            let entry = self.entries[at];
            if variable >= entry.variables {
                return own_cell(entry.adds, variable - entry.variables);
            }
            let Some(outer) = entry.outer else {
                return None;
            };
            at = outer;
        }
        None
    }

    /// What a strategy name stands for in a scope.
    #[inline(always)]
    pub fn named(&self, scope: usize, x: usize) -> Option<Closure<'t>>
        ensures { MatchOption result (stands_for (scope_at (scopes self.now) scope) x ≡ None)
            (λ known. NameStands (scopes self.now) scope x known) }
    {
        let mut at = scope;
        'outwards: while at < self.entries.len() {
            let entry = self.entries[at];
            if x >= entry.names {
                return own_name(entry.adds, x - entry.names);
            }
            let Some(outer) = entry.outer else {
                return None;
            };
            at = outer;
        }
        None
    }
}

// The numbers of variables and names of a scope.
#[derive(Clone, Copy)]
struct Counts {
    variables: usize,
    names: usize,
}

// Whether these are the names from 0 on, in order.
#[inline(always)]
fn are_names(strategies: &[ResolvedStrategy]) -> bool
    ensures { OnTrue result (AreNames 0 strategies.now) }
{
    'each: for i in 0..strategies.len() {
        if !is_name(&strategies[i], i) {
            return false;
        }
    }
    true
}

/// Whether this is just the name with this number.
#[inline(always)]
pub(crate) fn is_name(strategy: &ResolvedStrategy, x: usize) -> bool
    ensures { OnTrue result (strategy.now ≡ param x) }
{
    match strategy.form() {
        ResolvedForm::Param(y) => *y == x,
        _ => false,
    }
}

// The cell of variable i of the addition.
fn own_cell(adds: Adds<'_>, i: usize) -> Option<usize>
    requires { AddsRoom adds }
    ensures { result ≡ slice_get (added_cells (addition_of adds.entry)) i }
{
    match adds {
        Adds::Variables(first, count) if i < count => Some(first + i),
        _ => None,
    }
}

// What name i of the addition stands for.
fn own_name<'t>(adds: Adds<'t>, i: usize) -> Option<Closure<'t>>
    ensures { result ≡ slice_get (added_names adds.entry) i }
{
    match adds {
        Adds::Name(known) if i == 0 => Some(known),
        _ => None,
    }
}
