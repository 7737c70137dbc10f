//! What a strategy matches first, and how much of that matches a term.

use crate::finding::Part;
use diagnostic::DEEPEST;
use std::alloc::Global;
use strategy_machine::Machine;
use strategy_syntax::{
    Pattern, PatternForm as Named, ResolvedForm, ResolvedPattern, ResolvedPatternForm as Form,
    StrategyForm,
};
use term_core::{Kind, NoMemory, Term};
use term_values::Value;

/// A pattern, resolved and with its names.
#[derive(Clone, Copy)]
pub struct Left<'a> {
    pub resolved: &'a ResolvedPattern,
    pub named: &'a Pattern,
}

/// A part of a pattern that doesn't match the subterm in its place.
pub struct Miss<'t> {
    /// How many parts of the pattern are before it: what is around it, and what is left of it.
    pub before: usize,
    /// Whether it is the whole pattern, by its root.
    pub is_root: bool,
    pub value: Value<'t>,
    /// What the variable is bound to, if the part is a variable.
    pub bound: Option<Value<'t>>,
    /// Whether it would match if the annotations were others.
    pub is_annotated: bool,
}

impl Drop for Miss<'_> {
    fn drop(self) {
        let Miss {
            before: _,
            is_root: _,
            value: _,
            bound: _,
            is_annotated: _,
        } = self;
    }
}

/// How much of a pattern matches a term.
#[derive(Drop)]
pub struct Compared<'t> {
    /// The first part that doesn't match.
    pub miss: Option<Miss<'t>>,
    /// How many parts match, and how deep the deepest of these is.
    pub matched: usize,
    pub depth: usize,
}

/// The variables that are bound before, by the cells of a scope.
#[derive(Clone, Copy)]
pub struct Known<'m, 't> {
    pub machine: &'m Machine<'t>,
    pub scope: usize,
}

/// The pattern that a strategy matches before anything else.
pub fn matched(part: Part<'_>) -> Option<Left<'_>> {
    let mut part = part;
    for _ in 0..DEEPEST {
        if let (ResolvedForm::Match(resolved), StrategyForm::Match(named)) = (
            part.resolved.form(),
            part.named.form(),
        ) {
            return Some(Left { resolved, named });
        }
        part = part.front()?;
    }
    None
}

/// Whether the pattern may match a term with this root and so many children, by its own root.
pub fn may_match(pattern: &ResolvedPattern, kind: Kind<'_>, count: usize) -> bool {
    let mut pattern = pattern;
    for _ in 0..DEEPEST {
        match pattern.form() {
            Form::At(_, inner) => pattern = inner,
            Form::Annotated(inner, _) => pattern = inner,
            Form::Integer(value) => return matches!(kind, Kind::Integer(it) if it == *value),
            Form::Compound(head, parts) => return head.is_head_of(kind) && parts.len() == count,
            Form::WithTail(parts, _) => return matches!(kind, Kind::List) && parts.len() <= count,
            Form::Wildcard | Form::Variable(_) => break,
        }
    }
    true
}

/// How much of the pattern matches the term.
pub fn compare<'t>(
    alloc: Global,
    pattern: &ResolvedPattern,
    value: &Value<'t>,
    known: Option<Known<'_, 't>>,
) -> Result<Compared<'t>, NoMemory> {
    let mut walk = Walk {
        known,
        bound: Vec::new(alloc),
        seen: 0,
        found: Compared {
            miss: None,
            matched: 0,
            depth: 0,
        },
    };
    walk_pattern(&mut walk, pattern, value, DEEPEST)?;
    let Walk { found, .. } = walk;
    Ok(found)
}

// What a walk over a pattern has found, the variables that it has bound, and how many parts it has
// seen.
#[derive(Drop)]
struct Walk<'m, 't> {
    known: Option<Known<'m, 't>>,
    bound: Vec<Bound<'t>>,
    seen: usize,
    found: Compared<'t>,
}

#[derive(Drop)]
struct Bound<'t> {
    variable: usize,
    value: Value<'t>,
}

#[cycle(walk)]
fn walk_pattern<'t>(
    walk: &mut Walk<'_, 't>,
    pattern: &ResolvedPattern,
    value: &Value<'t>,
    deep: usize,
) -> Result<(), NoMemory> {
    let Some(deep) = deep.checked_sub(1) else {
        return Ok(());
    };
    let before = walk.seen;
    walk.seen = before.saturating_add(1);
    if let Form::Variable(variable) | Form::At(variable, _) = pattern.form()
        && let Some(bound) = walk.bind(*variable, value)?
    {
        return walk.miss(before, value, Some(bound));
    }
    match pattern.form() {
        Form::At(_, inner) => return walk_pattern(walk, inner, value, deep),
        Form::Annotated(inner, annotations) => {
            walk_pattern(walk, inner, value, deep)?;
            let had_missed = walk.found.miss.is_some();
            let there = value.share_annotations(*walk.bound.allocator())?;
            walk_all(walk, annotations, &there, deep)?;
            if !had_missed && annotations.len() != there.len() {
                walk.miss(before, value, None)?;
            }
            if !had_missed && let Some(miss) = &mut walk.found.miss {
                miss.before = before;
                miss.value = value.try_clone()?;
                miss.bound = None;
                miss.is_annotated = true;
            }
            return Ok(());
        }
        Form::Integer(_) | Form::Compound(_, _) | Form::WithTail(_, _)
            if !may_match(pattern, value.kind(), value.child_count()) => {
            return walk.miss(before, value, None);
        }
        Form::Compound(_, parts) | Form::WithTail(parts, _) => {
            walk.add(deep);
            let children = walk.first_children(value, parts.len())?;
            walk_all(walk, parts, &children, deep)?;
        }
        Form::Wildcard | Form::Variable(_) | Form::Integer(_) => walk.add(deep),
    }
    if let Form::WithTail(parts, tail) = pattern.form()
        && parts.len() <= value.child_count()
    {
        let rest = value.rest(*walk.bound.allocator(), parts.len())?;
        walk_pattern(walk, tail, &rest, deep)?;
    }
    Ok(())
}

#[cycle(walk)]
fn walk_all<'t>(
    walk: &mut Walk<'_, 't>,
    patterns: &[ResolvedPattern],
    values: &[Value<'t>],
    deep: usize,
) -> Result<(), NoMemory> {
    for (pattern, value) in patterns.iter().zip(values) {
        walk_pattern(walk, pattern, value, deep)?;
    }
    Ok(())
}

impl<'t> Walk<'_, 't> {
    // Counts a part that matches, with so much left of the greatest depth.
    fn add(&mut self, left: usize) {
        self.found.matched = self.found.matched.saturating_add(1);
        self.found.depth = self.found.depth.max(DEEPEST.saturating_sub(left));
    }

    // So many of the children.
    fn first_children(&self, value: &Value<'t>, count: usize) -> Result<Vec<Value<'t>>, NoMemory> {
        let mut children = Vec::new(*self.bound.allocator());
        for index in 0..count {
            if let Some(child) = value.child(index)? {
                children.push(child)?;
            }
        }
        Ok(children)
    }

    // Keeps the first part that doesn't match.
    fn miss(
        &mut self,
        before: usize,
        value: &Value<'t>,
        bound: Option<Value<'t>>,
    ) -> Result<(), NoMemory> {
        if self.found.miss.is_none() {
            self.found.miss = Some(Miss {
                before,
                is_root: self.found.matched == 0,
                value: value.try_clone()?,
                bound,
                is_annotated: false,
            });
        }
        Ok(())
    }

    // Binds the variable, unless it is bound. Returns what it is bound to, if that is another term.
    fn bind(&mut self, variable: usize, value: &Value<'t>) -> Result<Option<Value<'t>>, NoMemory> {
        for bound in &self.bound {
            if bound.variable == variable {
                return other_than(value, &bound.value);
            }
        }
        if let Some(Known { machine, scope }) = self.known
            && let Some(cell) = machine.scopes.cell(scope, variable)
            && let Some(bound) = machine.cells.get(cell)
        {
            return other_than(value, bound);
        }
        self.bound.push(Bound {
            variable,
            value: value.try_clone()?,
        })?;
        Ok(None)
    }
}

// What is bound, if it is another term than the value.
fn other_than<'t>(value: &Value<'t>, bound: &Value<'t>) -> Result<Option<Value<'t>>, NoMemory> {
    if bound.equals(value) {
        return Ok(None);
    }
    Ok(Some(bound.try_clone()?))
}

/// The part of a pattern that has so many others before it.
pub fn part_after(alloc: Global, whole: &Pattern, before: usize) -> Result<&Pattern, NoMemory> {
    let mut left: Vec<&Pattern> = Vec::new(alloc);
    left.push(whole)?;
    for _ in 0..before {
        let Some(pattern) = left.pop() else {
            break;
        };
        match pattern.form() {
            Named::Wildcard | Named::Variable(_) | Named::Integer(_) => {}
            Named::At(_, inner) => left.push(inner)?,
            Named::Compound(_, parts) => push_all(&mut left, parts)?,
            Named::WithTail(parts, tail) => {
                left.push(tail)?;
                push_all(&mut left, parts)?;
            }
            Named::Annotated(inner, annotations) => {
                push_all(&mut left, annotations)?;
                left.push(inner)?;
            }
        }
    }
    Ok(left.pop().unwrap_or(whole))
}

// Puts these on the stack, the first one last.
fn push_all<'a>(left: &mut Vec<&'a Pattern>, patterns: &'a [Pattern]) -> Result<(), NoMemory> {
    for pattern in patterns.iter().rev() {
        left.push(pattern)?;
    }
    Ok(())
}

/// Whether the terms are the same but for annotations, down to this depth.
pub fn are_alike(term: &Term, other: &Term, deep: usize) -> bool {
    let Some(deep) = deep.checked_sub(1) else {
        return false;
    };
    let is_kind = match (term.kind(), other.kind()) {
        (Kind::Integer(value), Kind::Integer(more)) => value == more,
        (Kind::Application(name), Kind::Application(more)) => name.equals(more),
        (Kind::List, Kind::List) | (Kind::Tuple, Kind::Tuple) => true,
        (Kind::Integer(_) | Kind::Application(_) | Kind::List | Kind::Tuple, _) => false,
    };
    let mut alike = is_kind && term.child_count() == other.child_count();
    for (child, more) in term.children().iter().zip(other.children()) {
        alike = alike && are_alike(child, more, deep);
    }
    alike
}
