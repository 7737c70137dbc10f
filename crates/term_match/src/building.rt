//! Building the instance of a pattern.
//!
//! Bounds of sizes are stored with the terms in the cells. Only if they don't show that the
//! instance fits are its variables measured, small terms first, and the results stay in the cells.

ghost use Rattle.std.specs.Prelude.{◌≡◌, ◌+◌, ◌<◌, ◌≤◌, ◌^◌, ℕ, List, [], ◌∷◌, ◌++◌, length, IfOk, IfSome, Ok, Some, option_map, option_and_then};
ghost use Rattle.std.specs.Option.{option_copied};
ghost use Rattle.std.specs.declared.option.Option.{Option};
ghost use Rattle.term_core.specs.declared.TheConstants.{MAX_ROOM};
ghost use Rattle.term_core.specs.Kind.{made_of};
ghost use Rattle.term_core.specs.Tree.{Tree, branch, of_list, none, children, with_annotations, list_term};
ghost use Rattle.strategy_syntax.specs.Resolved.{with_tail, annotated, resolved_patterns_of};
ghost use Rattle.strategy_syntax.specs.Heads.{head_of};
ghost use Rattle.strategy_meaning.specs.Matching.{Bindings, build_pattern, build_patterns, bound_to, elements};
ghost use Rattle.term_match.specs.Building.{Builds};

use crate::cells::Cells;
use crate::matching::is_list;
use crate::variables::VariableCells;
use std::alloc::Global;
use strategy_syntax::{Head, ResolvedPattern, ResolvedPatternForm};
use term_core::{Kind, NoMemory};
use term_values::Value;

/// The result of a build.
#[derive(Drop)]
pub enum Built<'t> {
    /// The instance.
    Value(Value<'t>),
    /// There is no instance: a variable is unbound, a tail is no list, or the pattern is one that
    /// can only match.
    Nothing,
    /// The instance doesn't fit.
    Big,
}

// The limits up to which the term of a variable is measured, in rounds. The last is more than any
// room.
const LIMITS: [u32; 10] = [
    32,
    256,
    2048,
    16384,
    131_072,
    1_048_576,
    8_388_608,
    67_108_864,
    536_870_912,
    u32::MAX,
];

impl<'t> Cells<'t> {
    /// The instance of the pattern, if it fits below `level` terms in this room. It shares the
    /// terms in the cells, and names with the pattern. No memory is taken if there is no instance.
    #[inline(always)]
    pub fn build<P: VariableCells>(
        &mut self,
        alloc: Global,
        variables: &P,
        pattern: &'t ResolvedPattern,
        level: u64,
        room: u32,
    ) -> Result<Built<'t>, NoMemory>
        requires { room ≤ MAX_ROOM }
        ensures same { self.new ≡ self.old }
        ensures ok { IfOk result (λ built. Builds (build_pattern pattern.now (P.cells variables.now) self.old.bindings) room level built) }
    {
        if let Some(value) = self.at_once(variables, pattern)? {
            if value.surely_fits(level, room) {
                return Ok(Built::Value(value));
            }
            drop(value);
        }
        self.build_parts(alloc, variables, pattern, level, room)
    }

    // `build` of a pattern with parts.
    #[inline(never)]
    fn build_parts<P: VariableCells>(
        &mut self,
        alloc: Global,
        variables: &P,
        pattern: &'t ResolvedPattern,
        level: u64,
        room: u32,
    ) -> Result<Built<'t>, NoMemory>
        requires { room ≤ MAX_ROOM }
        ensures same { self.new ≡ self.old }
        ensures ok { IfOk result (λ built. Builds (build_pattern pattern.now (P.cells variables.now) self.old.bindings) room level built) }
    {
        if let Some(value) = self.flat(alloc, variables, pattern)? {
            if value.surely_fits(level, room) {
                return Ok(Built::Value(value));
            }
            drop(value);
        } else {
            if !self.has_instance(variables, pattern) {
                return Ok(Built::Nothing);
            }
            let Some(value) = self.instance(alloc, variables, pattern)? else {
                return Ok(Built::Nothing);
            };
            if value.surely_fits(level, room) {
                return Ok(Built::Value(value));
            }
            drop(value);
        }
        self.build_measured(alloc, variables, pattern, level, room)
    }

    // The instance of a pattern with one or two parts, if there is one and the parts are those that
    // `at_once` and `last` can build. Memory is taken only when all of them have an instance.
    #[inline(always)]
    fn flat<P: VariableCells>(
        &self,
        alloc: Global,
        variables: &P,
        pattern: &'t ResolvedPattern,
    ) -> Result<Option<Value<'t>>, NoMemory>
        ensures { IfOk result (λ found. IfSome found (λ value. build_pattern pattern.now (P.cells variables.now) self.now.bindings ≡ Some value)) }
    {
        match pattern.form() {
            ResolvedPatternForm::Compound(head, parts) => {
                if parts.len() == 1 {
                    let Some(only) = self.last(alloc, variables, &parts[0])? else {
                        return Ok(None);
                    };
                    return Ok(Some(Value::one(alloc, kind_of(head), only)?));
                }
                if parts.len() == 2 {
                    let Some(first) = self.at_once(variables, &parts[0])? else {
                        return Ok(None);
                    };
                    let Some(second) = self.last(alloc, variables, &parts[1])? else {
                        return Ok(None);
                    };
                    return Ok(Some(Value::two(alloc, kind_of(head), first, second)?));
                }
                Ok(None)
            }
            _ => self.last(alloc, variables, pattern),
        }
    }

    // `at_once`, also for a pattern without parts in front of another as a tail.
    #[inline(always)]
    fn last<P: VariableCells>(
        &self,
        alloc: Global,
        variables: &P,
        pattern: &'t ResolvedPattern,
    ) -> Result<Option<Value<'t>>, NoMemory>
        ensures { IfOk result (λ found. IfSome found (λ value. build_pattern pattern.now (P.cells variables.now) self.now.bindings ≡ Some value)) }
    {
        match pattern.form() {
            ResolvedPatternForm::WithTail(parts, tail) => self.one_before(
                alloc, variables, parts, tail,
            ),
            _ => self.at_once(variables, pattern),
        }
    }

    // The list of one instance in front of the elements of another, if `at_once` builds both.
    #[inline(never)]
    fn one_before<P: VariableCells>(
        &self,
        alloc: Global,
        variables: &P,
        parts: &'t [ResolvedPattern],
        tail: &'t ResolvedPattern,
    ) -> Result<Option<Value<'t>>, NoMemory>
        ensures { IfOk result (λ found. IfSome found (λ value.
            build_pattern (with_tail (resolved_patterns_of parts.now) tail.now) (P.cells variables.now) self.now.bindings ≡ Some value)) }
    {
        if parts.len() != 1 {
            return Ok(None);
        }
        let Some(after) = self.at_once(variables, tail)? else {
            return Ok(None);
        };
        if !is_list(&after) {
            return Ok(None);
        }
        let Some(first) = self.at_once(variables, &parts[0])? else {
            return Ok(None);
        };
        // a list of more elements than `usize` can count would find no memory
        let _count = after.child_count().checked_add(1).ok_or(NoMemory)?;
        Ok(Some(Value::cons_owned(alloc, first, after)?))
    }

    // The instance of a variable or of a pattern without parts, if there is one.
    #[inline(always)]
    fn at_once<P: VariableCells>(
        &self,
        variables: &P,
        pattern: &'t ResolvedPattern,
    ) -> Result<Option<Value<'t>>, NoMemory>
        ensures { IfOk result (λ found. IfSome found (λ value. build_pattern pattern.now (P.cells variables.now) self.now.bindings ≡ Some value)) }
    {
        match pattern.form() {
            ResolvedPatternForm::Variable(x) => {
                let Some(value) = self.bound(variables, *x) else {
                    return Ok(None);
                };
                let held = value.try_clone()?;
                Ok(Some(held))
            }
            _ => Ok(constant(pattern)),
        }
    }

    // The instance, if it fits, after measuring the terms of its variables as far as necessary.
    #[inline(never)]
    fn build_measured<P: VariableCells>(
        &mut self,
        alloc: Global,
        variables: &P,
        pattern: &'t ResolvedPattern,
        level: u64,
        room: u32,
    ) -> Result<Built<'t>, NoMemory>
        requires { room ≤ MAX_ROOM }
        ensures same { self.new ≡ self.old }
        ensures ok { IfOk result (λ built. Builds (build_pattern pattern.now (P.cells variables.now) self.old.bindings) room level built) }
    {
        'measure: for limit in LIMITS {
            self.measure(variables, pattern, u64::from(limit.min(room)));
            let Some(value) = self.instance(alloc, variables, pattern)? else {
                return Ok(Built::Nothing);
            };
            if value.surely_fits(level, room) {
                return Ok(Built::Value(value));
            }
            drop(value);
            if limit >= room {
                break;
            }
        }
        let Some(mut value) = self.instance(alloc, variables, pattern)? else {
            return Ok(Built::Nothing);
        };
        if value.fits(level, room) {
            Ok(Built::Value(value))
        } else {
            drop(value);
            Ok(Built::Big)
        }
    }

    // The instance, if there is one.
    #[cycle(instance)]
    fn instance<P: VariableCells>(
        &self,
        alloc: Global,
        variables: &P,
        pattern: &'t ResolvedPattern,
    ) -> Result<Option<Value<'t>>, NoMemory>
        ensures { IfOk result (λ value. value ≡ build_pattern pattern.now (P.cells variables.now) self.now.bindings) }
    {
        match pattern.form() {
            ResolvedPatternForm::Wildcard => Ok(None),
            ResolvedPatternForm::Variable(x) => self.held(variables, *x),
            ResolvedPatternForm::At(_, _) => Ok(None),
            ResolvedPatternForm::Integer(number) => Ok(Some(Value::leaf(Kind::Integer(*number)))),
            ResolvedPatternForm::Compound(head, parts) => self.compound(
                alloc,
                variables,
                kind_of(head),
                parts,
            ),
            ResolvedPatternForm::WithTail(parts, tail) => self.with_tail(
                alloc, variables, parts, tail,
            ),
            ResolvedPatternForm::Annotated(inner, annotations) => self.annotated(
                alloc,
                variables,
                inner,
                annotations,
            ),
        }
    }

    // The instances of these patterns in front of the elements of the tail's instance, if that is a
    // list.
    #[cycle(instance)]
    #[inline(always)]
    fn with_tail<P: VariableCells>(
        &self,
        alloc: Global,
        variables: &P,
        parts: &'t [ResolvedPattern],
        tail: &'t ResolvedPattern,
    ) -> Result<Option<Value<'t>>, NoMemory>
        ensures { IfOk result (λ value. value
            ≡ build_pattern (with_tail (resolved_patterns_of parts.now) tail.now) (P.cells variables.now) self.now.bindings) }
    {
        let after = self.instance(alloc, variables, tail)?;
        let value = self.in_front(alloc, variables, parts, &after);
        drop(after);
        value
    }

    // The instance of a pattern with the instances of others as annotations.
    #[cycle(instance)]
    #[inline(always)]
    fn annotated<P: VariableCells>(
        &self,
        alloc: Global,
        variables: &P,
        inner: &'t ResolvedPattern,
        annotations: &'t [ResolvedPattern],
    ) -> Result<Option<Value<'t>>, NoMemory>
        ensures { IfOk result (λ value. value
            ≡ build_pattern (annotated inner.now (resolved_patterns_of annotations.now)) (P.cells variables.now) self.now.bindings) }
    {
        let value = self.instance(alloc, variables, inner)?;
        let with = self.with_all(alloc, variables, &value, annotations);
        drop(value);
        with
    }

    // A term, if there is one, with the instances of patterns as annotations.
    #[cycle(instance)]
    #[inline(always)]
    fn with_all<P: VariableCells>(
        &self,
        alloc: Global,
        variables: &P,
        value: &Option<Value<'t>>,
        annotations: &'t [ResolvedPattern],
    ) -> Result<Option<Value<'t>>, NoMemory>
        ensures { IfOk result (λ with. with ≡ option_and_then (λ u. option_map (with_annotations u)
            (build_patterns (resolved_patterns_of annotations.now) (P.cells variables.now) self.now.bindings)) value.now) }
    {
        match value {
            None => Ok(None),
            Some(value) => annotated(alloc, value, self.instances(alloc, variables, annotations)?),
        }
    }

    // A node over the instances of these patterns.
    #[cycle(instance)]
    fn compound<P: VariableCells>(
        &self,
        alloc: Global,
        variables: &P,
        kind: Kind<'t>,
        parts: &'t [ResolvedPattern],
    ) -> Result<Option<Value<'t>>, NoMemory>
        ensures { IfOk result (λ value. value
            ≡ option_map (λ us. made_of kind.entry us []) (build_patterns (resolved_patterns_of parts.now) (P.cells variables.now) self.now.bindings)) }
    {
        if parts.len() == 1 {
            return over_one(alloc, kind, self.instance(alloc, variables, &parts[0])?);
        }
        if parts.len() == 2 {
            return self.over_two(alloc, variables, kind, &parts[0], &parts[1]);
        }
        over_all(alloc, kind, self.instances(alloc, variables, parts)?)
    }

    // A node over the instances of two patterns.
    #[cycle(instance)]
    #[inline(always)]
    fn over_two<P: VariableCells>(
        &self,
        alloc: Global,
        variables: &P,
        kind: Kind<'t>,
        left: &'t ResolvedPattern,
        right: &'t ResolvedPattern,
    ) -> Result<Option<Value<'t>>, NoMemory>
        ensures { IfOk result (λ value. value
            ≡ option_map (λ us. made_of kind.entry us []) (build_patterns (resolved_patterns_of (left.now ∷ right.now ∷ [])) (P.cells variables.now) self.now.bindings)) }
    {
        match self.instance(alloc, variables, left)? {
            None => Ok(None),
            Some(first) => over_both(alloc, kind, first, self.instance(alloc, variables, right)),
        }
    }

    // The list of the instances of these patterns in front of the elements of a list, if there is
    // one.
    #[cycle(instance)]
    fn in_front<P: VariableCells>(
        &self,
        alloc: Global,
        variables: &P,
        parts: &'t [ResolvedPattern],
        after: &Option<Value<'t>>,
    ) -> Result<Option<Value<'t>>, NoMemory>
        ensures { IfOk result (λ value. value ≡ option_and_then (λ us. option_map (λ vs. list_term (us ++ vs))
            (option_and_then elements after.now)) (build_patterns (resolved_patterns_of parts.now) (P.cells variables.now) self.now.bindings)) }
    {
        let Some(after) = after else {
            return Ok(None);
        };
        if !is_list(after) {
            return Ok(None);
        }
        // a list of more elements than `usize` can count would find no memory
        let _count = after
            .child_count()
            .checked_add(parts.len())
            .ok_or(NoMemory)?;
        if parts.len() == 1 {
            return one_in_front(alloc, self.instance(alloc, variables, &parts[0])?, after);
        }
        all_in_front(alloc, self.instances(alloc, variables, parts)?, after)
    }

    // The instances of these patterns, if each has one.
    #[cycle(instance)]
    fn instances<P: VariableCells>(
        &self,
        alloc: Global,
        variables: &P,
        parts: &'t [ResolvedPattern],
    ) -> Result<Option<Vec<Value<'t>>>, NoMemory>
        ensures { IfOk result (λ all. option_map (λ v. v.items) all
            ≡ build_patterns (resolved_patterns_of parts.now) (P.cells variables.now) self.now.bindings) }
    {
        let mut all = Vec::with_capacity(alloc, parts.len())?;
        for part in parts {
            match self.instance(alloc, variables, part)? {
                None => return Ok(None),
                Some(value) => all.push(value)?,
            }
        }
        Ok(Some(all))
    }

    // Another holder of what a variable is bound to.
    #[inline(always)]
    fn held<P: VariableCells>(
        &self,
        variables: &P,
        variable: usize,
    ) -> Result<Option<Value<'t>>, NoMemory>
        ensures { IfOk result (λ value. value ≡ bound_to (P.cells variables.now) variable self.now.bindings) }
    {
        match self.bound(variables, variable) {
            None => Ok(None),
            Some(value) => Ok(Some(value.try_clone()?)),
        }
    }

    // What a variable is bound to.
    #[inline(always)]
    pub(crate) fn bound<P: VariableCells>(
        &self,
        variables: &P,
        variable: usize,
    ) -> Option<&Value<'t>>
        ensures { option_copied result ≡ bound_to (P.cells variables.now) variable self.now.bindings }
    {
        match variables.cell(variable) {
            None => None,
            Some(i) => self.get(i),
        }
    }
}

// The instance of a pattern without parts that doesn't depend on bindings.
fn constant<'t>(pattern: &'t ResolvedPattern) -> Option<Value<'t>>
    ensures { IfSome result (λ value. (e : List ℕ) (B : Bindings) → build_pattern pattern.entry.now e B ≡ Some value) }
{
    match pattern.form() {
        ResolvedPatternForm::Integer(number) => Some(Value::leaf(Kind::Integer(*number))),
        ResolvedPatternForm::Compound(head, parts) => {
            if !parts.is_empty() {
                return None;
            }
            Some(Value::leaf(kind_of(head)))
        }
        _ => None,
    }
}

// A node over a term, if there is one.
#[inline(always)]
fn over_one<'t>(
    alloc: Global,
    kind: Kind<'t>,
    child: Option<Value<'t>>,
) -> Result<Option<Value<'t>>, NoMemory>
    ensures { IfOk result (λ value. value ≡ option_map (λ u. made_of kind.entry (u ∷ []) []) child.entry) }
{
    match child {
        None => Ok(None),
        Some(child) => Ok(Some(Value::one(alloc, kind, child)?)),
    }
}

// A node over a term and another, if there is one.
#[inline(always)]
fn over_both<'t>(
    alloc: Global,
    kind: Kind<'t>,
    first: Value<'t>,
    second: Result<Option<Value<'t>>, NoMemory>,
) -> Result<Option<Value<'t>>, NoMemory>
    ensures { IfOk result (λ value. (there : Option Tree) × (second.entry ≡ Ok there)
        × (value ≡ option_map (λ u. made_of kind.entry (first.entry ∷ u ∷ []) []) there)) }
{
    match second {
        Ok(Some(second)) => Ok(Some(Value::two(alloc, kind, first, second)?)),
        Ok(None) => {
            drop(first);
            Ok(None)
        }
        Err(refused) => {
            drop(first);
            Err(refused)
        }
    }
}

// A node over terms, if they exist.
#[inline(always)]
fn over_all<'t>(
    alloc: Global,
    kind: Kind<'t>,
    children: Option<Vec<Value<'t>>>,
) -> Result<Option<Value<'t>>, NoMemory>
    ensures { IfOk result (λ value. value ≡ option_map (λ us. made_of kind.entry us.items []) children.entry) }
{
    match children {
        None => Ok(None),
        Some(children) => Ok(Some(Value::build(alloc, kind, children)?)),
    }
}

// The list of a term, if there is one, in front of the elements of another.
#[inline(always)]
fn one_in_front<'t>(
    alloc: Global,
    first: Option<Value<'t>>,
    after: &Value<'t>,
) -> Result<Option<Value<'t>>, NoMemory>
    requires { length (children after.now) + 1 < 2 ^ 64 }
    ensures { IfOk result (λ value. value ≡ option_map (λ u. list_term (u ∷ children after.now)) first.entry) }
{
    match first {
        None => Ok(None),
        Some(first) => Ok(Some(Value::cons(alloc, first, after)?)),
    }
}

// The list of terms, if they exist, in front of the elements of another.
#[inline(always)]
fn all_in_front<'t>(
    alloc: Global,
    front: Option<Vec<Value<'t>>>,
    after: &Value<'t>,
) -> Result<Option<Value<'t>>, NoMemory>
    requires { IfSome front (λ us. length us.items + length (children after.now) < 2 ^ 64) }
    ensures { IfOk result (λ value. value ≡ option_map (λ us. list_term (us.items ++ children after.now)) front.entry) }
{
    match front {
        None => Ok(None),
        Some(front) => Ok(Some(Value::join(alloc, front, after)?)),
    }
}

// A term with others as annotations, if they exist.
#[inline(always)]
fn annotated<'t>(
    alloc: Global,
    value: &Value<'t>,
    annotations: Option<Vec<Value<'t>>>,
) -> Result<Option<Value<'t>>, NoMemory>
    ensures { IfOk result (λ with. with ≡ option_map (λ us. with_annotations value.now us.items) annotations.entry) }
{
    match annotations {
        None => Ok(None),
        Some(annotations) => Ok(Some(value.with_annotations(alloc, annotations)?)),
    }
}

// The root of a node with this head.
fn kind_of<'t>(head: &'t Head) -> Kind<'t>
    ensures { (us : List Tree) → made_of result us [] ≡ branch (head_of head.now) (of_list us) none }
{
    match head {
        Head::Application(name) => Kind::Application(name),
        Head::List => Kind::List,
        Head::Tuple => Kind::Tuple,
    }
}
