//! Terms: integers, applications of names, lists and tuples, each with annotations.
#![tactic(auto, using(crate::proofs::TermLemmas::term_parts))]

ghost use Rattle.std.specs.Prelude.{◌≡◌, ◌+◌, ◌≤◌, ◌<◌, ◌↔◌, ℕ, min, length, IsTrue, IfOk, IfSome, IfNone, None, Some, [], slice_get, ◌^◌, ◌-◌};
ghost use Rattle.std.specs.Option.{option_copied, option_copied_mut};
ghost use Rattle.std.specs.Bool.{OnTrue, OnFalse};
ghost use Rattle.std.specs.Borrow.{sem};
ghost use Rattle.term_core.specs.Tree.{Tree, of_list, integer_term, application_term, list_term, tuple_term, children, annotations, with_annotations, with_children, with_child};
ghost use Rattle.term_core.specs.Kind.{made_of};
ghost use Rattle.term_core.specs.Size.{height, heights, size, sizes, fits, height as height_of, size as size_of};
ghost use Rattle.term_core.specs.Lending.{LendsChildren};

use crate::{Kind, MAX_HEIGHT, Name, NoMemory};
use std::alloc::Global;
use std::marker::Model;
use std::mem;

/// A term: an integer, an application of a name, a list or a tuple, with a list of annotations.
#[cycle(term)]
pub struct Term {
    node: Node,
    children: Vec<Term>,
    annotations: Vec<Term>,
}

#[derive(Drop)]
enum Node {
    Integer(i64),
    Application(Name),
    List,
    Tuple,
}

impl Model for Term {
    ghost use Rattle.term_core.specs.Tree.{Tree};
    ghost use Rattle.term_core.specs.inside.TreeCode.{tree_code};

    ghost Value = { Tree };

    ghost coded = { tree_code };

    ghost use Rattle.term_core.specs.inside.TermView.{view_of, HasShape, above_parts_le-height};
    ghost use Rattle.term_core.specs.Size.{height};

    ghost view = { view_of };

    ghost invariant = { HasShape };

    ghost size = { height };

    ghost size_decreases = { λ a h. above_parts_le-height a.node a.children.items a.annotations.items h };
}

// By hand: a derived drop is proved anew in each crate that drops it.
impl Drop for Term {
    #[cycle(term)]
    #[inline(always)]
    fn drop(self) {
        let Term {
            node: _,
            children: _,
            annotations: _,
        } = self;
    }
}

impl Term {
    /// An integer.
    pub fn integer(alloc: Global, value: i64) -> Term
        ensures { result ≡ integer_term value }
    {
        Term {
            node: Node::Integer(value),
            children: Vec::new(alloc),
            annotations: Vec::new(alloc),
        }
    }

    /// A name applied to arguments. `c` and `c()` are the same term.
    pub fn application(alloc: Global, name: Name, arguments: Vec<Term>) -> Term
        ensures { result ≡ application_term name arguments.items }
    {
        Term {
            node: Node::Application(name),
            children: arguments,
            annotations: Vec::new(alloc),
        }
    }

    /// A list of terms.
    pub fn list(alloc: Global, elements: Vec<Term>) -> Term
        ensures { result ≡ list_term elements.items }
    {
        Term {
            node: Node::List,
            children: elements,
            annotations: Vec::new(alloc),
        }
    }

    /// A tuple of terms: `()` is the empty one, and `(t)` a tuple of one.
    pub fn tuple(alloc: Global, elements: Vec<Term>) -> Term
        ensures { result ≡ tuple_term elements.items }
    {
        Term {
            node: Node::Tuple,
            children: elements,
            annotations: Vec::new(alloc),
        }
    }

    /// The term with these annotations in place of its own.
    pub fn with_annotations(mut self, new: Vec<Term>) -> Term
        ensures { result ≡ with_annotations self new.items }
    {
        self.annotations = new;
        self
    }

    /// What the term is, apart from its children and annotations.
    pub fn kind(&self) -> Kind<'_>
        ensures { self.now ≡ made_of result (children self.now) (annotations self.now) }
    {
        match &self.node {
            Node::Integer(value) => Kind::Integer(*value),
            Node::Application(name) => Kind::Application(name),
            Node::List => Kind::List,
            Node::Tuple => Kind::Tuple,
        }
    }

    /// The arguments of an application, or the elements of a list or a tuple. An integer has none.
    pub fn children(&self) -> &[Term]
        ensures { result.now ≡ children self.now }
    {
        self.children.as_slice()
    }

    /// The number of children.
    pub fn child_count(&self) -> usize
        ensures { result ≡ length (children self.now) }
    {
        self.children.len()
    }

    /// Child `i`, counted from 0, or `None` if there is none.
    pub fn child(&self, i: usize) -> Option<&Term>
        ensures { option_copied result ≡ slice_get (children self.now) i }
    {
        if i < self.child_count() {
            Some(&self.children[i])
        } else {
            None
        }
    }

    pub fn annotations(&self) -> &[Term]
        ensures { result.now ≡ annotations self.now }
    {
        self.annotations.as_slice()
    }

    /// Swaps the annotations with those in the vector. With 1 in the vector `f(a){b}` becomes
    /// `f(a){1}`, and the vector has `b`.
    pub fn swap_annotations(&mut self, other: &mut Vec<Term>)
        ensures term { self.new ≡ with_annotations self.old other.old.items }
        ensures old { other.new.items ≡ annotations self.old }
    {
        mem::swap(&mut self.annotations, other);
    }

    /// Replaces the children; kind and annotations stay. An integer takes none.
    pub fn set_children(&mut self, new: Vec<Term>)
        ensures { self.new ≡ with_children self.old new.items }
    {
        if !matches!(self.node, Node::Integer(_)) {
            self.children = new;
        }
    }

    /// Child `i` for writing, or `None` if there is none. The contracts of `children_mut` and
    /// `swap_child` say more about the term afterwards.
    pub fn child_mut(&mut self, i: usize) -> Option<&mut Term>
        ensures { option_copied_mut result ≡ slice_get (children self.old) i }
    {
        self.children.get_mut(i)
    }

    /// The children for writing. The term ends up with what is left in the slice.
    pub fn children_mut(&mut self) -> &mut [Term]
        ensures value { result.now ≡ children self.old }
        ensures* writes_back { sem 𝓛 (LendsChildren self.entry result) }
    {
        self.children.as_mut_slice()
    }

    /// Swaps child `i`, counted from 0, with the other term. Returns `false`, and changes nothing,
    /// if there is no such child. With child 1 and the term `c`, `f(a,b)` becomes `f(a,c)`, and the
    /// other term `b`.
    pub fn swap_child(&mut self, i: usize, other: &mut Term) -> bool
        ensures there { IsTrue result ↔ (i < length (children self.old)) }
        ensures term { OnTrue result (self.new ≡ with_child self.old i other.old) }
        ensures old { OnTrue result (slice_get (children self.old) i ≡ Some other.new) }
        ensures outside { OnFalse result ((self.new ≡ self.old) × (other.new ≡ other.old)) }
    {
        if i >= self.child_count() {
            return false;
        }
        mem::swap(&mut self.children_mut()[i], other);
        true
    }

    /// Whether the two terms are equal, annotations included: `a{1}` and `a` aren't.
    #[cycle(equals)]
    pub fn equals(&self, other: &Term) -> bool
        ensures { IsTrue result ↔ (self.now ≡ other.now) }
    {
        if !self.node.equals(&other.node) {
            return false;
        }
        if !all_equal(&self.children, &other.children) {
            return false;
        }
        all_equal(&self.annotations, &other.annotations)
    }

    /// The height: 1 without children and annotations, else 1 more than the greatest height among
    /// them; at most the greatest `u64`. That of `f(a,g(b))` is 3, that of `a{f(b)}` too.
    #[cycle(height)]
    pub fn height(&self) -> u64
        ensures { result ≡ min (height self.now) (2 ^ 64 - 1) }
    {
        let children = greatest_height(&self.children);
        let annotations = greatest_height(&self.annotations);
        children.max(annotations).saturating_add(1)
    }

    // Whether there are no children and no annotations.
    #[inline(always)]
    fn is_leaf(&self) -> bool
        ensures children { IsTrue result → children self.now ≡ [] }
        ensures annotations { IsTrue result → annotations self.now ≡ [] }
        ensures height { IsTrue result → height_of self.now ≡ 1 }
    {
        self.children.is_empty() && self.annotations.is_empty()
    }

    /// The size: 1 more than the sum of the sizes of children and annotations; at most the greatest
    /// `u64`. That of `f(a,g(b))` is 4, that of `a{f(b)}` 3.
    #[cycle(size)]
    pub fn size(&self) -> u64
        ensures { result ≡ min (size self.now) (2 ^ 64 - 1) }
    {
        let children = total_size(&self.children);
        let annotations = total_size(&self.annotations);
        children.saturating_add(annotations).saturating_add(1)
    }

    /// Whether the term fits below `level` other terms: `level` plus its height is at most 1,000,
    /// and its size is at most `room`. It visits at most `room` terms. For example, `f(a)` fits
    /// at level 998 where there is room for 2 terms, and not at 999.
    pub fn fits(&self, level: u64, room: u32) -> bool
        ensures { result ≡ fits room level self.now }
    {
        match MAX_HEIGHT.checked_sub(level) {
            None => false,
            Some(height) => self.room_left(height, u64::from(room)).is_some(),
        }
    }

    // `size` less that of this term, or `None` if the term is higher than `height` or larger than
    // `size`.
    #[cycle(room_left)]
    fn room_left(&self, height: u64, size: u64) -> Option<u64>
        ensures some { IfSome result (λ left. (height_of self.now ≤ height)
            × (left + size_of self.now ≡ size)) }
        ensures none { IfNone result (¬ ((height_of self.now ≤ height)
            × (size_of self.now ≤ size))) }
    {
        if height == 0 || size == 0 {
            return None;
        }
        let Some(size) = room_left_by_all(&self.children, height - 1, size - 1) else {
            return None;
        };
        room_left_by_all(&self.annotations, height - 1, size)
    }

    /// An equal term.
    #[cycle(try_clone)]
    #[inline(always)]
    pub fn try_clone(&self) -> Result<Term, NoMemory>
        ensures { IfOk result (λ term. term ≡ self.now) }
    {
        if !self.is_leaf() {
            // the result of a call lies in memory: it is moved, so that a leaf needn't
            let copy = self.clone_with_lists()?;
            return Ok(copy);
        }
        let alloc = *self.children.allocator();
        Ok(Term {
            node: self.node.try_clone()?,
            children: Vec::new(alloc),
            annotations: Vec::new(alloc),
        })
    }

    // `try_clone` of a term that has children or annotations.
    #[cycle(try_clone)]
    #[inline(never)]
    fn clone_with_lists(&self) -> Result<Term, NoMemory>
        ensures { IfOk result (λ term. term ≡ self.now) }
    {
        let alloc = *self.children.allocator();
        Ok(Term {
            node: self.node.try_clone()?,
            children: clone_list(alloc, &self.children)?,
            annotations: clone_list(alloc, &self.annotations)?,
        })
    }
}

impl Node {
    fn equals(&self, other: &Node) -> bool
        ensures { IsTrue result ↔ (self.now ≡ other.now) }
    {
        match (self, other) {
            (Node::Integer(a), Node::Integer(b)) => *a == *b,
            (Node::Application(a), Node::Application(b)) => a.equals(b),
            (Node::List, Node::List) => true,
            (Node::Tuple, Node::Tuple) => true,
            _ => false,
        }
    }

    fn try_clone(&self) -> Result<Node, NoMemory>
        ensures { IfOk result (λ node. node ≡ self.now) }
    {
        match self {
            Node::Integer(value) => Ok(Node::Integer(*value)),
            Node::Application(name) => Ok(Node::Application(name.try_clone()?)),
            Node::List => Ok(Node::List),
            Node::Tuple => Ok(Node::Tuple),
        }
    }
}

/// Whether the lists have equal terms in the same order, annotations included.
#[cycle(equals)]
pub fn all_equal(terms: &[Term], others: &[Term]) -> bool
    ensures { IsTrue result ↔ (terms.now ≡ others.now) }
{
    if terms.len() != others.len() {
        return false;
    }
    for (term, other) in terms.iter().zip(others) {
        if !term.equals(other) {
            return false;
        }
    }
    true
}

#[cycle(height)]
fn greatest_height(terms: &[Term]) -> u64
    ensures { result ≡ min (heights (of_list terms.now)) (2 ^ 64 - 1) }
{
    let mut greatest = 0;
    for term in terms {
        if term.is_leaf() {
            greatest = 1u64.max(greatest);
            continue;
        }
        greatest = term.height().max(greatest);
    }
    greatest
}

#[cycle(size)]
fn total_size(terms: &[Term]) -> u64
    ensures { result ≡ min (sizes (of_list terms.now)) (2 ^ 64 - 1) }
{
    let mut total = 0u64;
    for term in terms {
        total = total.saturating_add(term.size());
    }
    total
}

#[cycle(room_left)]
fn room_left_by_all(terms: &[Term], height: u64, mut size: u64) -> Option<u64>
    ensures some { IfSome result (λ left. (heights (of_list terms.now) ≤ height)
        × (left + sizes (of_list terms.now) ≡ size)) }
    ensures none { IfNone result (¬ ((heights (of_list terms.now) ≤ height)
        × (sizes (of_list terms.now) ≤ size))) }
{
    for term in terms {
        let Some(left) = term.room_left(height, size) else {
            return None;
        };
        size = left;
    }
    Some(size)
}

// An empty list costs no call.
#[cycle(try_clone)]
fn clone_list(alloc: Global, terms: &[Term]) -> Result<Vec<Term>, NoMemory>
    ensures { IfOk result (λ all. all.items ≡ terms.now) }
{
    if terms.is_empty() {
        return Ok(Vec::new(alloc));
    }
    clone_all(alloc, terms)
}

#[cycle(try_clone)]
fn clone_all(alloc: Global, terms: &[Term]) -> Result<Vec<Term>, NoMemory>
    ensures { IfOk result (λ all. all.items ≡ terms.now) }
{
    let mut all = Vec::with_capacity(alloc, terms.len())?;
    for term in terms {
        all.reserve(1)?;
        all.push_reserved(term.try_clone()?);
    }
    Ok(all)
}
