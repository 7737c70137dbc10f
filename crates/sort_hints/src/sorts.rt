//! The sorts that signatures name, and which of them take the terms of which others.

use std::alloc::Global;
use term_core::{Name, NoMemory};

/// A sort, by its number in a table.
#[derive(Clone, Copy, PartialEq, Eq)]
pub struct Sort {
    number: usize,
}

// A sort's name and arguments, and the sorts that are injected into it by one declaration.
#[derive(Drop)]
struct SortForm {
    name: Name,
    arguments: Vec<Sort>,
    injected: Vec<Sort>,
    // Whether a constructor is declared that gives one.
    is_built: bool,
    // When the declarations were closed last: the sort, and those that injections lead from to it.
    taken: Vec<Sort>,
    // Whether there is no term of one of those.
    is_open: bool,
    first: Option<Mention>,
}

// Where a sort is named: in the module of this number, by the token of this number.
#[derive(Clone, Copy)]
struct Mention {
    module: usize,
    token: usize,
}

/// A sort without terms, and the number of the token that names it first.
#[derive(Clone, Copy)]
pub struct EmptySort {
    pub sort: Sort,
    pub token: usize,
}

/// The sorts of some signatures. `int`, `str` and `list` are always among them.
#[derive(Drop)]
pub struct Sorts {
    forms: Vec<SortForm>,
}

/// What a sort says of the parts of a list or a tuple.
#[derive(Clone, Copy)]
pub enum Parts<'a> {
    /// It has none.
    Refused,
    /// It may have some, of any sorts.
    Any,
    /// They are of these sorts; the elements of a list all of the first one.
    Of(&'a [Sort]),
}

impl Sorts {
    /// `int`, `str` and `list` alone.
    ///
    /// Errors: `NoMemory` if memory can't grow.
    pub fn new(alloc: Global) -> Result<Sorts, NoMemory> {
        let mut sorts = Sorts {
            forms: Vec::new(alloc),
        };
        let _integers = sorts.numbered(b"int", Vec::new(alloc))?;
        let _strings = sorts.numbered(b"str", Vec::new(alloc))?;
        let _lists = sorts.numbered(b"list", Vec::new(alloc))?;
        Ok(sorts)
    }

    /// The sort `int`.
    pub fn integers(&self) -> Sort {
        Sort { number: 0 }
    }

    /// The sort `str`.
    pub fn strings(&self) -> Sort {
        Sort { number: 1 }
    }

    /// The sort `list`, of lists with any elements.
    pub fn lists(&self) -> Sort {
        Sort { number: 2 }
    }

    /// How many there are.
    pub fn len(&self) -> usize {
        self.forms.len()
    }

    /// The name of a sort.
    pub fn name(&self, sort: Sort) -> &[u8] {
        match self.forms.get(sort.number) {
            Some(form) => form.name.bytes(),
            None => &[],
        }
    }

    /// The arguments of a sort.
    pub fn arguments(&self, sort: Sort) -> &[Sort] {
        match self.forms.get(sort.number) {
            Some(form) => &form.arguments,
            None => &[],
        }
    }

    /// The sort of this name with these arguments. It is added if there is none.
    ///
    /// Errors: `NoMemory` if memory can't grow.
    pub fn numbered(&mut self, name: &[u8], arguments: Vec<Sort>) -> Result<Sort, NoMemory> {
        let alloc = *self.forms.allocator();
        let name = plain_name(name);
        for (number, form) in self.forms.iter().enumerate() {
            if form.name.bytes() == name && form.arguments.as_slice() == arguments.as_slice() {
                return Ok(Sort { number });
            }
        }
        let number = self.forms.len();
        self.forms.push(SortForm {
            name: Name::quoted(alloc, name)?,
            arguments,
            injected: Vec::new(alloc),
            is_built: false,
            taken: Vec::new(alloc),
            is_open: false,
            first: None,
        })?;
        Ok(Sort { number })
    }

    /// Notes that the token of this number of the module of this number names a sort.
    pub fn mention(&mut self, sort: Sort, module: usize, token: usize) {
        if let Some(form) = self.forms.get_mut(sort.number)
            && form.first.is_none()
        {
            form.first = Some(Mention { module, token });
        }
    }

    /// Notes that a constructor gives terms of this sort.
    pub fn build(&mut self, sort: Sort) {
        if let Some(form) = self.forms.get_mut(sort.number) {
            form.is_built = true;
        }
    }

    /// Notes that each term of the one sort is of the other, too.
    ///
    /// Errors: `NoMemory` if memory can't grow.
    pub fn inject(&mut self, from: Sort, to: Sort) -> Result<(), NoMemory> {
        match self.forms.get_mut(to.number) {
            Some(form) => Ok(form.injected.push(from)?),
            None => Ok(()),
        }
    }

    /// Finds what each sort takes by the declarations that were noted so far.
    ///
    /// Errors: `NoMemory` if memory can't grow.
    pub fn close(&mut self) -> Result<(), NoMemory> {
        let mut marks = Vec::new(*self.forms.allocator());
        let none = Sort {
            number: self.forms.len(),
        };
        for _ in 0..self.forms.len() {
            marks.push(none)?;
        }
        for number in 0..self.forms.len() {
            let taken = self.reached(Sort { number }, &mut marks)?;
            let is_open = taken.iter().any(|it| self.is_empty(*it));
            if let Some(form) = self.forms.get_mut(number) {
                form.taken = taken;
                form.is_open = is_open;
            }
        }
        Ok(())
    }

    // The sort, and those from which injections lead to it. Each gets a mark with this sort, so that it
    // is met once; cycles do no harm.
    fn reached(&self, sort: Sort, marks: &mut [Sort]) -> Result<Vec<Sort>, NoMemory> {
        let mut reached = Vec::new(*self.forms.allocator());
        if let Some(mark) = marks.get_mut(sort.number) {
            *mark = sort;
        }
        reached.push(sort)?;
        for next in 0..self.forms.len() {
            let Some(last) = reached.get(next) else {
                break;
            };
            let last = *last;
            self.add_injected(last, sort, &mut reached, marks)?;
        }
        Ok(reached)
    }

    // Adds the sorts that are injected into this one by one declaration and that have no mark with the
    // wanted one yet.
    fn add_injected(
        &self,
        sort: Sort,
        wanted: Sort,
        reached: &mut Vec<Sort>,
        marks: &mut [Sort],
    ) -> Result<(), NoMemory> {
        let Some(form) = self.forms.get(sort.number) else {
            return Ok(());
        };
        for injected in &form.injected {
            if let Some(mark) = marks.get_mut(injected.number)
                && *mark != wanted
            {
                *mark = wanted;
                reached.push(*injected)?;
            }
        }
        Ok(())
    }

    /// Whether no declaration gives a term of this sort, which isn't one of those with a meaning of
    /// their own.
    pub fn is_empty(&self, sort: Sort) -> bool {
        match self.forms.get(sort.number) {
            Some(form) => {
                !form.is_built && form.injected.is_empty() && !has_meaning(form.name.bytes())
            }
            None => false,
        }
    }

    /// The sorts without terms that the module of this number names first.
    ///
    /// Errors: `NoMemory` if memory can't grow.
    pub fn empty_ones(&self, alloc: Global, module: usize) -> Result<Vec<EmptySort>, NoMemory> {
        let mut found = Vec::new(alloc);
        for (number, form) in self.forms.iter().enumerate() {
            let sort = Sort { number };
            if let Some(first) = form.first
                && first.module == module
                && self.is_empty(sort)
            {
                found.push(EmptySort {
                    sort,
                    token: first.token,
                })?;
            }
        }
        Ok(found)
    }

    /// Whether nothing is known of the terms of this sort: one that it takes has none.
    pub fn is_open(&self, sort: Sort) -> bool {
        match self.forms.get(sort.number) {
            Some(form) => form.is_open,
            None => true,
        }
    }

    /// The sort, and those whose terms it takes by injections.
    pub fn taken(&self, sort: Sort) -> &[Sort] {
        match self.forms.get(sort.number) {
            Some(form) => &form.taken,
            None => &[],
        }
    }

    /// Whether each term of the one sort is of the other.
    pub fn takes(&self, sort: Sort, other: Sort) -> bool {
        self.is_open(sort) || self.taken(sort).iter().any(|it| *it == other)
    }

    /// What a sort says of the elements of a list.
    pub fn elements(&self, sort: Sort) -> Parts<'_> {
        if self.is_open(sort) {
            return Parts::Any;
        }
        let mut found = Parts::Refused;
        for taken in self.taken(sort) {
            if self.name(*taken) == b"list".as_slice() {
                let arguments = self.arguments(*taken);
                found = match found {
                    Parts::Refused if arguments.len() == 1 => Parts::Of(arguments),
                    _ => Parts::Any,
                };
            }
        }
        found
    }

    /// What a sort says of the parts of a tuple of so many.
    pub fn parts(&self, sort: Sort, count: usize) -> Parts<'_> {
        if self.is_open(sort) {
            return Parts::Any;
        }
        let mut found = Parts::Refused;
        for taken in self.taken(sort) {
            let arguments = self.arguments(*taken);
            if self.name(*taken) == b"tuple".as_slice() && arguments.len() == count {
                found = match found {
                    Parts::Refused => Parts::Of(arguments),
                    _ => Parts::Any,
                };
            }
        }
        found
    }

    /// Appends the text of a sort, of deep ones a part.
    ///
    /// Errors: `NoMemory` if memory can't grow.
    pub fn write(&self, sort: Sort, out: &mut Vec<u8>) -> Result<(), NoMemory> {
        self.write_within(sort, out, DEEPEST)
    }

    fn write_within(&self, sort: Sort, out: &mut Vec<u8>, deep: usize) -> Result<(), NoMemory> {
        let Some(deep) = deep.checked_sub(1) else {
            return Ok(out.extend_from_slice(b"..")?);
        };
        out.extend_from_slice(self.name(sort))?;
        let arguments = self.arguments(sort);
        for (number, argument) in arguments.iter().enumerate() {
            out.push(if number == 0 { b'(' } else { b',' })?;
            self.write_within(*argument, out, deep)?;
        }
        if !arguments.is_empty() {
            out.push(b')')?;
        }
        Ok(())
    }
}

/// The deepest sort whose parts are looked at.
pub const DEEPEST: usize = 20;

// The name by which a sort is known that has two.
fn plain_name(name: &[u8]) -> &[u8] {
    if name == b"string".as_slice() {
        b"str"
    } else if name == b"List".as_slice() {
        b"list"
    } else {
        name
    }
}

fn has_meaning(name: &[u8]) -> bool {
    name == b"int".as_slice()
        || name == b"str".as_slice()
        || name == b"list".as_slice()
        || name == b"tuple".as_slice()
}
