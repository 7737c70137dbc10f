//! Signatures: what modules declare, ready to look at terms.

ghost use Rattle.std.specs.Prelude.{◌≡◌, ◌↔◌, ◌<◌, IsTrue, IfOk, IfSome, IfNone, length};
ghost use Rattle.std.specs.Bool.{OnFalse};
ghost use Rattle.std.specs.List.{Contains};
ghost use Rattle.term_sorts.specs.Sorts.{Declaration, AreAgreed};
ghost use Rattle.term_sorts.specs.Signatures.{nothing_declared, and_constructor, and_injection};
ghost use Rattle.term_sorts.specs.inside.Forms.{declarations_in, bucket_of, IsOf, IsForm, HasOther, AreSame};

use crate::numbers::at;
use crate::table::SortTable;
use crate::words::{INT, STR, named};
use crate::{Declaration, Injection, Sort};
use std::alloc::Global;
use std::marker::Model;
use term_core::{Name, NoMemory};

/// The number of buckets.
pub(crate) const BUCKETS: usize = 256;

/// A constructor, and the numbers of its sorts.
#[derive(Drop)]
pub(crate) struct Form {
    pub(crate) declaration: Declaration,
    pub(crate) arguments: Vec<usize>,
    pub(crate) given: usize,
}

/// Declarations that agree: each place in a term wants one sort.
#[derive(Drop)]
pub struct Signature {
    pub(crate) table: SortTable,
    pub(crate) forms: Vec<Form>,
    // the numbers of the forms, by a remainder of their names
    pub(crate) buckets: Vec<Vec<usize>>,
    pub(crate) integers: usize,
    pub(crate) strings: usize,
}

impl Model for Signature {
    ghost use Rattle.term_sorts.specs.Signatures.{Signature};
    ghost use Rattle.term_sorts.specs.inside.SignatureCode.{signature_code};

    ghost Value = { Signature };

    ghost coded = { signature_code };

    ghost use Rattle.term_sorts.specs.inside.Forms.{declarations_in};
    ghost use Rattle.term_sorts.specs.inside.SignatureView.{IsSignature};

    ghost view = { λ s. record {
      declared = record { constructors = declarations_in s.forms.items; injections = s.table.injections };
      sorts = s.table.sorts;
    } };

    ghost invariant = { IsSignature };
}

impl Signature {
    /// The signature without declarations.
    pub fn new(alloc: Global) -> Result<Signature, NoMemory>
        ensures { IfOk result (λ made. made.declared ≡ nothing_declared) }
    {
        let mut table = SortTable::new(alloc);
        let integers = table.number_of(&Sort::new(alloc, named(alloc, INT)?, Vec::new(alloc))?)?;
        let strings = table.number_of(&Sort::new(alloc, named(alloc, STR)?, Vec::new(alloc))?)?;
        Ok(Signature {
            table,
            forms: Vec::new(alloc),
            buckets: empty_buckets(alloc)?,
            integers,
            strings,
        })
    }

    /// The signature with one more declaration. None if the constructor has another one.
    pub fn with_constructor(self, declaration: &Declaration) -> Result<Option<Signature>, NoMemory>
        ensures some { IfOk result (λ made. IfSome made (λ signature.
            signature.declared ≡ and_constructor self.declared declaration.now)) }
        ensures none { IfOk result (λ made. IfNone made
            (¬ AreAgreed (and_constructor self.declared declaration.now))) }
    {
        let Signature {
            mut table,
            mut forms,
            mut buckets,
            integers,
            strings,
        } = self;
        if has_other(&forms, declaration) {
            return Ok(None);
        }
        let form = Form {
            arguments: table.numbers_of(declaration.arguments())?,
            given: table.number_of(declaration.given())?,
            declaration: declaration.try_clone()?,
        };
        let bucket = bucket_of(declaration.name(), declaration.arguments().len());
        buckets[bucket].push(forms.len())?;
        forms.push(form)?;
        Ok(Some(Signature {
            table,
            forms,
            buckets,
            integers,
            strings,
        }))
    }

    /// The signature with one more injection. None if a sort would then take two sorts of lists, or two
    /// of tuples of as many terms.
    pub fn with_injection(
        self,
        alloc: Global,
        injection: &Injection,
    ) -> Result<Option<Signature>, NoMemory>
        ensures some { IfOk result (λ made. IfSome made (λ signature.
            signature.declared ≡ and_injection self.declared injection.now)) }
        ensures none { IfOk result (λ made. IfNone made
            (¬ AreAgreed (and_injection self.declared injection.now))) }
    {
        let Signature {
            table,
            forms,
            buckets,
            integers,
            strings,
        } = self;
        let Some(table) = table.with_injection(alloc, injection)? else {
            return Ok(None);
        };
        Ok(Some(Signature {
            table,
            forms,
            buckets,
            integers,
            strings,
        }))
    }

    /// The declarations agree. It does nothing.
    pub fn declarations_agree(&self)
        ensures { AreAgreed self.now.declared }
    {
        let _ = &self.forms;
    }

    /// The declaration of a constructor with this name and so many arguments.
    pub(crate) fn form(&self, name: &Name, count: usize) -> Option<&Form>
        ensures form { IfSome result (λ form. IsForm self.now.sorts form.now) }
        ensures declared { IfSome result (λ form. Contains self.now.declared.constructors form.now.declaration) }
        ensures head { IfSome result (λ form. IsOf form.now.declaration name.now count) }
        ensures none { IfNone result ((d : Declaration) → Contains self.now.declared.constructors d → IsOf d name.now count → ⊥) }
        ensures agreed { AreAgreed self.now.declared }
    {
        let numbers = at(&self.buckets, bucket_of(name, count))?;
        for number in numbers {
            if let Some(form) = at(&self.forms, *number)
                && form.is_of(name, count)
            {
                return Some(form);
            }
        }
        None
    }
}

impl Form {
    // Whether it is of a constructor with this name and so many arguments.
    fn is_of(&self, name: &Name, count: usize) -> bool
        ensures { IsTrue result ↔ IsOf self.now.declaration name.now count }
    {
        self.declaration.arguments().len() == count && self.declaration.name().equals(name)
    }
}

// Whether the constructor of the declaration has another one.
fn has_other(forms: &[Form], declaration: &Declaration) -> bool
    ensures other { IsTrue result → HasOther (declarations_in forms.now) declaration.now }
    ensures none { OnFalse result (AreSame (declarations_in forms.now) declaration.now) }
{
    let count = declaration.arguments().len();
    for form in forms {
        if form.is_of(declaration.name(), count) && !form.declaration.equals(declaration) {
            return true;
        }
    }
    false
}

fn empty_buckets(alloc: Global) -> Result<Vec<Vec<usize>>, NoMemory>
    ensures { IfOk result (λ made. length made.items ≡ 256) }
{
    let mut made = Vec::with_capacity(alloc, BUCKETS)?;
    for _i in 0..BUCKETS {
        made.push(Vec::new(alloc))?;
    }
    Ok(made)
}

// The bucket of the constructors with this name and so many arguments.
fn bucket_of(name: &Name, count: usize) -> usize
    ensures value { result ≡ bucket_of name.now count }
    ensures bound { result < 256 }
{
    let bytes = name.bytes();
    let first = bytes.first().copied().map_or(0, usize::from);
    let last = bytes.last().copied().map_or(0, usize::from);
    (first * 31 + last * 7 + bytes.len() % 64 * 3 + count % 64) % BUCKETS
}
