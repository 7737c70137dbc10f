//! Names: words and quoted names.

ghost use Rattle.std.specs.Prelude.{◌≡◌, ◌↔◌, ◌≤◌, ◌⊎◌, IsTrue, IfOk, IfSome, Ok, Some, None, true, false, length};
ghost use Rattle.std.specs.List.{list_all, prefix_len};
ghost use Rattle.std.specs.Str.{bytes_eq};
ghost use Rattle.term_core.specs.Word.{begins_word, continues_word, is_word, first_word};
ghost use Rattle.term_core.specs.inside.NameView.{spelling_of, stands_in_quotes, IsText};

use crate::NoMemory;
use std::alloc::Global;
use std::hash::{Hash, Hasher};
use std::marker::Model;
use std::rc::Rc;

/// The greatest length in bytes of a name that is stored in the value itself.
pub const SHORT: usize = 13;

/// A name: a list of bytes that is a word or is quoted. The word `f` and the quoted name `"f"` are
/// different names.
pub struct Name {
    text: Text,
}

// Whether the bytes are a word or stand in quotes.
#[derive(Clone, Copy)]
enum NameKind {
    Word,
    Quoted,
}

// Short names are stored in the value itself, without an allocation; long ones are shared.
#[derive(Drop)]
enum Text {
    Short {
        kind: NameKind,
        length: u8,
        bytes: [u8; SHORT],
    },
    Long {
        kind: NameKind,
        bytes: Rc<Vec<u8>>,
    },
}

impl Model for Name {
    ghost use Rattle.term_core.specs.Tree.{Symbol};
    ghost use Rattle.term_core.specs.inside.TreeCode.{symbol_code};

    ghost Value = { Symbol };

    ghost coded = { symbol_code };

    ghost use Rattle.term_core.specs.inside.NameView.{name_of, IsName};

    ghost view = { name_of };

    ghost invariant = { IsName };
}

// By hand: a derived drop is proved anew in each crate that drops it.
impl Drop for Name {
    #[inline(always)]
    fn drop(self) {
        let Name { text: _ } = self;
    }
}

impl PartialEq for Name {
    ghost use Rattle.std.proofs.Common.{rules};
    ghost use Rattle.std.specs.Cmp.Rules.{comparing};
    ghost use Rattle.term_core.specs.Tree.{same_name};

    ghost eq = { same_name };

    ghost laws = { Prim.search (comparing, rules) };

    #[inline(always)]
    fn eq(&self, other: &Name) -> bool {
        self.is_quoted() == other.is_quoted() && same_bytes(self.bytes(), other.bytes())
    }
}

impl Eq for Name {
    ghost use Rattle.std.proofs.Common.{rules};
    ghost use Rattle.std.specs.Cmp.Rules.{comparing};

    ghost laws = { Prim.search (comparing, rules) };
}

impl Hash for Name {
    ghost use Rattle.std.proofs.Common.{rules};
    ghost use Rattle.std.specs.Hash as fed;
    ghost use Rattle.std.specs.Cmp.Rules.{hashing};

    ghost hash_input = { λ n. fed.slice fed.u8 n.text };

    ghost respects_eq = { Prim.search (hashing, rules) };

    fn hash<H: Hasher>(&self, state: &mut H) {
        self.bytes().hash(state);
    }
}

// Whether these are the same bytes. Most names that aren't equal differ in length or in the first
// byte, which is seen without a call.
#[inline(always)]
fn same_bytes(left: &[u8], right: &[u8]) -> bool
    ensures { result ≡ bytes_eq left.now right.now }
{
    if left.len() != right.len() {
        return false;
    }
    if !left.is_empty() && left[0] != right[0] {
        return false;
    }
    left == right
}

/// Whether a word may begin with this byte: an ASCII letter or `_`.
pub fn begins_word(b: u8) -> bool
    ensures { result ≡ begins_word b }
{
    b.is_ascii_alphabetic() || b == b'_'
}

/// Whether a word may continue with this byte: a letter, a digit or one of `_ - + * $ . '`.
pub fn continues_word(b: u8) -> bool
    ensures { result ≡ continues_word b }
{
    b.is_ascii_alphanumeric() || matches!(b, b'_' | b'-' | b'+' | b'*' | b'$' | b'.' | b'\'')
}

fn all_continue_word(rest: &[u8]) -> bool
    ensures { result ≡ list_all continues_word rest.now }
{
    rest.iter().all(|b| continues_word(*b))
}

/// Whether these bytes are a word: a byte that may begin one, followed by bytes that may continue
/// it. `a-b` and `_` are words, for example, `1a` and the empty text aren't.
pub fn is_word(text: &[u8]) -> bool
    ensures { result ≡ is_word text.now }
{
    let Some((first, rest)) = text.split_first() else {
        return false;
    };
    begins_word(*first) && all_continue_word(rest)
}

// The number of leading bytes that may continue a word.
fn word_length(rest: &[u8]) -> usize
    ensures value { result ≡ prefix_len continues_word rest.now }
    ensures bound { result ≤ length rest.now }
{
    rest.iter().take_while(|b| continues_word(**b)).count()
}

impl Text {
    // A copy of these bytes.
    fn new(alloc: Global, kind: NameKind, text: &[u8]) -> Result<Text, NoMemory>
        ensures value { IfOk result (λ made. spelling_of made
            ≡ record { text = text.now; is_quoted = stands_in_quotes kind }) }
        ensures short { IfOk result (λ made. IsText made) }
    {
        if text.len() <= SHORT {
            return Ok(Text::short(kind, text));
        }
        let bytes = Vec::from_slice(alloc, text)?;
        let bytes = Rc::new(alloc, bytes)?;
        Ok(Text::Long { kind, bytes })
    }

    fn short(kind: NameKind, text: &[u8]) -> Text
        requires { length text.now ≤ SHORT }
        ensures value { spelling_of result ≡ record { text = text.now; is_quoted = stands_in_quotes kind } }
        ensures short { IsText result }
    {
        let mut bytes = [0; SHORT];
        bytes[..text.len()].copy_from_slice(text);
        Text::Short {
            kind,
            length: text.len() as u8,
            bytes,
        }
    }
}

impl Name {
    /// The word with these bytes, or `None` if they are no word.
    pub fn word(alloc: Global, text: &[u8]) -> Result<Option<Name>, NoMemory>
        ensures no_word { (result ≡ Ok None) ↔ (is_word text.now ≡ false) }
        ensures name { IfOk result (λ found. IfSome found (λ name. name
            ≡ record { text = text.now; is_quoted = false })) }
    {
        if !is_word(text) {
            return Ok(None);
        }
        let text = Text::new(alloc, NameKind::Word, text)?;
        Ok(Some(Name { text }))
    }

    /// The word with these bytes, which are known to be one.
    pub(crate) fn of_word(alloc: Global, text: &[u8]) -> Result<Name, NoMemory>
        requires { is_word text.now ≡ true }
        ensures { IfOk result (λ name. name ≡ record { text = text.now; is_quoted = false }) }
    {
        let text = Text::new(alloc, NameKind::Word, text)?;
        Ok(Name { text })
    }

    /// The longest word that the text begins with, and the rest; `None` if the text begins with no
    /// word. For example, `f-x` and `(1)` of `f-x(1)`.
    pub fn first_word(alloc: Global, text: &[u8]) -> Result<Option<(Name, &[u8])>, NoMemory>
        ensures no_word { (result ≡ Ok None) ↔ (first_word text.now ≡ None) }
        ensures word { IfOk result (λ found. IfSome found (λ found.
            first_word text.now ≡ Some (found.0.text, found.1.now))) }
        ensures unquoted { IfOk result (λ found. IfSome found (λ found.
            found.0.is_quoted ≡ false)) }
    {
        let Some((first, rest)) = text.split_first() else {
            return Ok(None);
        };
        if !begins_word(*first) {
            return Ok(None);
        }
        let (front, rest) = text.split_at(1 + word_length(rest));
        let text = Text::new(alloc, NameKind::Word, front)?;
        Ok(Some((Name { text }, rest)))
    }

    /// The quoted name with these bytes, which are arbitrary, without quotes and escapes.
    pub fn quoted(alloc: Global, text: &[u8]) -> Result<Name, NoMemory>
        ensures { IfOk result (λ name. name ≡ record { text = text.now; is_quoted = true }) }
    {
        let text = Text::new(alloc, NameKind::Quoted, text)?;
        Ok(Name { text })
    }

    /// The bytes of the name, without quotes and escapes.
    pub fn bytes(&self) -> &[u8]
        ensures value { result.now ≡ self.now.text }
        ensures word { IsTrue self.now.is_quoted ⊎ IsTrue (is_word result.now) }
    {
        match &self.text {
            Text::Short { length, bytes, .. } => &bytes[..usize::from(*length)],
            Text::Long { bytes, .. } => bytes.as_slice(),
        }
    }

    pub fn is_quoted(&self) -> bool
        ensures { result ≡ self.now.is_quoted }
    {
        let kind = match &self.text {
            Text::Short { kind, .. } | Text::Long { kind, .. } => *kind,
        };
        matches!(kind, NameKind::Quoted)
    }

    /// Whether the two names have the same bytes and both are words or both are quoted. So the word
    /// `f` and the quoted name `"f"` aren't equal.
    #[inline(always)]
    pub fn equals(&self, other: &Name) -> bool
        ensures { IsTrue result ↔ (self.now ≡ other.now) }
    {
        self == other
    }

    /// An equal name. It takes no memory: a short name is copied in place, and a long one shared.
    #[inline(always)]
    pub fn try_clone(&self) -> Result<Name, NoMemory>
        ensures { IfOk result (λ name. name ≡ self.now) }
    {
        let text = match &self.text {
            Text::Short {
                kind,
                length,
                bytes,
            } => Text::Short {
                kind: *kind,
                length: *length,
                bytes: *bytes,
            },
            Text::Long { kind, bytes } => Text::Long {
                kind: *kind,
                bytes: bytes.clone()?,
            },
        };
        Ok(Name { text })
    }
}
