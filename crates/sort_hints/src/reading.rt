//! Reading declarations from the tokens of modules. The parser keeps their sorts, but not where each stands.

use crate::signature::Signature;
use crate::sorts::{DEEPEST, Sort};
use std::alloc::Global;
use strategy_tokens::{
    Keyword, MODULE_TOKENS, Sign, Token, TokensFault, is_mark, is_word, read_module_tokens,
};
use term_core::{Name, NoMemory};

// The most sorts of which anything is said.
const MOST: usize = 2_000;

// The word without which a text declares nothing.
const SECTION: &[u8] = b"constructors";

impl Signature {
    /// Adds what the text of a module of this name declares. The sorts have to be closed after it. Where
    /// the modules have more than 2,000 sorts, or one is written with more than twenty brackets, nothing
    /// is known from then on.
    ///
    /// Errors: `NoMemory` if memory can't grow.
    pub fn read(&mut self, alloc: Global, name: &[u8], text: &[u8]) -> Result<(), NoMemory> {
        let number = self.add_module(name)?;
        if self.is_given_up() {
            return Ok(());
        }
        if !read_text(alloc, self, number, text)? || self.sorts.len() > MOST {
            self.give_up();
        }
        Ok(())
    }
}

// Adds what the text of the module of this number declares. Returns whether all was read.
fn read_text(
    alloc: Global,
    signature: &mut Signature,
    number: usize,
    text: &[u8],
) -> Result<bool, NoMemory> {
    if !has_section(text) {
        return Ok(true);
    }
    let tokens = match read_module_tokens(alloc, text, MODULE_TOKENS) {
        Ok(tokens) => tokens,
        Err(TokensFault::Memory) => return Err(NoMemory),
        Err(TokensFault::Deep) => return Ok(false),
    };
    let mut reader = Reader {
        alloc,
        module: number,
        count: tokens.len(),
        rest: tokens.as_slice(),
    };
    let read = reader.read_sections(signature);
    drop(tokens);
    read
}

// Whether the bytes of the word are somewhere in the text.
fn has_section(text: &[u8]) -> bool {
    for start in 0..text.len() {
        match text.get(start..) {
            Some(rest) if rest.starts_with(SECTION) => return true,
            _ => {}
        }
    }
    false
}

// The tokens that are yet to be read, those of the module of this number, which has so many.
#[derive(Clone, Copy)]
struct Reader<'t> {
    alloc: Global,
    module: usize,
    count: usize,
    rest: &'t [Token],
}

impl Reader<'_> {
    // Reads on to each list of constructors, and those. Returns whether all was read.
    fn read_sections(&mut self, signature: &mut Signature) -> Result<bool, NoMemory> {
        for _ in 0..self.count {
            let Some((first, rest)) = self.rest.split_first() else {
                return Ok(true);
            };
            self.rest = rest;
            if is_word(first, Keyword::Constructors) && !self.read_constructors(signature)? {
                return Ok(false);
            }
        }
        Ok(true)
    }

    fn read_constructors(&mut self, signature: &mut Signature) -> Result<bool, NoMemory> {
        for _ in 0..self.count {
            let is_read = match self.rest {
                [Token::Ident(name), rest @ ..] => {
                    self.rest = rest;
                    self.read_declaration(Some(name), signature)?
                }
                [Token::Sign(Sign::Colon), ..] => self.read_declaration(None, signature)?,
                _ => return Ok(true),
            };
            if !is_read {
                return Ok(false);
            }
        }
        Ok(true)
    }

    // Reads a declaration after the name of its constructor; an injection has none.
    fn read_declaration(
        &mut self,
        name: Option<&Name>,
        signature: &mut Signature,
    ) -> Result<bool, NoMemory> {
        if !self.skips(Sign::Colon) {
            return Ok(false);
        }
        let mut arguments = Vec::new(self.alloc);
        for _ in 0..self.count {
            let Some(sort) = self.read_sort(signature, DEEPEST)? else {
                return Ok(false);
            };
            arguments.push(sort)?;
            if !self.skips(Sign::Star) {
                break;
            }
        }
        let result = if self.skips(Sign::Arrow) {
            self.read_sort(signature, DEEPEST)?
        } else {
            arguments.pop()
        };
        match (name, result) {
            (_, None) => return Ok(false),
            (Some(name), Some(result)) => signature.declare(name, arguments, result)?,
            (None, Some(result)) => inject(signature, arguments, result)?,
        }
        Ok(true)
    }

    // The sort that comes next; `None` if it is too deep.
    fn read_sort(
        &mut self,
        signature: &mut Signature,
        deep: usize,
    ) -> Result<Option<Sort>, NoMemory> {
        let (Some(deep), [Token::Ident(name), rest @ ..]) = (deep.checked_sub(1), self.rest) else {
            return Ok(None);
        };
        let token = self.count.saturating_sub(self.rest.len());
        self.rest = rest;
        let mut arguments = Vec::new(self.alloc);
        if self.skips(Sign::OpenRound) {
            for _ in 0..self.count {
                let Some(argument) = self.read_sort(signature, deep)? else {
                    return Ok(None);
                };
                arguments.push(argument)?;
                if !self.skips(Sign::Comma) {
                    break;
                }
            }
            if !self.skips(Sign::CloseRound) {
                return Ok(None);
            }
        }
        let sort = signature.sorts.numbered(name.bytes(), arguments)?;
        signature.sorts.mention(sort, self.module, token);
        Ok(Some(sort))
    }

    // Skips the next token if it is this sign. Returns whether it is.
    fn skips(&mut self, sign: Sign) -> bool {
        if let Some((first, rest)) = self.rest.split_first()
            && is_mark(first, sign)
        {
            self.rest = rest;
            return true;
        }
        false
    }
}

// Several arguments are injected as the tuple of them.
fn inject(signature: &mut Signature, arguments: Vec<Sort>, to: Sort) -> Result<(), NoMemory> {
    let sorts = &mut signature.sorts;
    let from = match arguments.as_slice() {
        [only] => *only,
        _ => sorts.numbered(b"tuple", arguments)?,
    };
    sorts.inject(from, to)
}
