//! Definitions that are wrong after the first one of a module.

use crate::explainer::Explainer;
use crate::stuck::{SECTIONS, begins_header};
use diagnostic::{Fill, say};
use hint_text::{has_word, token_of, tokens_of};
use std::alloc::Global;
use strategy_parse::{StuckModule, stuck_module};
use strategy_tokens::{Token, TokenPlace, token_count, token_place};
use term_core::NoMemory;

// The most definitions that are listed, and how many are tried as the wrong one.
const LISTED: usize = 20;

const TRIED: usize = 4;

impl Explainer<'_, '_> {
    /// Says of the definitions after the first wrong one where the text doesn't go on, either. Each is
    /// left out in turn, up to the next line with the same indentation that begins a definition, or
    /// one with no more that begins a section. Where there is none, or what follows may be wrong only for what was
    /// left out, nothing more is said.
    pub fn say_later(&mut self, first: StuckModule) -> Result<(), NoMemory> {
        let mut text = Vec::new(self.alloc);
        text.extend_from_slice(self.parts.text)?;
        let mut stuck = first;
        for _ in 1..LISTED {
            let Some((start, end)) = wrong_item(self.alloc, &text, stuck)? else {
                return Ok(());
            };
            leave_out(&mut text, start, end);
            match stuck_module(self.alloc, &text) {
                Ok(Some(found)) if self.say_also(&text, found)? => stuck = found,
                Ok(_) => return Ok(()),
                Err(_) => return Err(NoMemory),
            }
        }
        Ok(())
    }

    // Says where the text doesn't go on, unless it ends there, or what stands there is no token.
    fn say_also(&mut self, text: &[u8], stuck: StuckModule) -> Result<bool, NoMemory> {
        let tokens = tokens_of(self.alloc, text)?;
        let is_told = !matches!(tokens.get(stuck.token), None | Some(Token::Bad));
        drop(tokens);
        if is_told {
            let (bytes, start) = token_of(text, stuck.token);
            let end = start.saturating_add(bytes.len());
            self.hint.fault();
            say!(self.hint; "no module goes on with {} at {}, either", Fill::Quoted(bytes), self.at(TokenPlace { start, end }));
        }
        Ok(is_told)
    }
}

// The bytes from the definition that is wrong up to the next one, or to the next section.
fn wrong_item(
    alloc: Global,
    text: &[u8],
    stuck: StuckModule,
) -> Result<Option<(usize, usize)>, NoMemory> {
    let tokens = tokens_of(alloc, text)?;
    let start = item_start(alloc, text, &tokens, stuck.item)?;
    let mut found = None;
    if let Some(start) = start
        && let Some(end) = next_item(text, &tokens, start, stuck.token)
    {
        found = Some((start, end));
    }
    drop(tokens);
    Ok(found)
}

// The number of bytes before the definition that has the token of this number: the last one up to it
// that begins its line, and before which the text is a module.
fn item_start(
    alloc: Global,
    text: &[u8],
    tokens: &[Token],
    last: usize,
) -> Result<Option<usize>, NoMemory> {
    let mut tried = 0usize;
    for number in (1..last.saturating_add(1)).rev() {
        if let Some(rest @ [Token::Ident(_), ..]) = tokens.get(number..)
            && begins_header(rest)
            && let Some(place) = token_place(text, number)
            && indent_before(text, place.start).is_some()
            && tried < TRIED
        {
            tried = tried.saturating_add(1);
            match stuck_module(alloc, text.get(..place.start).unwrap_or(text)) {
                Ok(None) => return Ok(Some(place.start)),
                Ok(Some(_)) => {}
                Err(_) => return Err(NoMemory),
            }
        }
    }
    Ok(None)
}

// How many bytes come before the next definition after the token of this number, with the same
// indentation as the one that begins after so many bytes, or before the next section.
fn next_item(text: &[u8], tokens: &[Token], item: usize, number: usize) -> Option<usize> {
    let from = token_place(text, number)?;
    let indent = indent_before(text, item)?;
    let mut start = item;
    for _ in 0..text.len() {
        let line = next_line(text, start)?;
        let rest = text.get(line..)?;
        let blanks = rest.iter().position(|byte| !is_blank(*byte))?;
        start = line.saturating_add(blanks);
        if start >= from.start
            && let Some(number) = token_at(text, start)
            && begins_item(text, tokens, number, blanks, indent)
        {
            return Some(start);
        }
    }
    None
}

// Whether a definition begins with the token of this number, after as many blanks as are before the
// wrong one; or a section, after no more.
fn begins_item(text: &[u8], tokens: &[Token], number: usize, blanks: usize, indent: usize) -> bool {
    match tokens.get(number..) {
        Some([Token::Reserved(_), ..]) => {
            blanks <= indent && has_word(SECTIONS, token_of(text, number).0)
        }
        Some(rest @ [Token::Ident(_), ..]) => blanks == indent && begins_header(rest),
        _ => false,
    }
}

// The number of the token that begins after so many bytes, if one does.
fn token_at(text: &[u8], start: usize) -> Option<usize> {
    let number = token_count(text.get(..start)?) as usize;
    let place = token_place(text, number)?;
    (place.start == start).then_some(number)
}

// The number of blanks before a place, if it is the first one of its line that is none.
fn indent_before(text: &[u8], start: usize) -> Option<usize> {
    let before = text.get(..start)?;
    let line = before.iter().rposition(|byte| *byte == b'\n')?;
    let indent = before.get(line.saturating_add(1)..)?;
    let are_blanks = indent.iter().all(|byte| is_blank(*byte));
    are_blanks.then_some(indent.len())
}

// How many bytes come before the line after this place.
fn next_line(text: &[u8], start: usize) -> Option<usize> {
    let rest = text.get(start..)?;
    let feed = rest.iter().position(|byte| *byte == b'\n')?;
    Some(start.saturating_add(feed).saturating_add(1))
}

fn is_blank(byte: u8) -> bool {
    byte == b' ' || byte == b'\t'
}

// Writes blanks in place of these bytes, so that all others stay where they are, and their lines.
fn leave_out(text: &mut [u8], start: usize, end: usize) {
    for byte in text.iter_mut().take(end).skip(start) {
        if *byte != b'\n' {
            *byte = b' ';
        }
    }
}
