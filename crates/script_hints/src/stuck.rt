//! A token with which a text doesn't go on, what is around it, and what to write in its place.

use hint_text::{CommandParts, has_word, is_sign, split_word, token_of};
use std::alloc::Global;
use strategy_parse::{stuck_module, stuck_strategy};
use strategy_tokens::{Keyword, Sign, Token, is_mark};
use term_core::NoMemory;
use text_faults::{
    OpenForm, OpenToken, Role, innermost_open, roles_in_definition, roles_in_strategy,
};

// What to write instead: of the lines whose words before ` -- ` are all among the facts on the
// token, the first counts.
const ADVICE: &str = "near=with -- there is no `with`: write `where`
near=switch -- there is no `switch`: write `if .. then .. else .. end`, or `<+` between rules
near=case -- there is no `switch`: write `if .. then .. else .. end`, or `<+` between rules
near=let -- there is no `let`: write a definition of the module
near=imports -- there is no `imports`: all loaded modules see one another
near=overlays -- there are no overlays
before=in has=let -- there is no `let`: write a definition of the module
here=in has=let -- there is no `let`: write a definition of the module
here=: next== -- there is no `x := s`: write `s => x`
text=module begins=signatures -- did you mean `signature`?
text=module begins=Signature -- did you mean `signature`?
text=module begins=rule -- did you mean `rules`?
text=module begins=Rules -- did you mean `rules`?
text=module begins=strategy -- did you mean `strategies`?
text=module begins=Strategies -- did you mean `strategies`?
text=module begins=constructor -- did you mean `constructors`?
text=module begins=Constructors -- did you mean `constructors`?
text=module begins=sort -- did you mean `sorts`?
text=module begins=Sorts -- did you mean `sorts`?
kind=term role=strategy after=other -- a term is no strategy: write `?` before it to match it, `!` to build it
kind=integer role=strategy after=other -- a term is no strategy: write `?` before it to match it, `!` to build it
was=strategy kind-before=integer -- a term is no strategy: write `?` before it to match it, `!` to build it
was=strategy before=not -- brackets are missing: write `not(s)`
was=strategy before=where -- brackets are missing: write `where(s)`
was=strategy before=test -- brackets are missing: write `test(s)`
was=strategy before=all -- brackets are missing: write `all(s)`
was=strategy before=one -- brackets are missing: write `one(s)`
was=strategy before=some -- brackets are missing: write `some(s)`
text=module item=bare -- after the name of a definition comes `=` or `:`
text=module item=strategy -- after `:` comes a rule `l -> r`: define a strategy by `=`
text=module item=new section=none kind=name header=whole -- a definition comes after `rules` or `strategies`
text=module item=new ended=; -- no `;` ends a definition
text=module item=new ended=<+ -- no `<+` ends a definition
text=module item=new here=if body=-> -- the condition of a rule comes after `where`
here=+ -- there is no `s + t` alone: write `s <+ t`, or `c < s + t`
here=< role=pattern after=other side=-> -- there is no `<s> p` in a pattern: write a rule `.. -> y where <s> p => y`
here=< role=pattern after=other -- there is no `<s> p` in a pattern: write `<s> p => x` before, and x in the pattern
text=module here=; open=none after=operand -- no `;` ends a definition
word=where last=where -- a rule and a closure have one `where` at most: join conditions by `;`
word=where last== -- only a rule `l -> r where s` has a `where`; else write `where(s)`
word=where last=none text=strategy -- only a rule `l -> r where s` has a `where`; else write `where(s)`
here=sorts item=new -- the word begins a part of a `signature`
here=constructors item=new -- the word begins a part of a `signature`
here=rules next=( role=strategy -- there are no dynamic rules
word=reserved text=module item=new header=whole -- the word is reserved, and is no name
word=plain role=pattern after=other -- the word is reserved, and is no name
word=reserved role=pattern after=other list=ends -- the word is reserved, and is no name
word=reserved role=binding after=other list=ends -- the word is reserved, and is no name
word=reserved role=binding after=other before=rec -- the word is reserved, and is no name
word=section role=strategy after=other list=ends -- the word is reserved, and is no name";

/// The words that begin sections and their parts.
pub const SECTIONS: &str = "module signature sorts constructors rules strategies";

/// What is around the token.
#[derive(Clone, Copy)]
pub struct StuckToken<'a> {
    /// The number of the token, counted from 0; that of all tokens if the text ends too early.
    pub number: usize,
    /// It and the tokens after it; none if the text ends too early.
    pub after: &'a [Token],
    /// The innermost form that is open before it.
    pub open: Option<OpenToken>,
    /// The number of the token that begins the definition or the declaration that can't go on.
    pub begin: usize,
    // The tokens before it, and those of them that belong to the definition or the declaration that
    // can't go on, or to the strategy.
    before: &'a [Token],
    item: &'a [Token],
    // The whole text, whether it is a module, and the word of the section that goes on before the
    // item.
    text: &'a [u8],
    is_module: bool,
    section: &'static str,
    // What it is used for, in a definition or a strategy, and the token before it.
    role: &'static str,
    role_before: &'static str,
}

/// Where the text of the command, which has these tokens, stops being a module or a strategy.
pub fn stuck_of<'a>(
    alloc: Global,
    parts: &CommandParts<'a>,
    tokens: &'a [Token],
) -> Result<StuckToken<'a>, NoMemory> {
    let (begin, number) = stuck_token(alloc, parts, tokens.len())?;
    let (before, after) = tokens.split_at(number.min(tokens.len()));
    let (front, item) = before.split_at(begin.min(before.len()));
    let section = last_of(front, "signature rules strategies");
    let with_token = tokens.get(begin..number.saturating_add(1)).unwrap_or(item);
    let open = innermost_open(alloc, before)?;
    let roles = if !parts.is_module() {
        roles_in_strategy(alloc, with_token)?
    } else if has_word("rules strategies", section.as_bytes()) {
        roles_in_definition(alloc, with_token)?
    } else {
        Vec::new(alloc)
    };
    Ok(StuckToken {
        number,
        after,
        open,
        begin,
        before,
        item,
        text: parts.text,
        is_module: parts.is_module(),
        section,
        role: role_word(roles.get(item.len())),
        role_before: role_word(item.len().checked_sub(1).and_then(|last| roles.get(last))),
    })
}

// The number of the token that begins the item, and of the one with which it can't go on; that of
// all tokens if it ends too early.
fn stuck_token(
    alloc: Global,
    parts: &CommandParts<'_>,
    all: usize,
) -> Result<(usize, usize), NoMemory> {
    let found = if parts.is_module() {
        stuck_module(alloc, parts.text).map(|found| found.map(|it| (it.item, it.token)))
    } else {
        stuck_strategy(alloc, parts.text).map(|found| found.map(|it| (0, it.token)))
    };
    match found {
        Ok(Some(place)) => Ok(place),
        Ok(None) if parts.is_module() => Ok((all, all)),
        Ok(None) => Ok((0, all)),
        Err(_) => Err(NoMemory),
    }
}

/// What to write in place of the form that this name begins; nothing if it begins none.
pub fn instead_of(name: &[u8]) -> &'static str {
    advice_on(&[("near", name)])
}

// What is known of the token: pairs of what it is about and what it is.
type Fact<'a> = (&'static str, &'a [u8]);

fn advice_on(facts: &[Fact<'_>]) -> &'static str {
    for line in ADVICE.lines() {
        if let Some((wanted, advice)) = line.split_once(" -- ")
            && wanted.split(' ').all(|fact| has_fact(facts, fact))
        {
            return advice;
        }
    }
    ""
}

fn has_fact(facts: &[Fact<'_>], wanted: &str) -> bool {
    match wanted.split_once("=") {
        Some((about, what)) => facts
            .iter()
            .any(|fact| fact.0 == about && fact.1 == what.as_bytes()),
        None => false,
    }
}

impl<'a> StuckToken<'a> {
    /// What to write instead, where the token or what is before it looks like a known mistake; else
    /// nothing.
    pub fn advice(&self, alloc: Global) -> Result<&'static str, NoMemory> {
        let mut facts = Vec::new(alloc);
        let here = self.spelled(self.number);
        self.add_tokens(&mut facts, here)?;
        self.add_item(&mut facts, here)?;
        if matches!(self.after.first(), Some(Token::Reserved(_))) {
            self.add_word(&mut facts, here)?;
        }
        Ok(advice_on(&facts))
    }

    // The bytes of a token, up to the first blank in it; none if there is no such token.
    fn spelled(&self, number: usize) -> &'a [u8] {
        split_word(token_of(self.text, number).0).0
    }

    fn spelled_before(&self, number: usize) -> &'a [u8] {
        match number.checked_sub(1) {
            Some(before) => self.spelled(before),
            None => &[],
        }
    }

    fn spelled_after(&self) -> &'a [u8] {
        self.spelled(self.number.saturating_add(1))
    }

    // The token, those beside it, that before an open `<` and the first one of the item; and what it
    // and the one before it are, and are used for.
    fn add_tokens(&self, facts: &mut Vec<Fact<'a>>, here: &'a [u8]) -> Result<(), NoMemory> {
        let (before, next) = (self.spelled_before(self.number), self.spelled_after());
        let guard = match self.open {
            Some(open) if matches!(open.form, OpenForm::Guard) => self.spelled_before(open.token),
            _ => &[],
        };
        let begins = match self.item {
            [] => here,
            [_] => before,
            _ => &[],
        };
        let (kind, ended) = (kind_of(self.after.first()), kind_of(self.before.last()));
        let after = if ended == "none" { "other" } else { "operand" };
        facts.push(("before", before))?;
        facts.push(("here", here))?;
        facts.push(("next", next))?;
        facts.push(("near", before))?;
        facts.push(("near", here))?;
        facts.push(("near", guard))?;
        facts.push(("begins", begins))?;
        facts.push(("role", self.role.as_bytes()))?;
        facts.push(("was", self.role_before.as_bytes()))?;
        facts.push(("kind", kind.as_bytes()))?;
        facts.push(("kind-before", ended.as_bytes()))?;
        Ok(facts.push(("after", after.as_bytes()))?)
    }

    // What the item and its section are, and of some words the last before the token or in the item.
    fn add_item(&self, facts: &mut Vec<Fact<'a>>, here: &[u8]) -> Result<(), NoMemory> {
        let text = if self.is_module { "module" } else { "strategy" };
        let open = if self.open.is_none() { "none" } else { "form" };
        facts.push(("text", text.as_bytes()))?;
        facts.push(("open", open.as_bytes()))?;
        facts.push(("item", self.item_word(here).as_bytes()))?;
        facts.push(("section", self.section.as_bytes()))?;
        facts.push(("has", last_of(self.before, "let").as_bytes()))?;
        facts.push(("body", last_of(self.before, "-> =").as_bytes()))?;
        facts.push(("last", last_of(self.before, "where -> =").as_bytes()))?;
        facts.push(("side", last_of(self.item, "-> ?").as_bytes()))?;
        if begins_header(self.after) {
            facts.push(("header", b"whole".as_slice()))?;
        }
        if has_word("= :", here) {
            facts.push(("ended", mark_before_header(self.before).as_bytes()))?;
        }
        Ok(())
    }

    // Of a reserved word: which it is, and whether a list ends after it.
    fn add_word(&self, facts: &mut Vec<Fact<'a>>, here: &[u8]) -> Result<(), NoMemory> {
        let next = self.spelled_after();
        if has_word("where", here) && !self.open.is_some_and(|open| is_bracket(open.form)) {
            facts.push(("word", b"where".as_slice()))?;
        } else if has_word(SECTIONS, here) {
            facts.push(("word", b"reserved".as_slice()))?;
            facts.push(("word", b"section".as_slice()))?;
        } else {
            facts.push(("word", b"reserved".as_slice()))?;
            facts.push(("word", b"plain".as_slice()))?;
        }
        if next.is_empty() || has_word(") ] } , | :", next) {
            facts.push(("list", b"ends".as_slice()))?;
        }
        Ok(())
    }

    // What the item is: new; of a definition its name and parameters alone, or one with a strategy
    // where the left side of a rule has to be; or else.
    fn item_word(&self, here: &[u8]) -> &'static str {
        if self.item.is_empty() {
            "new"
        } else if !has_word("rules strategies", self.section.as_bytes()) {
            "other"
        } else if let Some([]) = after_header(self.item)
            && matches!(self.item.first(), Some(Token::Ident(_)))
        {
            "bare"
        } else if self.is_strategy_after_colon(here) {
            "strategy"
        } else {
            "other"
        }
    }

    fn is_strategy_after_colon(&self, here: &[u8]) -> bool {
        let begins = has_word("? ! <", here)
            || (matches!(self.after.first(), Some(Token::Reserved(_)))
                && !has_word(SECTIONS, here)
                && !has_word("then else end", here));
        last_of(self.item, ":") == ":"
            && last_of(self.item, "-> =") == "none"
            && first_of(self.after, "-> : =") != "->"
            && (self.open.is_none() || (begins && self.section == "strategies"))
    }
}

/// Whether the form is in brackets.
pub fn is_bracket(form: OpenForm) -> bool {
    matches!(form, OpenForm::Round | OpenForm::Square | OpenForm::Curly)
}

fn role_word(role: Option<&Role>) -> &'static str {
    match role {
        Some(Role::Definition) => "name",
        Some(Role::Binding) => "binding",
        Some(Role::Strategy) => "strategy",
        Some(Role::Matched | Role::Built) => "pattern",
        None => "none",
    }
}

// What a token is, if a whole strategy or pattern may end with it.
fn kind_of(token: Option<&Token>) -> &'static str {
    match token {
        Some(Token::Ident(_)) => "name",
        Some(Token::Integer(_)) => "integer",
        Some(Token::Text(_) | Token::Wildcard) => "term",
        Some(Token::Reserved(Keyword::Id | Keyword::Fail | Keyword::End)) => "word",
        Some(Token::Sign(Sign::CloseRound | Sign::CloseSquare | Sign::CloseCurly)) => "bracket",
        _ => "none",
    }
}

// ---- the tokens of definitions

// The word or sign that a token is, of those that parts of texts begin with; `?` for each that
// begins or ends a pattern.
fn mark_of(token: &Token) -> &'static str {
    match token {
        Token::Sign(Sign::Arrow) => "->",
        Token::Sign(Sign::Equals) => "=",
        Token::Sign(Sign::Colon) => ":",
        Token::Sign(Sign::Semicolon) => ";",
        Token::Sign(Sign::LeftChoice) => "<+",
        Token::Sign(Sign::Question | Sign::Exclamation | Sign::FatArrow | Sign::Greater) => "?",
        Token::Reserved(Keyword::Where) => "where",
        Token::Reserved(Keyword::Signature) => "signature",
        Token::Reserved(Keyword::Rules) => "rules",
        Token::Reserved(Keyword::Strategies) => "strategies",
        Token::Ident(name) if name.bytes() == b"let".as_slice() => "let",
        _ => "none",
    }
}

// The last of these words among the tokens, and the first; `none` if there is none.
fn last_of(tokens: &[Token], words: &str) -> &'static str {
    let is_wanted = |mark: &&str| has_word(words, mark.as_bytes());
    tokens
        .iter()
        .map(mark_of)
        .rfind(is_wanted)
        .unwrap_or("none")
}

fn first_of(tokens: &[Token], words: &str) -> &'static str {
    let is_wanted = |mark: &&str| has_word(words, mark.as_bytes());
    tokens.iter().map(mark_of).find(is_wanted).unwrap_or("none")
}

// What follows the name of a definition that these tokens begin with, and its parameters.
fn after_header(tokens: &[Token]) -> Option<&[Token]> {
    if !is_sign(tokens, 1, Sign::OpenRound) {
        return tokens.get(1..);
    }
    let end = tokens
        .iter()
        .position(|token| is_mark(token, Sign::CloseRound))?;
    tokens.get(end.saturating_add(1)..)
}

/// Whether a definition or a declaration begins with these tokens.
pub fn begins_header(tokens: &[Token]) -> bool {
    let rest = after_header(tokens).unwrap_or(&[]);
    is_sign(rest, 0, Sign::Equals) || is_sign(rest, 0, Sign::Colon)
}

// The mark before the header at the end of these tokens.
fn mark_before_header(before: &[Token]) -> &'static str {
    let last = before.len().saturating_sub(1);
    let mut name = last;
    if is_sign(before, last, Sign::CloseRound) {
        for (number, token) in before.iter().enumerate() {
            if is_mark(token, Sign::OpenRound) {
                name = number.saturating_sub(1);
            }
        }
    }
    match before.get(..name).unwrap_or(&[]).last() {
        Some(token) => mark_of(token),
        None => "none",
    }
}
