//! Sentences, with pieces of a command put into their places. A command's bytes needn't be UTF-8,
//! so these are no `Display`.

ghost use Rattle.std.specs.Prelude.{◌≡◌, ◌⊎◌, ◌++◌, true};

use crate::diagnostic::{Diagnostic, Kept};
use crate::printing::{DEEPEST, add_pattern, add_strategy};
use crate::span::Spot;
use aterm_text::{print, print_name};
use itoa::Buffer;
use strategy_syntax::{Pattern, Strategy};
use term_core::{Kind, Name, Term};

// The most steps of a path that are shown, and how many of a longer one.
const WHOLE: usize = 10;

const FRONT: usize = 3;

/// Appends a sentence to a line, with each of these, at most four, in the place of a `{}`. It makes one
/// call: each call is dear to prove, and so is an array of them at each sentence.
#[macro_export]
macro_rules! say {
    ($hint:expr; $sentence:expr) => {{
        let sentence = $sentence;
        $hint.words(sentence)
    }};
    ($hint:expr; $sentence:expr, $first:expr) => {{
        let sentence = $sentence;
        let first = $first;
        $hint.say_one(sentence, first)
    }};
    ($hint:expr; $sentence:expr, $first:expr, $second:expr) => {{
        let sentence = $sentence;
        let first = $first;
        let second = $second;
        $hint.say_two(sentence, first, second)
    }};
    ($hint:expr; $sentence:expr, $first:expr, $second:expr, $third:expr) => {{
        let sentence = $sentence;
        let first = $first;
        let second = $second;
        let third = $third;
        $hint.say_three(sentence, first, second, third)
    }};
    ($hint:expr; $sentence:expr, $first:expr, $second:expr, $third:expr, $fourth:expr) => {{
        let sentence = $sentence;
        let first = $first;
        let second = $second;
        let third = $third;
        let fourth = $fourth;
        $hint.say_four(sentence, first, second, third, fourth)
    }};
}

/// What stands in a place of a sentence.
#[derive(Clone, Copy)]
pub enum Fill<'a> {
    Words(&'a str),
    Bytes(&'a [u8]),
    /// Bytes of a command between `` ` ``, at most 60 of them, on one line.
    Quoted(&'a [u8]),
    /// Their texts, quoted likewise.
    Pattern(&'a Pattern),
    Strategy(&'a Strategy),
    Term(&'a Term),
    /// A name as it is printed.
    Name(&'a Name),
    Number(u64),
    Integer(i64),
    /// So many of something, in the plural unless there is one.
    Count(u64, &'a str),
    /// `line 15`
    Line(u64),
    /// `line 15, column 31`: a place, which becomes a label.
    At(Spot<'a>),
    /// `line 15`: the line of a place, which becomes a label.
    LineOf(Spot<'a>),
}

impl Diagnostic {
    /// Appends these words.
    pub fn words(&mut self, words: &str)
        ensures kept { (self.new.severity ≡ self.old.severity) × (self.new.code ≡ self.old.code) }
        ensures appended { (self.new.refused ≡ true) ⊎ (self.new.text.items ≡ self.old.text.items ++ words.now) }
    {
        self.bytes(words.as_bytes());
    }

    /// Appends a sentence, with this in the place of its `{}`.
    pub fn say_one(&mut self, sentence: &str, first: Fill<'_>)
        ensures { (self.new.severity ≡ self.old.severity) × (self.new.code ≡ self.old.code) }
    {
        let rest = self.say_up_to(sentence, first);
        self.words(rest);
    }

    /// The same with two.
    pub fn say_two(&mut self, sentence: &str, first: Fill<'_>, second: Fill<'_>)
        ensures { (self.new.severity ≡ self.old.severity) × (self.new.code ≡ self.old.code) }
    {
        let rest = self.say_up_to(sentence, first);
        self.say_one(rest, second);
    }

    /// The same with three.
    pub fn say_three(&mut self, sentence: &str, first: Fill<'_>, second: Fill<'_>, third: Fill<'_>)
        ensures { (self.new.severity ≡ self.old.severity) × (self.new.code ≡ self.old.code) }
    {
        let rest = self.say_up_to(sentence, first);
        self.say_two(rest, second, third);
    }

    /// The same with four.
    pub fn say_four(
        &mut self,
        sentence: &str,
        first: Fill<'_>,
        second: Fill<'_>,
        third: Fill<'_>,
        fourth: Fill<'_>,
    )
        ensures { (self.new.severity ≡ self.old.severity) × (self.new.code ≡ self.old.code) }
    {
        let rest = self.say_up_to(sentence, first);
        self.say_three(rest, second, third, fourth);
    }

    // Appends a sentence up to its first `{}`, and this in the place of that. Returns the rest.
    fn say_up_to<'s>(&mut self, sentence: &'s str, fill: Fill<'_>) -> &'s str
        ensures { (self.new.severity ≡ self.old.severity) × (self.new.code ≡ self.old.code) }
    {
        let Some((words, rest)) = sentence.split_once("{}") else {
            return sentence;
        };
        self.words(words);
        self.fill(fill);
        rest
    }

    /// Appends the path that leads from the root to one subterm and on to another, or the front of a
    /// long one. It becomes a label.
    pub fn path(&mut self, above: &[usize], below: &[usize])
        ensures { (self.new.severity ≡ self.old.severity) × (self.new.code ≡ self.old.code) }
    {
        let depth = above.len().saturating_add(below.len());
        let shown = if depth > WHOLE { FRONT } else { WHOLE };
        let start = self.text.len();
        let whole = self.keep_path(above, below);
        self.words(if depth == 0 { "`/" } else { "`" });
        for index in above.iter().chain(below).take(shown) {
            self.number("/", *index as u64);
        }
        if depth > WHOLE {
            self.number("/..` (depth ", depth as u64);
            self.words(")");
        } else {
            self.words("`");
        }
        self.label_path(whole, start);
    }

    // Keeps the whole path.
    fn keep_path(&mut self, above: &[usize], below: &[usize]) -> Kept
        ensures { (self.new.severity ≡ self.old.severity) × (self.new.code ≡ self.old.code) }
    {
        let mut buffer = Buffer::new();
        let mut kept = self.keep_bytes(b"");
        if above.is_empty() && below.is_empty() {
            return self.keep_bytes(b"/");
        }
        for index in above.iter().chain(below) {
            let _ = self.keep_bytes(b"/");
            kept.end = self.keep_bytes(buffer.format(*index).as_bytes()).end;
        }
        kept
    }

    /// Appends what the root of a term with so many children is.
    pub fn root(&mut self, kind: Kind<'_>, count: usize)
        ensures { (self.new.severity ≡ self.old.severity) × (self.new.code ≡ self.old.code) }
    {
        let sentence = match kind {
            Kind::Integer(_) => "the integer {}",
            Kind::Application(_) if count > 0 => "{} of {}",
            Kind::Application(name) if name.is_quoted() => "the string {}",
            Kind::Application(_) => "the constant {}",
            Kind::List if count == 0 => "the empty list",
            Kind::Tuple if count == 0 => "the empty tuple",
            Kind::List => "a list of {}",
            Kind::Tuple => "a tuple of {}",
        };
        let terms = Fill::Count(count as u64, "term");
        let first = match kind {
            Kind::Integer(value) => Fill::Integer(value),
            Kind::Application(name) => Fill::Quoted(name.bytes()),
            _ => terms,
        };
        say!(self; sentence, first, terms);
    }

    fn fill(&mut self, fill: Fill<'_>)
        ensures { (self.new.severity ≡ self.old.severity) × (self.new.code ≡ self.old.code) }
    {
        match fill {
            Fill::Words(words) => self.words(words),
            Fill::Bytes(bytes) => self.bytes(bytes),
            Fill::Quoted(bytes) => self.quote(bytes),
            Fill::Pattern(pattern) => {
                let start = self.open();
                add_pattern(self, pattern, DEEPEST);
                self.close(start);
            }
            Fill::Strategy(strategy) => {
                let start = self.open();
                add_strategy(self, strategy, DEEPEST);
                self.close(start);
            }
            Fill::Term(term) => {
                let start = self.open();
                let refused = print(term, &mut self.text).is_err();
                self.note_refused(refused);
                self.close(start);
            }
            Fill::Name(name) => self.name(name),
            Fill::Number(number) => self.number("", number),
            Fill::Integer(value) => self.integer(value),
            Fill::Count(number, name) => self.count(number, name),
            Fill::Line(line) => self.number("line ", line),
            Fill::At(spot) => {
                let start = self.text.len();
                self.number("line ", spot.line);
                self.number(", column ", spot.column);
                self.label(spot, start);
            }
            Fill::LineOf(spot) => {
                let start = self.text.len();
                self.number("line ", spot.line);
                self.label(spot, start);
            }
        }
    }

    fn bytes(&mut self, bytes: &[u8])
        ensures kept { (self.new.severity ≡ self.old.severity) × (self.new.code ≡ self.old.code) }
        ensures appended { (self.new.refused ≡ true) ⊎ (self.new.text.items ≡ self.old.text.items ++ bytes.now) }
    {
        let refused = self.text.extend_from_slice(bytes).is_err();
        self.note_refused(refused);
    }

    /// Appends a name as it is printed.
    pub fn name(&mut self, name: &Name)
        ensures { (self.new.severity ≡ self.old.severity) × (self.new.code ≡ self.old.code) }
    {
        let refused = print_name(name, &mut self.text).is_err();
        self.note_refused(refused);
    }

    /// Appends an integer.
    pub fn integer(&mut self, value: i64)
        ensures { (self.new.severity ≡ self.old.severity) × (self.new.code ≡ self.old.code) }
    {
        self.words(Buffer::new().format(value));
    }

    /// Appends these words and a number.
    pub fn number(&mut self, before: &str, number: u64)
        ensures { (self.new.severity ≡ self.old.severity) × (self.new.code ≡ self.old.code) }
    {
        self.words(before);
        self.words(Buffer::new().format(number));
    }

    fn count(&mut self, number: u64, name: &str)
        ensures { (self.new.severity ≡ self.old.severity) × (self.new.code ≡ self.old.code) }
    {
        let (stem, ending) = match name.strip_suffix("y") {
            _ if number == 1 => (name, ""),
            Some(stem) => (stem, "ies"),
            None => (name, "s"),
        };
        self.number("", number);
        self.words(" ");
        self.words(stem);
        self.words(ending);
    }
}
