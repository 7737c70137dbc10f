//! Where the steps of a run went.

use crate::matching::matched;
use crate::record::RunRecord;
use crate::telling::Teller;
use diagnostic::{Fill, say};
use term_core::NoMemory;

// How many definitions are listed with their shares, how many of these are the user's, and how many
// of those that repeat are listed.
const LISTED: usize = 6;

const OF_USER: usize = 5;

const REPEATED: usize = 8;

// The longest part of the last calls that is looked for again.
const PERIOD: usize = 200;

impl Teller<'_> {
    /// Says how the steps of a run that didn't end were spent, and where it stood.
    pub fn say_spent(&mut self, kept: &RunRecord<'_>) {
        self.say_shares(&kept.spent);
        let Some(stand) = &kept.stand else {
            return;
        };
        self.hint.note();
        self.hint.words("it stopped at ");
        self.say_spot(&stand.spot);
        say!(self.hint; " with {}", Fill::Term(&stand.focus));
        let size = self.about.term.size();
        let (now, before) = (Fill::Count(kept.size, "term"), Fill::Number(size));
        if kept.size > size {
            say!(self.hint; "; the whole has grown from {} to {}", before, now);
        } else if kept.size < size {
            say!(self.hint; "; the whole has shrunk from {} to {}", before, now);
        }
        match repeated(&kept.recent) {
            Some(calls) => self.say_repeated(calls),
            None => self.say_calls(stand),
        }
        if let Some((rule, times)) = self.greatest(&kept.successes, false, true) {
            self.hint.words("; ");
            self.say_definition(rule);
            if let Some(body) = self.about.body_with(rule, stand.strategy) {
                say!(self.hint; " ({})", Fill::LineOf(body.spot()));
            }
            say!(self.hint; " succeeded most often, {}", Fill::Count(times, "time"));
        }
    }

    /// Says which definitions took most steps of their own: at most five of the user, the command
    /// being one, and then some of the library.
    pub fn say_shares(&mut self, spent: &[u64]) {
        let Ok(mut left) = Vec::from_slice(self.about.alloc, spent) else {
            return self.hint.keep(Err(NoMemory));
        };
        let total = sum(spent);
        self.hint.note();
        let mut separator = "the steps: ";
        let mut was_of_user = false;
        for said in 0..LISTED {
            let mut found = self.greatest(&left, false, false);
            let is_of_user = found.is_some() && said < OF_USER;
            if !is_of_user {
                found = self.greatest(&left, true, false);
            }
            let Some((number, own)) = found else {
                break;
            };
            if was_of_user && !is_of_user {
                separator = "; of the library ";
            }
            was_of_user = is_of_user;
            if let Some(steps) = left.get_mut(number) {
                *steps = 0;
            }
            self.hint.words(separator);
            separator = ", ";
            self.say_definition(number);
            self.note_share(number, own);
            let share = own.saturating_mul(100).checked_div(total).unwrap_or(0);
            say!(self.hint; " {} % ({})", Fill::Number(share), Fill::Number(own));
        }
    }

    fn note_share(&mut self, number: usize, steps: u64) {
        match self.about.body(number, 0) {
            Some(body) => {
                let name = body.definition.name().bytes();
                self.hint.add_share(Some(name), steps);
            }
            None => self.hint.add_share(None, steps),
        }
    }

    // The definition, or rule, of the library or the user that has the greatest of these numbers,
    // the command being the user's, and the number.
    fn greatest(&self, numbers: &[u64], of_library: bool, is_rule: bool) -> Option<(usize, u64)> {
        let mut best = numbers.len().saturating_sub(1);
        let mut most = 0u64;
        if !of_library {
            most = numbers.last().copied().unwrap_or(0);
        }
        for (definition, number) in numbers.iter().enumerate() {
            if *number > most
                && let Some(body) = self.about.body(definition, 0)
                && body.is_of_library() == of_library
                && (!is_rule || matched(body.whole()).is_some())
            {
                most = *number;
                best = definition;
            }
        }
        (most > 0).then_some((best, most))
    }

    // Says which definitions are called, each once.
    fn say_repeated(&mut self, calls: &[usize]) {
        self.hint.note();
        let mut separator = "the calls repeat: ";
        let mut said = 0usize;
        for (number, definition) in calls.iter().enumerate() {
            let before = calls.get(..number).unwrap_or(&[]);
            if said <= REPEATED && !before.contains(definition) {
                self.hint.words(separator);
                if said == REPEATED {
                    self.hint.words("..");
                } else {
                    self.say_definition(*definition);
                }
                separator = ", ";
                said = said.saturating_add(1);
            }
        }
    }
}

/// The sum of these numbers.
pub fn sum(numbers: &[u64]) -> u64 {
    let mut sum = 0u64;
    for number in numbers {
        sum = sum.saturating_add(*number);
    }
    sum
}

// The shortest part that these calls repeat to the end, if they repeat one.
fn repeated(calls: &[usize]) -> Option<&[usize]> {
    for period in 1..PERIOD {
        let before = calls.len().checked_sub(period)?;
        if before < period {
            return None;
        }
        let last = calls.get(before..)?;
        if calls.get(..before)? == calls.get(period..)? {
            return Some(last);
        }
    }
    None
}
