//! Where parts of a text stand in it.

ghost use Rattle.std.specs.Prelude.{◌≤◌, ◌<◌, IfSome};

/// The tokens of a text that something was read from. Their numbers count down to the end of the
/// text, as the parser meets them: the last token has the number 1. A text has at most 4,000.
///
/// Forms carry their place as a hint. No contract sees it, so what it says is proved where it is
/// used, as by `stands_at` of `strategy_parse`.
#[derive(Clone, Copy, Debug, PartialEq, Eq)]
pub struct Place {
    // How many tokens come from the first one on, that one included; 0 in no text.
    from: u16,
    // How many tokens come after the last one.
    after: u16,
}

/// Tokens of a text, by their numbers, counted from 0.
#[derive(Clone, Copy, Debug, PartialEq, Eq)]
pub struct TokenRange {
    /// The number of the first one.
    pub first: usize,
    /// The number of the token after the last one.
    pub end: usize,
}

impl Place {
    /// The place of what stands in no text.
    pub fn nowhere() -> Place {
        Place { from: 0, after: 0 }
    }

    /// The tokens from the one that is followed by `from - 1` others, up to the one that is
    /// followed by `after`. There are none if `after` isn't below `from`, or `from` is above
    /// 65,535.
    pub fn new(from: usize, after: usize) -> Place {
        if from > 65_535 || after >= from {
            return Place::nowhere();
        }
        Place {
            from: from as u16,
            after: after as u16,
        }
    }

    /// The place of the token from which on so many are left, that one included. With none left it
    /// is the end of the text, which has no token.
    pub fn of_token(left: usize) -> Place {
        if left > 65_535 {
            return Place::nowhere();
        }
        let from = left as u16;
        Place {
            from,
            after: from.saturating_sub(1),
        }
    }

    /// Whether there are no such tokens.
    pub fn is_nowhere(self) -> bool {
        self.from <= self.after
    }

    /// The place from so many tokens before this one on.
    pub fn begun(self, before: usize) -> Place {
        let before = before.min(65_535) as u16;
        Place {
            from: self.from.saturating_add(before),
            ..self
        }
    }

    /// The place up to the next token after this one, which closes a form.
    pub fn closed(self) -> Place {
        Place {
            after: self.after.saturating_sub(1),
            ..self
        }
    }

    /// The place of the next token after this one.
    pub fn next(self) -> Place {
        Place {
            from: self.after,
            after: self.after.saturating_sub(1),
        }
    }

    /// The place of the last token before this one, which may be the end of the text.
    pub fn previous(self) -> Place {
        Place {
            from: self.from.saturating_add(1),
            after: self.from,
        }
    }

    /// The place of its token of this index, counted from 0.
    pub fn token(self, index: usize) -> Place {
        let from = (self.from as usize).saturating_sub(index);
        if from <= self.after as usize {
            return Place::nowhere();
        }
        Place::of_token(from)
    }

    /// The place from the first token of this one up to the last of a later one.
    pub fn to(self, last: Place) -> Place {
        Place {
            after: last.after,
            ..self
        }
    }

    /// Whether the other place is a part of this one, or the same.
    pub fn contains(self, part: Place) -> bool {
        !part.is_nowhere() && part.from <= self.from && self.after <= part.after
    }

    /// The tokens in a text of `count` tokens; `None` if it doesn't have them.
    pub fn tokens(self, count: usize) -> Option<TokenRange>
        ensures order { IfSome result (λ range. range.first < range.end) }
        ensures within { IfSome result (λ range. range.end ≤ count) }
    {
        let from = self.from as usize;
        let after = self.after as usize;
        if from > count || after >= from {
            return None;
        }
        Some(TokenRange {
            first: count - from,
            end: count - after,
        })
    }
}
