//! How deep the brackets of a text are nested.
#![tactic(auto, using(crate::proofs::NestingLemmas::nesting_steps))]

ghost use Rattle.std.specs.Prelude.{◌≡◌, ◌+◌, ◌^◌, ◌<◌};
ghost use Rattle.aterm_text.specs.Nesting.{nesting as nesting_of};
ghost use Rattle.aterm_text.specs.inside.NestingPlaces.{place_after, depth_after as depth_after_of};

// Where the next byte is.
#[derive(Clone, Copy)]
enum Quoting {
    OutsideQuotes,
    InsideQuotes,
    AfterBackslash,
}

impl Quoting {
    fn after(self, byte: u8) -> Quoting
        ensures { result ≡ place_after self byte }
    {
        match (self, byte) {
            (Quoting::OutsideQuotes, b'"') => Quoting::InsideQuotes,
            (Quoting::OutsideQuotes, _) => Quoting::OutsideQuotes,
            (Quoting::InsideQuotes, b'"') => Quoting::OutsideQuotes,
            (Quoting::InsideQuotes, b'\\') => Quoting::AfterBackslash,
            (Quoting::InsideQuotes | Quoting::AfterBackslash, _) => Quoting::InsideQuotes,
        }
    }

    fn depth_after(self, byte: u8, depth: u64) -> u64
        requires { depth + 1 < 2 ^ 64 }
        ensures { result ≡ depth_after_of self byte depth }
    {
        match (self, byte) {
            (Quoting::OutsideQuotes, b'(' | b'[' | b'{') => depth + 1,
            (Quoting::OutsideQuotes, b')' | b']' | b'}') => depth.saturating_sub(1),
            _ => depth,
        }
    }
}

/// The greatest number of brackets `(`, `[` and `{` that are open at one place of the text. A
/// closing bracket of any kind closes one, if one is open. Quoted bytes aren't counted; a backslash
/// there escapes the next byte, and a quote that isn't closed extends to the end. Of `f([a],(b))`
/// it is 2, of `f("((")` 1, of `])[` 1.
pub fn nesting(text: &[u8]) -> u64
    ensures { result ≡ nesting_of text.now }
{
    let mut place = Quoting::OutsideQuotes;
    let mut depth = 0;
    let mut greatest = 0;
    for byte in text {
        depth = place.depth_after(*byte, depth);
        greatest = depth.max(greatest);
        place = place.after(*byte);
    }
    greatest
}
