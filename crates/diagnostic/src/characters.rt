//! The characters and lines of a text in UTF-8. In other bytes each begins a character, but for
//! those from 128 to 191.

ghost use Rattle.std.specs.Prelude.{◌≡◌, ◌≤◌, ◌-◌, ◌∷◌, [], eqb, length, take, drop};
ghost use Rattle.std.specs.List.{starts_with};

// Whether a character begins with the byte, in UTF-8.
fn begins_character(byte: u8) -> bool {
    byte & 0xc0 != 0x80
}

/// The number of characters.
pub fn count_characters(text: &[u8]) -> u64
    ensures { result ≤ length text.now }
{
    let mut count = 0u64;
    for byte in text {
        if begins_character(*byte) {
            count = count.saturating_add(1);
        }
    }
    count
}

// The number of bytes at the start that belong to a character that began before.
fn inside_character(text: &[u8]) -> usize
    ensures { result ≤ length text.now }
{
    let begins = |byte: &u8| begins_character(*byte);
    text.iter().position(begins).unwrap_or(text.len())
}

/// So many bytes at the end, less those of a character that began before.
pub fn last_characters(text: &[u8], most: usize) -> &[u8]
    ensures most { length result.now ≤ most }
    ensures end { result.now ≡ drop (length text.now - length result.now) text.now }
{
    let cut = text.get(text.len().saturating_sub(most)..).unwrap_or(text);
    cut.get(inside_character(cut)..).unwrap_or(cut)
}

/// So many bytes at the start, less those of a character that goes on.
pub fn first_characters(text: &[u8], most: usize) -> &[u8]
    ensures most { length result.now ≤ most }
    ensures start { result.now ≡ take (length result.now) text.now }
{
    let cut = text.get(..most).unwrap_or(text);
    match text.get(cut.len()) {
        Some(byte) if !begins_character(*byte) => {
            let last = cut.iter().rposition(|byte| begins_character(*byte));
            cut.get(..last.unwrap_or(0)).unwrap_or(cut)
        }
        _ => cut,
    }
}

/// The character at the place, in UTF-8.
pub fn character_at(text: &[u8], at: usize) -> &[u8]
    ensures { result.now ≡ take (length result.now) (drop at text.now) }
{
    let rest = text.get(at..).unwrap_or(&[]);
    let more = match rest {
        [] => return &[],
        [first, ..] if *first < 0x80 => 0,
        [_, after @ ..] => inside_character(after),
    };
    rest.get(..more.saturating_add(1)).unwrap_or(rest)
}

/// A place of a text: the number of its line, and what this line has before it and after it.
#[derive(Clone, Copy)]
pub struct TextPlace<'a> {
    pub line: u64,
    pub before: &'a [u8],
    pub after: &'a [u8],
}

/// The place after so many bytes of a text whose first line has this number.
pub fn place_of(text: &[u8], first: u64, at: usize) -> TextPlace<'_>
    ensures line { first ≤ result.line }
    ensures before { result.before.now
        ≡ drop (length (take at text.now) - length result.before.now) (take at text.now) }
    ensures after { result.after.now ≡ take (length result.after.now) (drop at text.now) }
{
    let (before, after) = text.split_at(at.min(text.len()));
    let mut line = first;
    for byte in before {
        if *byte == b'\n' {
            line = line.saturating_add(1);
        }
    }
    let ends_line = |byte: &u8| *byte == b'\n';
    let start = before
        .iter()
        .rposition(ends_line)
        .map_or(0, |it| it.saturating_add(1));
    let end = after.iter().position(ends_line).unwrap_or(after.len());
    TextPlace {
        line,
        before: before.get(start..).unwrap_or(before),
        after: after.get(..end).unwrap_or(after),
    }
}

/// Whether the text begins with a byte order mark.
pub fn begins_with_mark(text: &[u8]) -> bool
    ensures { result ≡ starts_with eqb text.now (239 ∷ 187 ∷ 191 ∷ []) }
{
    text.starts_with(b"\xef\xbb\xbf")
}
