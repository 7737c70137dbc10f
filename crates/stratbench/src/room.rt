//! The machine's stack.

use crate::reading::read_file;
use session_history::USUAL_TOKENS;

// What the deepest strategy of 4,000 tokens takes to be read, checked, run and dropped, in bytes, and
// more than the highest tree takes.
const USUAL: u64 = 6 << 20;

// What each token more of a module takes at most. Rules of one name, of five tokens or more, are a
// choice that is nested as deep as there are rules.
const TOKEN: u64 = 320;

// Where Linux says what a process may have, and how the line about its stack begins.
const LIMITS: &str = "/proc/self/limits";

const STACK: &str = "Max stack size";

// More bytes than that file has.
const MOST: u64 = 65_536;

/// The stack that a session needs whose modules may have so many tokens, in bytes.
pub fn needed_stack(max_tokens: u32) -> u64 {
    let more = u64::from(max_tokens.saturating_sub(USUAL_TOKENS));
    USUAL.saturating_add(TOKEN.saturating_mul(more))
}

/// The stack that the process may have, in bytes, where the system says that this is less than it
/// needs.
pub fn too_small_stack(rt: &HostRuntime, needed: u64) -> Option<u64> {
    let Ok(text) = read_file(rt, LIMITS, MOST) else {
        return None;
    };
    let Ok(text) = str::from_utf8(&text) else {
        return None;
    };
    for line in text.lines() {
        if let Some(rest) = line.strip_prefix(STACK) {
            return too_few(rest, needed);
        }
    }
    None
}

// The number at the start of a text, if it is less than this.
fn too_few(text: &str, needed: u64) -> Option<u64> {
    let word = text.split_ascii_whitespace().next()?;
    match word.parse::<u64>() {
        Ok(bytes) if bytes < needed => Some(bytes),
        _ => None,
    }
}
