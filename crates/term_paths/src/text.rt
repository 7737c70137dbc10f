//! The text of paths.

ghost use Rattle.std.specs.Prelude.{◌≡◌, IfOk, None, Some, Err};
ghost use Rattle.std.specs.List.{slice_split, list_all};
ghost use Rattle.std.specs.Char.{is_ascii_digit};
ghost use Rattle.term_paths.specs.PathText.{path_of, parts_of, part_of, is_slash};

use crate::Path;
use std::alloc::{AllocFailed, Global};
use std::str;
use thiserror::Error;

/// Why a text wasn't read as a path.
#[derive(Clone, Copy, Debug, PartialEq, Eq, Error)]
pub enum PathFault {
    /// The text is no path.
    #[error("line")]
    Line,
    /// Memory couldn't grow.
    #[error("memory")]
    Memory,
}

impl<T: Drop> From<AllocFailed<T>> for PathFault {
    ghost use Rattle.std.specs.Prelude.{◌≡◌};
    ghost use Rattle.term_paths.specs.declared.text.PathFault.{PathFault};

    ghost from_gives = { λ _ e. e ≡ PathFault.Memory };

    fn from(_refused: AllocFailed<T>) -> PathFault {
        PathFault::Memory
    }
}

/// The path that the text spells: `/` alone is the root, any other is a `/` and a decimal number
/// for each part, such as `/0/2`. A number is at most 4,294,967,295 and may have leading zeros.
///
/// Errors: `Line` if the text is no path; `Memory` if memory can't grow.
pub fn read_path(alloc: Global, text: &[u8]) -> Result<Path, PathFault>
    ensures path { IfOk result (λ path. path_of text.now ≡ Some path) }
    ensures line { result ≡ Err PathFault.Line → path_of text.now ≡ None }
{
    match text.split_first() {
        Some((b'/', [])) => Ok(Path::root(alloc)),
        Some((b'/', after)) => read_parts(alloc, after),
        _ => Err(PathFault::Line),
    }
}

// The path of numbers separated by slashes.
fn read_parts(alloc: Global, text: &[u8]) -> Result<Path, PathFault>
    ensures path { IfOk result (λ path. parts_of (slice_split is_slash text.now) ≡ Some path) }
    ensures line { result ≡ Err PathFault.Line
        → parts_of (slice_split is_slash text.now) ≡ None }
{
    let mut parts = Vec::new(alloc);
    for piece in text.split(|b| *b == b'/') {
        match read_number(piece) {
            Some(part) => parts.push(part)?,
            None => return Err(PathFault::Line),
        }
    }
    Ok(Path::from_parts(parts))
}

/// The number that these decimal digits spell, as in a path: at most 4,294,967,295, with leading
/// zeros allowed, and nothing but digits.
pub fn read_number(digits: &[u8]) -> Option<usize>
    ensures { result ≡ part_of digits.now }
{
    if !are_digits(digits) {
        return None;
    }
    let Ok(text) = str::from_utf8(digits) else {
        return None;
    };
    match text.parse::<u32>() {
        Ok(part) => Some(part as usize),
        Err(_) => None,
    }
}

fn are_digits(text: &[u8]) -> bool
    ensures { result ≡ list_all is_ascii_digit text.now }
{
    text.iter().all(|b| b.is_ascii_digit())
}
