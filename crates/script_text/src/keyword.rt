//! The words that commands begin with.

ghost use Rattle.std.specs.Prelude.{◌≡◌};
ghost use Rattle.script_text.specs.Form.{takes_no_memory_with};
ghost use Rattle.script_text.specs.KeywordView.{keyword_at, is_without_memory_after};

/// The first word of a command.
#[derive(Clone, Copy)]
pub enum Keyword {
    Tree,
    Copy,
    Drop,
    Put,
    Annotate,
    Module,
    Unload,
    Apply,
    Preview,
    Undo,
    Redo,
    Begin,
    Commit,
    Abandon,
    Show,
    Pretty,
    Diff,
    Trees,
    Modules,
    Text,
    History,
    Dump,
    /// Any word that starts no command.
    Other,
}

/// The keyword that this word is.
#[inline(always)]
pub(crate) fn keyword_of(word: &[u8]) -> Keyword
    ensures keyword { keyword_at word.now ≡ result }
    ensures without_memory { takes_no_memory_with word.now ≡ is_without_memory_after result }
{
    match word {
        b"tree" => Keyword::Tree,
        b"copy" => Keyword::Copy,
        b"drop" => Keyword::Drop,
        b"put" => Keyword::Put,
        b"annotate" => Keyword::Annotate,
        b"module" => Keyword::Module,
        b"unload" => Keyword::Unload,
        b"apply" => Keyword::Apply,
        b"preview" => Keyword::Preview,
        b"undo" => Keyword::Undo,
        b"redo" => Keyword::Redo,
        b"begin" => Keyword::Begin,
        b"commit" => Keyword::Commit,
        b"abandon" => Keyword::Abandon,
        b"show" => Keyword::Show,
        b"pretty" => Keyword::Pretty,
        b"diff" => Keyword::Diff,
        b"trees" => Keyword::Trees,
        b"modules" => Keyword::Modules,
        b"text" => Keyword::Text,
        b"history" => Keyword::History,
        b"dump" => Keyword::Dump,
        _ => Keyword::Other,
    }
}
