//! Laws over definitions alone: about runs, and about the bounds that definitions name.

ghost use Rattle.std.specs.Prelude.{◌≡◌, ◌+◌, ◌&&◌, ℕ, List, length, Some, None, nat_le, if◌then◌else◌};
ghost use Rattle.term_core.specs.Word.{is_word, label_of};
ghost use Rattle.term_core.specs.Tree.{Tree};
ghost use Rattle.term_core.specs.Size.{fits, height, size};
ghost use Rattle.prim_core.specs.Signature.{Signature};
ghost use Rattle.session_history.specs.History.{History, default_limits, empty_history};
ghost use Rattle.script_text.specs.Form.{budget_or, up_to};
ghost use Rattle.script_text.specs.Replies.{budgets_in};
ghost use Rattle.term_core.specs.declared.TheConstants.{MAX_HEIGHT, MAX_ROOM, MAX_SIZE};
ghost use Rattle.aterm_text.specs.declared.TheConstants.{MAX_NESTING};
ghost use Rattle.strategy_tokens.specs.declared.TheConstants.{MAX_TOKENS};
ghost use Rattle.session_history.specs.declared.TheConstants.{MAX_BUDGET, MAX_STEPS, MOST_STEPS};
ghost use Rattle.script_text.specs.declared.TheConstants.{MAX_COMMAND};
ghost use Rattle.script_core.specs.declared.buffer.TheConstants.{ANSWER_ROOM};
ghost use Rattle.script_core.specs.declared.running.TheConstants.{MAX_READS};
ghost use Rattle.script_text.specs.Laws.{OneRun, DumpReadsBack, DumpIsAnswered, GreaterLimitsAnswerTheSame, LimitsAreKept};

use aterm_text::laws::{
    one_term, printed_text_is_as_long, printed_text_is_one_line, printed_text_nests,
    printed_text_reads_back,
};
use strategy_meaning::laws::more_room_gives_the_same;
use strategy_parse::laws::{one_module, one_result};

/// A run of commands has one outcome, given which of them were refused memory.
pub fn one_run()
    ensures { OneRun }
{
    // Called for their contracts: a text is at most one tree, one list of annotations, one module
    // and one strategy.
    one_term();
    one_module();
    one_result();
}

/// A dump reads back: run on a session with empty contents, no open group and room for at least
/// 100,000 terms, the dump of contents restores the same contents, and every answer is `ok`. This
/// holds if the contents are sound under the session's primitives, commands can give the module
/// texts, no command of the dump is longer than 65,536 bytes, and memory can grow.
pub fn dump_reads_back()
    ensures contents { DumpReadsBack }
    ensures answered { DumpIsAnswered }
{
    // Called for their contracts: the printed text of a tree is one line, within the bounds, and
    // reads back as that tree; and a run has one outcome.
    one_run();
    printed_text_reads_back();
    printed_text_is_one_line();
    printed_text_nests();
    printed_text_is_as_long();
}

/// No command changes the limits of a session, nor its primitives.
pub fn limits_are_kept()
    ensures { LimitsAreKept }
{}

/// A run in which every command is accepted has the same answers with greater limits, and leads to the
/// same trees, modules and steps.
pub fn greater_limits_answer_the_same()
    ensures { GreaterLimitsAnswerTheSame }
{
    // Called for its contract: what a strategy gives in some room it gives in more.
    more_room_gives_the_same();
}

/// By default a term fits if its level and height are together at most 1,000 and its size is at
/// most 100,000; a command may name a budget from 1 to 1,000,000.
pub fn limits_by_default()
    ensures session { (primitives : List Signature) → (empty_history primitives).limits ≡ default_limits }
    ensures terms { (level : ℕ) (t : Tree) → fits default_limits.max_terms level t
        ≡ (nat_le (level + height t) 1000 && nat_le (size t) 100000) }
    ensures steps { (h : History) (budget : ℕ) (word : List ℕ) → h.limits ≡ default_limits
        → budget_or (budgets_in h budget) (Some word) ≡ up_to 1000000 word }
{}

/// The values of the bounds that definitions name: the height and the size of terms, the bytes of
/// names, the open brackets in a term's text, the tokens of a strategy's or module's text, the
/// bytes of commands, the steps of `undo` and `redo`, budgets, the reads of a run, and the least
/// capacity of an answer's buffer. Size and budget have two bounds: the default, and the greatest
/// that options allow.
pub fn bounds()
    ensures height { MAX_HEIGHT ≡ 1000 }
    ensures size { MAX_SIZE ≡ 100000 }
    ensures greatest_size { MAX_ROOM ≡ 1000000000 }
    ensures label { (name : List ℕ) → label_of name
        ≡ (if is_word name && nat_le (length name) 64 then Some name else None) }
    ensures nesting { MAX_NESTING ≡ 1000 }
    ensures tokens { MAX_TOKENS ≡ 4000 }
    ensures command { MAX_COMMAND ≡ 65536 }
    ensures steps { MAX_STEPS ≡ 1000000 }
    ensures budget { MAX_BUDGET ≡ 1000000 }
    ensures greatest_budget { MOST_STEPS ≡ 4000000000 }
    ensures reads { MAX_READS ≡ 1000000000 }
    ensures room { ANSWER_ROOM ≡ 128 }
{}
