//! The answer of `preview`.

ghost use Rattle.std.specs.Prelude.{◌≡◌, ◌++◌, length, false, OnOk};
ghost use Rattle.std.specs.List.{flat_map};
ghost use Rattle.script_text.specs.Form.{preview as preview_form};
ghost use Rattle.script_text.specs.Replies.{Replies, preview_line};
ghost use Rattle.script_core.specs.inside.Performing.{PerformedRight};
ghost use Rattle.script_core.specs.inside.PreviewLines.{AreIn, entry_line};

use crate::buffer::Answer;
use prim_core::Meaning;
use session_core::{Preview, Refusal, Session};
use term_core::{Label, NoMemory, Term};
use term_paths::{Path, at_parts};

/// Writes what applying the strategy at the path of the name's tree would replace.
pub(crate) fn show_preview<M: Meaning>(
    session: &mut Session<M>,
    name: &Label,
    path: &Path,
    budget: u32,
    text: &[u8],
    answer: &mut Answer,
) -> Result<(), Refusal>
    ensures { PerformedRight (Replies M.meaning (preview_form name.now path.now budget text.now) session.old) false result
        session.old session.new answer.new }
{
    let preview = session.preview(name, path, budget, text)?;
    let Some(tree) = session.tree(name) else {
        unreachable!()
    };
    Ok(answer.write_preview(tree, &preview)?)
}

impl Answer {
    fn write_preview(&mut self, tree: &Term, preview: &Preview) -> Result<(), NoMemory>
        requires { AreIn tree.now preview.now.plan }
        ensures { OnOk result (self.new
            ≡ preview_line (length preview.now.plan) preview.now.steps ++ flat_map (entry_line tree.now) preview.now.plan) }
    {
        let mut places = preview.places();
        self.write_totals(places.count() as u64, preview.steps)?;
        while let Some((path, new)) = places.next() {
            let Some(old) = at_parts(tree, path) else {
                unreachable!()
            };
            self.append_replacement(path, old, new)?;
        }
        Ok(())
    }

    // Writes the numbers of places and of steps.
    fn write_totals(&mut self, places: u64, steps: u64) -> Result<(), NoMemory>
        ensures { OnOk result (self.new ≡ preview_line places steps) }
    {
        self.clear();
        self.append(b"changes ")?;
        self.append_number(places)?;
        self.append(b" steps ")?;
        self.append_number(steps)?;
        self.push(b'\n')
    }
}
