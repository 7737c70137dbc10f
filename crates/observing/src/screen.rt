//! Where an observer writes.

use diagnostic::{Diagnostic, Report};
use std::alloc::Global;

/// What takes the text of an observer.
pub trait Screen {
    /// Shows whole lines. What can't be shown is left out.
    fn show(&mut self, lines: &[u8]);
}

/// The form in which diagnostics are written.
#[derive(Clone, Copy)]
pub enum Form {
    /// As text, each first line with these words in front.
    Text(&'static str),
    /// As JSON, a line each.
    Json,
}

/// Writes diagnostics in a form to a screen. Those that memory can't grow for are left out.
#[derive(Drop)]
pub(crate) struct Writer<'s, S> {
    pub(crate) alloc: Global,
    pub(crate) form: Form,
    pub(crate) screen: &'s mut S,
}

impl<S: Screen> Report for Writer<'_, S> {
    fn report(&mut self, diagnostic: &Diagnostic) {
        if diagnostic.is_broken() {
            return;
        }
        let mut lines = Vec::new(self.alloc);
        let written = match self.form {
            Form::Text(before) => diagnostic.write_text(before, &mut lines),
            Form::Json => diagnostic.write_json(self.alloc, &mut lines),
        };
        if written.is_ok() {
            self.screen.show(&lines);
        }
    }
}
