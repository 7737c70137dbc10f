//! Diagnostics as JSON. Bytes that aren't UTF-8 become the character U+FFFD.

use crate::diagnostic::{Diagnostic, Kept, Label, LabelPlace, Line, LineKind, Severity};
use serde::Serialize;
use std::alloc::{AllocError, Global};

// A diagnostic as it is written. What it hasn't got is left out.
#[derive(Serialize)]
struct Written {
    severity: &'static str,
    #[serde(skip_serializing_if = "Option::is_none")]
    number: Option<u8>,
    code: &'static str,
    #[serde(skip_serializing_if = "Option::is_none")]
    answer: Option<String>,
    #[serde(skip_serializing_if = "Option::is_none")]
    line: Option<u64>,
    #[serde(skip_serializing_if = "Option::is_none")]
    file: Option<String>,
    #[serde(skip_serializing_if = "Option::is_none")]
    module: Option<String>,
    #[serde(skip_serializing_if = "Option::is_none")]
    definition: Option<String>,
    #[serde(skip_serializing_if = "Option::is_none")]
    subject: Option<String>,
    #[serde(skip_serializing_if = "Option::is_none")]
    ends: Option<bool>,
    message: String,
    labels: Vec<WrittenLabel>,
    #[serde(skip_serializing_if = "Vec::is_empty")]
    excerpt: Vec<String>,
    notes: Vec<WrittenNote>,
    #[serde(skip_serializing_if = "Option::is_none")]
    steps: Option<Vec<WrittenShare>>,
}

#[derive(Serialize)]
struct WrittenNote {
    kind: &'static str,
    message: String,
    labels: Vec<WrittenLabel>,
    #[serde(skip_serializing_if = "Option::is_none")]
    replace: Option<WrittenReplacement>,
}

// A place in a text, or a path in a tree. `said` are the bytes of the message that say where it is.
#[derive(Serialize)]
struct WrittenLabel {
    #[serde(skip_serializing_if = "Option::is_none")]
    module: Option<String>,
    #[serde(skip_serializing_if = "Option::is_none")]
    span: Option<(usize, usize)>,
    #[serde(skip_serializing_if = "Option::is_none")]
    line: Option<u64>,
    #[serde(skip_serializing_if = "Option::is_none")]
    column: Option<u64>,
    #[serde(skip_serializing_if = "Option::is_none")]
    path: Option<String>,
    said: (usize, usize),
}

#[derive(Drop, Serialize)]
struct WrittenReplacement {
    span: (usize, usize),
    with: String,
}

#[derive(Drop, Serialize)]
struct WrittenShare {
    definition: Option<String>,
    steps: u64,
}

impl Drop for Written {
    fn drop(self) {
        let Written {
            severity: _,
            number: _,
            code: _,
            answer: _,
            line: _,
            file: _,
            module: _,
            definition: _,
            subject: _,
            ends: _,
            message: _,
            labels: _,
            excerpt: _,
            notes: _,
            steps: _,
        } = self;
    }
}

impl Drop for WrittenNote {
    fn drop(self) {
        let WrittenNote {
            kind: _,
            message: _,
            labels: _,
            replace: _,
        } = self;
    }
}

impl Drop for WrittenLabel {
    fn drop(self) {
        let WrittenLabel {
            module: _,
            span: _,
            line: _,
            column: _,
            path: _,
            said: _,
        } = self;
    }
}

impl Diagnostic {
    /// Appends it as a line of JSON, with a line feed.
    ///
    /// Errors: `AllocError` if memory can't grow.
    pub fn write_json(&self, alloc: Global, out: &mut Vec<u8>) -> Result<(), AllocError> {
        let written = self.written(alloc)?;
        match serde_json::to_string(alloc, &written) {
            Ok(text) => out.extend_from_slice(text.as_bytes())?,
            Err(_) => return Err(AllocError),
        }
        Ok(out.push(b'\n')?)
    }

    fn written(&self, alloc: Global) -> Result<Written, AllocError> {
        let mut written = Written {
            severity: self.severity.word(),
            number: (self.code.number > 0).then_some(self.code.number),
            code: self.code.word,
            answer: None,
            line: None,
            file: None,
            module: None,
            definition: None,
            subject: None,
            ends: self.ends.then_some(true),
            message: String::new(alloc),
            labels: Vec::new(alloc),
            excerpt: Vec::new(alloc),
            notes: Vec::new(alloc),
            steps: None,
        };
        match self.file {
            Some(file) => written.file = Some(self.kept_text(alloc, file)?),
            None => written.line = Some(self.line),
        }
        if let Some((module, definition)) = self.cause {
            written.module = Some(self.kept_text(alloc, module)?);
            written.definition = Some(self.kept_text(alloc, definition)?);
        }
        if let Some(subject) = self.subject {
            written.subject = Some(self.kept_text(alloc, subject)?);
        }
        self.write_lines(alloc, &mut written)?;
        if self.severity == Severity::Profile {
            written.steps = Some(self.written_shares(alloc)?);
        }
        Ok(written)
    }

    fn write_lines(&self, alloc: Global, written: &mut Written) -> Result<(), AllocError> {
        for (number, line) in self.lines.iter().enumerate() {
            match line.kind {
                LineKind::Answer => written.answer = Some(self.line_text(alloc, number)?),
                LineKind::Message => {
                    written.message = self.line_text(alloc, number)?;
                    written.labels = self.written_labels(alloc, number)?;
                }
                LineKind::Note => self.write_note(alloc, number, line, "note", written)?,
                LineKind::Fault => self.write_note(alloc, number, line, "fault", written)?,
                LineKind::Help => self.write_note(alloc, number, line, "help", written)?,
                LineKind::Excerpt => written.excerpt.push(self.line_text(alloc, number)?)?,
            }
        }
        Ok(())
    }

    // A line that says nothing is left out.
    fn write_note(
        &self,
        alloc: Global,
        number: usize,
        line: &Line,
        kind: &'static str,
        written: &mut Written,
    ) -> Result<(), AllocError> {
        if self.line_bytes(number).is_empty() {
            return Ok(());
        }
        let mut note = WrittenNote {
            kind,
            message: self.line_text(alloc, number)?,
            labels: self.written_labels(alloc, number)?,
            replace: None,
        };
        if let Some(replacement) = line.replacement {
            note.replace = Some(WrittenReplacement {
                span: (replacement.span.start, replacement.span.end),
                with: self.kept_text(alloc, replacement.with)?,
            });
        }
        Ok(written.notes.push(note)?)
    }

    fn written_labels(
        &self,
        alloc: Global,
        number: usize,
    ) -> Result<Vec<WrittenLabel>, AllocError> {
        let mut labels = Vec::new(alloc);
        for label in self.labels_of(number) {
            let written = self.written_label(alloc, label, number)?;
            labels.push(written)?;
        }
        Ok(labels)
    }

    // The number of bytes that are written for those of a line up to this one of all.
    fn written_length(
        &self,
        alloc: Global,
        number: usize,
        end: usize,
    ) -> Result<usize, AllocError> {
        let start = self.lines.get(number).map_or(0, |line| line.start);
        let front = self.text.get(start..end).unwrap_or(&[]);
        Ok(String::from_utf8_lossy(alloc, front)?.len())
    }

    fn written_label(
        &self,
        alloc: Global,
        label: &Label,
        number: usize,
    ) -> Result<WrittenLabel, AllocError> {
        let mut written = WrittenLabel {
            module: None,
            span: None,
            line: None,
            column: None,
            path: None,
            said: (
                self.written_length(alloc, number, label.said.start)?,
                self.written_length(alloc, number, label.said.end)?,
            ),
        };
        match &label.place {
            LabelPlace::Text {
                module,
                span,
                line,
                column,
            } => {
                if let Some(module) = module {
                    written.module = Some(self.kept_text(alloc, *module)?);
                }
                if let Some(span) = span {
                    written.span = Some((span.start, span.end));
                }
                written.line = Some(*line);
                written.column = Some(*column);
            }
            LabelPlace::Tree(path) => written.path = Some(self.kept_text(alloc, *path)?),
        }
        Ok(written)
    }

    fn written_shares(&self, alloc: Global) -> Result<Vec<WrittenShare>, AllocError> {
        let mut shares = Vec::new(alloc);
        for share in &self.shares {
            let mut written = WrittenShare {
                definition: None,
                steps: share.steps,
            };
            if let Some(name) = share.name {
                written.definition = Some(self.kept_text(alloc, name)?);
            }
            shares.push(written)?;
        }
        Ok(shares)
    }

    fn line_text(&self, alloc: Global, number: usize) -> Result<String, AllocError> {
        String::from_utf8_lossy(alloc, self.line_bytes(number))
    }

    fn kept_text(&self, alloc: Global, kept: Kept) -> Result<String, AllocError> {
        String::from_utf8_lossy(alloc, self.kept_bytes(kept))
    }
}
