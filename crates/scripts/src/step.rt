//! A step of a script.

/// A step of a script.
#[derive(Clone, Copy)]
pub struct ScriptStep<'a> {
    pub(crate) text: &'a str,
}

impl<'a> ScriptStep<'a> {
    /// What is done, as its first line says it.
    pub fn head(&self) -> &'a str {
        let (head, _) = split_at_first(self.text, "\n");
        head
    }

    /// The lines between the first line and the first part, without empty ones at the end.
    pub fn cards(&self) -> &'a str {
        let (before_parts, _) = split_at_first(self.text, "\n= ");
        let (_, lines) = split_at_first(before_parts, "\n");
        lines.trim_end_matches('\n')
    }

    /// The lines of the part with this name, without empty ones at the end. Without such a part, an empty text.
    pub fn part(&self, name: &str) -> &'a str {
        for part in self.text.split("\n= ") {
            let (head, lines) = split_at_first(part, "\n");
            if head == name {
                return lines.trim_end_matches('\n');
            }
        }
        ""
    }
}

/// The text before the first separator, and the text after it. Without a separator, the whole text and an empty one.
pub fn split_at_first<'a>(text: &'a str, separator: &str) -> (&'a str, &'a str) {
    match text.split_once(separator) {
        Some((before, after)) => (before, after),
        None => (text, ""),
    }
}
