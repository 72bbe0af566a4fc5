//! The lists of a script.
//!
//! A list begins with a line `= TITLE`. A line that begins with `or` ends a list of its own, which has the lines before the first of
//! these too.
use crate::lines::Line;

/// Whether a line begins a list.
fn is_title(line: &Line) -> bool {
    line.text.as_str().starts_with("= ")
}

/// What the line has behind `or`, where it has that.
pub fn behind_or(line: &str) -> Option<&str> {
    if line == "or" {
        return Some("");
    }
    line.strip_prefix("or ")
}

/// Whether a line ends a list of its own.
fn is_other(line: &Line) -> bool {
    behind_or(line.text.as_str()).is_some()
}

/// The lines before the first title, and the others from it on.
pub fn before_title(lines: &[Line]) -> (&[Line], &[Line]) {
    for (at, line) in lines.iter().enumerate() {
        if is_title(line) {
            return lines.split_at(at);
        }
    }
    (lines, &[])
}

/// The lines before the first that ends a list of its own, and the others from it on.
pub fn before_other(lines: &[Line]) -> (&[Line], &[Line]) {
    for (at, line) in lines.iter().enumerate() {
        if is_other(line) {
            return lines.split_at(at);
        }
    }
    (lines, &[])
}
