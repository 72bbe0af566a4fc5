//! The lines of a script.
use std::alloc::{AllocError, Global};

/// A line of a script, with the lines of the text behind it.
#[derive(Drop)]
pub struct Line {
    /// Its number in the file, from 1.
    pub number: usize,
    pub text: String,
}

/// What a line adds to a text, and the line end behind it, as they are spelled in a script. `> ` begins a line that ends in CR LF,
/// `| ` one that ends in LF, `. ` one without an end. `! ` stands in a text itself.
fn piece_of(line: &str) -> Option<(&str, &'static str)> {
    if line.starts_with("!") {
        return Some((line, "\\n"));
    }
    let (piece, end) = if let Some(piece) = line.strip_prefix(">") {
        (piece, "\\r\\n")
    } else if let Some(piece) = line.strip_prefix("|") {
        (piece, "\\n")
    } else {
        (line.strip_prefix(".")?, "")
    };
    Some((piece.strip_prefix(" ").unwrap_or(piece), end))
}

/// Whether a line is one to be played.
fn is_played(line: &str) -> bool {
    !line.is_empty() && !line.starts_with("#")
}

/// Whether a text begins behind the line: behind `=>`, or behind `text NAME`.
fn begins_text(line: &str) -> bool {
    match line.strip_prefix("text ") {
        Some(name) => !name.contains(" "),
        None => line.ends_with("=>"),
    }
}

/// Adds a piece of a text to the line that it stands behind.
fn add_piece(line: &mut Line, piece: &str, end: &str) -> Result<(), AllocError> {
    if begins_text(line.text.as_str()) {
        line.text.push_str(" ")?;
    }
    line.text.push_str(piece)?;
    line.text.push_str(end)
}

/// The lines of a script, without empty ones and comments.
pub fn lines_of(alloc: Global, text: &str) -> Result<Vec<Line>, AllocError> {
    let mut lines: Vec<Line> = Vec::new(alloc);
    for (at, line) in text.lines().enumerate() {
        match (piece_of(line), lines.last_mut()) {
            (Some((piece, end)), Some(last)) => add_piece(last, piece, end)?,
            _ if is_played(line) => lines.push(Line {
                number: at.saturating_add(1),
                text: String::from_str(alloc, line)?,
            })?,
            _ => {}
        }
    }
    Ok(lines)
}
