//! The lines of a text, each with its line end.

ghost use Rattle.std.specs.Prelude.{◌≡◌, ◌<◌, ◌∷◌, ◌++◌, length, reverse};
ghost use Rattle.as2_parts.specs.Lines.{lines, is_empty_line, without_return, without_line_end};

/// The first line of a text, with its line end, and what stands behind it.
pub fn first_line(text: &[u8]) -> (&[u8], &[u8])
    requires { 0 < length text.now }
    ensures first { lines text.now ≡ result.0.now ∷ lines result.1.now }
    ensures whole { text.now ≡ result.0.now ++ result.1.now }
    ensures some { 0 < length result.0.now }
{
    for (i, b) in text.iter().enumerate() {
        if *b == b'\n' {
            return text.split_at(i + 1);
        }
    }
    text.split_at(text.len())
}

/// Whether the line is a line end and nothing else.
pub fn is_empty_line(line: &[u8]) -> bool
    ensures { result ≡ is_empty_line line.now }
{
    line == b"\n".as_slice() || line == b"\r\n".as_slice()
}

/// The text without a CR at its end.
fn without_return(text: &[u8]) -> &[u8]
    ensures { result.now ≡ reverse (without_return (reverse text.now)) }
{
    if let [front @ .., b'\r'] = text {
        front
    } else {
        text
    }
}

/// The text without the line end at its end, if it has one.
pub fn without_line_end(text: &[u8]) -> &[u8]
    ensures { result.now ≡ without_line_end text.now }
{
    if let [front @ .., b'\n'] = text {
        without_return(front)
    } else {
        text
    }
}
