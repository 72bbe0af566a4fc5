//! A line for each request that the station answers, for whoever looks on.

ghost use Rattle.std.specs.Prelude.{◌<◌};

use as2_exchange::{HttpAnswer, HttpBody};
use as2_http::{Journal, name_told};
use as2_text::{AsName, Once};
use itoa::Buffer;
use std::alloc::Global;
use std::cell::RefCell;

/// The most bytes of a line. What is behind them is left out.
const MOST_BYTES: usize = 512;

/// The most bytes of a line before the status. What is behind them is left out, and two dots stand for it.
const MOST_BEFORE: usize = 400;

/// Lines that weren't taken yet, the oldest first. A line is lost where there is no memory for it, and stops nothing.
#[derive(Drop)]
pub struct Log {
    lines: RefCell<Vec<u8>>,
}

impl Log {
    /// There is none yet.
    pub fn new(alloc: Global) -> Log {
        Log {
            lines: RefCell::new(Vec::new(alloc)),
        }
    }

    /// The lines that weren't taken yet, each with LF behind it. They are taken.
    pub fn take(&self, alloc: Global) -> Vec<u8> {
        match self.lines.try_replace(Vec::new(alloc)) {
            Ok(lines) => lines,
            Err(_) => Vec::new(alloc),
        }
    }

    /// Adds a line, without LF.
    pub fn add(&self, line: &[u8]) {
        let line = &line[..line.len().min(MOST_BYTES)];
        if let Ok(mut lines) = self.lines.try_borrow_mut() {
            let _ = lines.extend_from_slice(line);
            let _ = lines.extend_from_slice(b"\n");
        }
    }
}

/// The hexadecimal digit of a number below 16.
fn digit(number: u8) -> u8
    requires { number < 16 }
{
    if number < 10 {
        b'0' + number
    } else {
        b'a' + (number - 10)
    }
}

/// Whether a byte stands for itself in a line: it prints, and is no quote and no backslash.
fn is_plain(byte: u8) -> bool {
    b'!' <= byte && byte <= b'~' && byte != b'"' && byte != b'\\'
}

/// A line that is put together. It is cut where there is no memory.
#[derive(Drop)]
pub(crate) struct LogLine {
    text: Vec<u8>,
}

impl LogLine {
    /// A line that begins so.
    pub(crate) fn new(alloc: Global, start: &[u8]) -> LogLine {
        let mut line = LogLine {
            text: Vec::new(alloc),
        };
        line.note(start);
        line
    }

    /// The line so far.
    pub(crate) fn text(&self) -> &[u8] {
        &self.text
    }

    /// Notes bytes as they were sent, with the number of each that isn't plain, as `\x20`.
    fn note_sent(&mut self, bytes: &[u8]) {
        for byte in bytes.iter().take(MOST_BEFORE) {
            if is_plain(*byte) {
                self.note(&[*byte]);
            } else {
                self.note(&[b'\\', b'x', digit(*byte / 16), digit(*byte % 16)]);
            }
        }
    }

    /// Notes the name that a field tells, as AS2 spells it (RFC 4130, section 6.2), or a dash. What was sent and is no name is noted as it was
    /// sent.
    pub(crate) fn note_name(&mut self, field: Once<'_>) {
        match field {
            Once::One(text) if AsName::parse(text).is_err() => self.note_sent(text),
            field => self.note(name_told(field).as_bytes()),
        }
    }

    /// Notes the status of an answer, and what it says.
    pub(crate) fn note_answer(&mut self, answer: &HttpAnswer) {
        if self.text.len() > MOST_BEFORE {
            self.text.truncate(MOST_BEFORE);
            self.note(b"..");
        }
        self.note(b" ");
        self.note(Buffer::new().format(answer.status).as_bytes());
        match &answer.body {
            HttpBody::Nothing => {}
            HttpBody::Words(line) => {
                self.note(b" ");
                self.note(line.text().as_bytes());
            }
            HttpBody::Report { out, .. } => {
                self.note(b" ");
                self.note(out.outcome.text().as_bytes());
            }
        }
    }
}

impl Journal for LogLine {
    ghost use Rattle.std.specs.Prelude.{None};

    ghost noted = { λ _. None };

    fn note(&mut self, text: &[u8]) {
        let _ = self.text.extend_from_slice(text);
    }
}
