//! The arguments of a line, which ` | ` parts, and names in them.
use as2_mic::Pieces;
use as2_text::{AsName, IdFault, MessageId, Moment};
use script_lines::{Answer, Trouble, number_in};
use std::fmt::Debug;

/// The arguments of a line that are left.
#[derive(Drop)]
pub struct Arguments<'a> {
    /// They, as they are spelled.
    pub rest: &'a str,
}

impl<'a> Arguments<'a> {
    pub fn of(rest: &'a str) -> Arguments<'a> {
        Arguments { rest }
    }

    /// The next one, as it is spelled; empty where none is left.
    pub fn word(&mut self) -> &'a str {
        let (word, rest) = self.rest.split_once(" | ").unwrap_or((self.rest, ""));
        self.rest = rest;
        word
    }

    /// What stands before the next ` || `, or else all that is left.
    pub fn part(&mut self) -> &'a str {
        let (part, rest) = self.rest.split_once(" || ").unwrap_or((self.rest, ""));
        self.rest = rest;
        part
    }

    /// The bytes that the next one spells.
    pub fn bytes(&mut self, answer: &mut Answer) -> Vec<u8> {
        answer.bytes_of(self.word())
    }

    /// The number that the next one is.
    pub fn number(&mut self, answer: &mut Answer) -> u64 {
        answer.number_in(self.word())
    }

    /// How many bytes there are, as the next one says.
    pub fn length(&mut self, answer: &mut Answer) -> usize {
        answer.length_in(self.word())
    }

    /// The moment of so many seconds, as the next one says.
    pub fn moment(&mut self, answer: &mut Answer) -> Option<Moment> {
        let moment = match number_in(self.word()) {
            Ok(seconds) => Moment::new(seconds),
            Err(_) => None,
        };
        if moment.is_none() {
            answer.lack("no moment");
        }
        moment
    }

    /// The name that the next one spells, as a field of a head does.
    pub fn name(&mut self, answer: &mut Answer) -> Option<AsName> {
        let field = self.bytes(answer);
        match AsName::parse(field.as_slice()) {
            Ok(name) => Some(name),
            Err(_) => {
                answer.lack("no AS2 name");
                None
            }
        }
    }

    /// The identifier that the next one is.
    pub fn identifier(&mut self, answer: &mut Answer) -> Option<MessageId> {
        let field = self.bytes(answer);
        match MessageId::parse(answer.alloc(), field.as_slice()) {
            Ok(id) => Some(id),
            Err(fault) => {
                answer.fail(match fault {
                    IdFault::Memory => Trouble::Memory,
                    _ => Trouble::Unreadable("no identifier"),
                });
                None
            }
        }
    }

    /// The content that the next one spells.
    pub fn content(&mut self, answer: &mut Answer) -> Pieces {
        let bytes = self.bytes(answer);
        pieces_of(bytes.as_slice(), answer)
    }
}

/// What stands between the marks of a text.
pub fn parts_of<'a>(text: &'a str, mark: &str, answer: &mut Answer) -> Vec<&'a str> {
    let mut parts = Vec::new(answer.alloc());
    for part in text.split(mark) {
        let pushed = parts.push(part);
        answer.unless_memory(pushed);
    }
    parts
}

/// The bytes in pieces.
pub fn pieces_of(bytes: &[u8], answer: &mut Answer) -> Pieces {
    let mut pieces = Pieces::new(answer.alloc());
    let appended = pieces.append(bytes);
    answer.unless_memory(appended);
    pieces
}

/// Whether the value is spelled so in Rattle.
fn is_spelled<T: Debug>(value: &T, word: &str, answer: &mut Answer) -> bool {
    match format!(in answer.alloc(); "{value:?}") {
        Ok(spelled) => spelled.as_str() == word,
        Err(_) => {
            answer.fail(Trouble::Memory);
            false
        }
    }
}

/// The value that is spelled so in Rattle, of all that there are.
pub fn value_in<T: Copy + Debug>(
    word: &str,
    values: &[T],
    lacks: &'static str,
    answer: &mut Answer,
) -> Option<T> {
    for value in values {
        if is_spelled(value, word, answer) {
            return Some(*value);
        }
    }
    answer.lack(lacks);
    None
}
