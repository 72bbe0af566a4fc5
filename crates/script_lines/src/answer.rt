//! What is answered to a line, and how its words are read.
use crate::settings::Settings;
use crate::texts;
use crate::trouble::Trouble;
use std::alloc::{AllocError, Global};
use std::fmt::Debug;
use std::str;

/// The bytes that are answered, or the first trouble that came: why the line can't be played. Nothing is said behind it, and a word
/// that can't be read is read as something all the same, so that verbs go straight on.
#[derive(Drop)]
pub struct Answer {
    alloc: Global,
    /// What was said; a writer may add to it.
    pub bytes: Vec<u8>,
    trouble: Option<Trouble>,
}

impl Answer {
    pub fn new(alloc: Global) -> Answer {
        Answer {
            alloc,
            bytes: Vec::new(alloc),
            trouble: None,
        }
    }

    /// What all that is said and read is made with.
    pub fn alloc(&self) -> Global {
        self.alloc
    }

    /// All that was said, unless there was trouble.
    pub fn whole(&self) -> Result<&[u8], Trouble> {
        match self.trouble {
            Some(trouble) => Err(trouble),
            None => Ok(self.bytes.as_slice()),
        }
    }

    /// Whether nothing was said.
    pub fn is_empty(&self) -> bool {
        self.bytes.is_empty()
    }

    /// The line can't be played. The first trouble counts.
    pub fn fail(&mut self, trouble: Trouble) {
        if self.trouble.is_none() {
            self.trouble = Some(trouble);
        }
    }

    /// The line can't be read: what it lacks.
    pub fn lack(&mut self, lacks: &'static str) {
        self.fail(Trouble::Unreadable(lacks));
    }

    /// What was read or made, unless there is trouble.
    pub fn unless_trouble<T: Drop>(&mut self, made: Result<T, Trouble>) -> Option<T> {
        match made {
            Ok(value) => Some(value),
            Err(trouble) => {
                self.fail(trouble);
                None
            }
        }
    }

    /// What was made, unless memory runs out, which is all that can fail there.
    pub fn unless_memory<T: Drop, F: Drop>(&mut self, made: Result<T, F>) -> Option<T> {
        match made {
            Ok(value) => Some(value),
            Err(_) => {
                self.fail(Trouble::Memory);
                None
            }
        }
    }

    /// The bytes that a text spells; none where there is trouble.
    pub fn bytes_of(&mut self, text: &str) -> Vec<u8> {
        match texts::bytes_of(self.alloc, text) {
            Ok(bytes) => bytes,
            Err(trouble) => {
                self.fail(trouble);
                Vec::new(self.alloc)
            }
        }
    }

    /// The text with what its signs stand for; an empty one where there is trouble.
    pub fn expanded(&mut self, text: &str, settings: &Settings) -> String {
        match texts::expanded(self.alloc, text, settings) {
            Ok(text) => text,
            Err(trouble) => {
                self.fail(trouble);
                String::new(self.alloc)
            }
        }
    }

    /// The bytes as a text; an empty one where there is trouble.
    pub fn text_of<'a>(&mut self, bytes: &'a [u8]) -> &'a str {
        match str::from_utf8(bytes) {
            Ok(text) => text,
            Err(_) => {
                self.lack("no UTF-8");
                ""
            }
        }
    }

    /// The number that a word spells, or else 0.
    pub fn number_in(&mut self, word: &str) -> u64 {
        match word.parse::<u64>() {
            Ok(number) => number,
            Err(_) => {
                self.lack("no number");
                0
            }
        }
    }

    /// The length that a word spells, or else 0.
    pub fn length_in(&mut self, word: &str) -> usize {
        let length = self.number_in(word);
        usize::try_from(length).unwrap_or(usize::MAX)
    }

    /// The length that a word spells, which isn't 0, or else 1.
    pub fn step_in(&mut self, word: &str) -> usize {
        let step = self.length_in(word);
        if step == 0 {
            self.lack("no step");
            return 1;
        }
        step
    }

    /// The first word, and what stands behind ` | `.
    pub fn two_words<'a>(&mut self, rest: &'a str) -> (&'a str, &'a str) {
        self.cut(rest, " | ", "no two words")
    }

    /// What stands before a mark and behind it, or else all before it.
    pub fn cut<'a>(
        &mut self,
        rest: &'a str,
        mark: &str,
        lacks: &'static str,
    ) -> (&'a str, &'a str) {
        match rest.split_once(mark) {
            Some(words) => words,
            None => {
                self.lack(lacks);
                (rest, "")
            }
        }
    }

    /// Answers with those bytes, behind what is answered already.
    pub fn say_bytes(&mut self, bytes: &[u8]) {
        if self.trouble.is_none() && self.bytes.extend_from_slice(bytes).is_err() {
            self.trouble = Some(Trouble::Memory);
        }
    }

    pub fn say(&mut self, text: &str) {
        self.say_bytes(text.as_bytes());
    }

    /// Answers with a text that may have been made, and else with less than a whole answer.
    pub fn say_made(&mut self, text: Result<String, AllocError>) {
        match text {
            Ok(text) => self.say(text.as_str()),
            Err(_) => self.fail(Trouble::Memory),
        }
    }

    pub fn say_number(&mut self, number: u64) {
        self.say_made(number.to_string(self.alloc));
    }

    /// Answers with one word or the other.
    pub fn say_whether(&mut self, holds: bool) {
        self.say(if holds { "yes" } else { "no" });
    }

    /// Answers with the bytes, or `nothing`.
    pub fn say_or_nothing(&mut self, bytes: Option<&[u8]>) {
        self.say_bytes(bytes.unwrap_or(b"nothing"));
    }

    /// Answers with a value by its name.
    pub fn say_name<T: Debug>(&mut self, value: &T) {
        self.say_made(format!(in self.alloc; "{value:?}"));
    }

    /// The same in small letters.
    pub fn say_small<T: Debug>(&mut self, value: &T) {
        let mut name = format!(in self.alloc; "{value:?}");
        if let Ok(name) = &mut name {
            name.make_ascii_lowercase();
        }
        self.say_made(name);
    }

    /// What was read. Answers with the fault where it can't be.
    pub fn unless_fault<T: Drop, F: Debug + Drop>(&mut self, read: Result<T, F>) -> Option<T> {
        match read {
            Ok(value) => Some(value),
            Err(fault) => {
                self.say_fault(&fault);
                None
            }
        }
    }

    /// What was found. Answers with the fault, or with `nothing` where it isn't there.
    pub fn unless_absent<T: Drop, F: Debug + Drop>(
        &mut self,
        found: Result<Option<T>, F>,
    ) -> Option<T> {
        let found = self.unless_fault(found)?;
        if found.is_none() {
            self.say("nothing");
        }
        found
    }

    /// Answers with the name of a fault.
    pub fn say_fault<F: Debug>(&mut self, fault: &F) {
        self.say("fault ");
        self.say_name(fault);
    }

    /// Answers with the bytes in brackets.
    pub fn say_in_brackets(&mut self, bytes: &[u8]) {
        self.say(if self.is_empty() { "[" } else { " [" });
        self.say_bytes(bytes);
        self.say("]");
    }

    /// Answers with what is told again and again, once where that is the same each time.
    pub fn say_same(&mut self, told: &[u8]) {
        if self.bytes.as_slice() == told {
            return;
        }
        if !self.is_empty() {
            self.say(" or ");
        }
        self.say_bytes(told);
    }
}

/// How a script spells that byte; None for one that is itself.
fn spelling(byte: u8) -> Option<&'static str> {
    match byte {
        b'\r' => Some("\\r"),
        b'\n' => Some("\\n"),
        b'\t' => Some("\\t"),
        b'\\' => Some("\\\\"),
        b'{' => Some("\\{"),
        _ => None,
    }
}

/// The bytes as a script spells them.
pub fn spelled(alloc: Global, bytes: &[u8]) -> Result<String, AllocError> {
    let mut text = String::new(alloc);
    for byte in bytes {
        if let Some(spelling) = spelling(*byte) {
            text.push_str(spelling)?;
        } else if byte.is_ascii_graphic() || *byte == b' ' {
            text.push(char::from(*byte))?;
        } else {
            text.push_str(format!(in alloc; "\\x{byte:02x}")?.as_str())?;
        }
    }
    Ok(text)
}
