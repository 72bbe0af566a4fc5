//! How far a long look through the records has come, on a terminal.
use crate::wall_clock::clock;
use as2_audit::{Mailbox, Watch};
use std::io;
use std::io::{IsTerminal, Write};

/// Says on standard error how far a look through the records has come, where that is a terminal: once a second at most, in one line for
/// each box. A look that takes less than a second says nothing.
#[derive(Drop)]
pub struct ProgressLine<'a> {
    rt: &'a HostRuntime,
    /// Standard error is a terminal.
    is_shown: bool,
    /// The second of the clock in which something was said last, or the look began.
    second: Option<u64>,
    /// A line is begun and not ended.
    is_open: bool,
}

impl<'a> ProgressLine<'a> {
    /// A look that hasn't begun.
    pub fn new(rt: &'a HostRuntime) -> ProgressLine<'a> {
        ProgressLine {
            rt,
            is_shown: rt.stderr().is_terminal(),
            second: None,
            is_open: false,
        }
    }

    /// Writes how far it is over what the line said before.
    fn say(&mut self, mailbox: Mailbox, entries: u64, all: u64) -> io::Result<()> {
        let word = mailbox.word();
        write!(self.rt.stderr(), "\rverify: {word} {entries} of {all}")
    }

    /// Ends the line.
    fn end(&mut self) -> io::Result<()> {
        self.rt.stderr().write_all(b"\n")
    }

    /// Whether another second has begun since something was said, or since the look began.
    fn is_due(&mut self) -> bool {
        let second = clock(self.rt);
        let is_first = self.second.is_none();
        let is_later = second != self.second;
        self.second = second;
        is_later && !is_first
    }
}

impl Watch for ProgressLine<'_> {
    fn looked_at(&mut self, mailbox: Mailbox, entries: u64, all: u64) {
        if !self.is_shown {
            return;
        }
        let is_last = entries == all;
        if self.is_due() || (is_last && self.is_open) {
            self.is_open = true;
            let _ = self.say(mailbox, entries, all);
        }
        if is_last && self.is_open {
            self.is_open = false;
            let _ = self.end();
        }
    }
}
