//! Lines for people: hints, and a line for each reply that is noted. Replies with status 503 are counted.
ghost use Rattle.std.specs.Prelude.{◌≡◌, ℕ};
ghost use Rattle.as2_host.specs.Busy.{busy_behind, is_busy_word};

use as2_audit::{Mailbox, Watch};
use as2_http::Journal;
use std::io;
use std::io::Write;

/// The word at the end of a reply's line that tells status 503.
const BUSY: &[u8] = b"503";

/// The end of a reply's line.
const LINE_END: &[u8] = b"\n";

/// What counts the replies with status 503 among those that are noted.
pub trait CountsBusy {
    // how many there were
    ghost counted: { Self → ℕ };

    /// How many there were.
    fn busy(&self) -> u64
        ensures { result ≡ counted self.now };
}

/// A journal that keeps nothing but how many replies had status 503.
#[derive(Clone, Copy, Debug)]
pub struct Tally {
    is_busy: bool,
    busy: u64,
}

impl Tally {
    /// There was none yet.
    pub fn new() -> Tally
        ensures { result.busy ≡ 0 }
    {
        Tally {
            is_busy: false,
            busy: 0,
        }
    }

    /// Takes a piece of a line into account: a line's last word is its status.
    fn count(&mut self, piece: &[u8])
        ensures word { self.new.is_busy ≡ is_busy_word piece.now }
        ensures busy { self.new.busy ≡ busy_behind self.old.busy self.old.is_busy piece.now }
    {
        if self.is_busy && piece == LINE_END {
            self.busy = self.busy.saturating_add(1);
        }
        self.is_busy = piece == BUSY;
    }
}

impl CountsBusy for Tally {
    ghost counted = { λ t. t.busy };

    fn busy(&self) -> u64 {
        self.busy
    }
}

impl Journal for Tally {
    ghost use Rattle.std.specs.Prelude.{None};

    ghost noted = { λ _. None };

    fn note(&mut self, text: &[u8]) {
        self.count(text);
    }
}

/// A writer of lines for people, where replies are noted, too, with somebody who watches a long look through the records. A line that
/// can't be written is lost, and stops nothing.
#[derive(Drop)]
pub struct Lines<E, P> {
    inner: E,
    watch: P,
    tally: Tally,
}

impl<E, P: Drop> Lines<E, P> {
    /// The lines are written to that, and that watches.
    pub fn new(inner: E, watch: P) -> Lines<E, P>
        ensures inner { result.inner ≡ inner }
        ensures watch { result.watch ≡ watch }
        ensures busy { result.tally.busy ≡ 0 }
    {
        Lines {
            inner,
            watch,
            tally: Tally::new(),
        }
    }

    /// Gives back what the lines were written to.
    pub fn into_inner(self) -> E
        ensures { result ≡ self.inner }
    {
        let Lines { inner, .. } = self;
        inner
    }
}

impl<E: Write, P> Write for Lines<E, P> {
    ghost contents = { λ l. E.contents l.inner };

    fn write(&mut self, buf: &[u8]) -> io::Result<usize> {
        self.inner.write(buf)
    }

    fn flush(&mut self) -> io::Result<()> {
        self.inner.flush()
    }
}

impl<E: Write, P> Journal for Lines<E, P> {
    ghost use Rattle.std.specs.Prelude.{None};

    ghost noted = { λ _. None };

    fn note(&mut self, text: &[u8]) {
        self.tally.count(text);
        let _ = self.inner.write_all(text);
    }
}

impl<E, P: Watch> Watch for Lines<E, P> {
    fn looked_at(&mut self, mailbox: Mailbox, entries: u64, all: u64) {
        self.watch.looked_at(mailbox, entries, all);
    }
}

impl<E, P> CountsBusy for Lines<E, P> {
    ghost counted = { λ l. l.tally.busy };

    fn busy(&self) -> u64 {
        self.tally.busy
    }
}
