//! Readers and writers, a call at a time, with counts of their calls.
ghost use Rattle.std.specs.Prelude.{◌≡◌, ◌+◌, ◌<◌, ◌≤◌, ℕ, List, Option, length, IfOk};
ghost use Rattle.std.specs.Io.KnownBytes.{ReadConsumes, WriteAppends};
ghost use Rattle.as2_http.specs.Devices.{OpensLedger, pull_faults, push_faults};

use std::io::{Read, Write};
use std::marker::Model;
use std::sync::ledger::{Blank, Book, Ledger, Share};

/// A call of a device failed.
#[derive(Clone, Copy, Debug, PartialEq, Eq)]
pub struct DeviceFault;

/// What gives bytes.
pub trait Source {
    // the bytes that are left, where the device tells them
    ghost left: { Self → Option (List ℕ) };

    // how many calls were made of it
    ghost calls: { Self → ℕ };

    // how many of them failed
    ghost failed: { Self → ℕ };

    /// Gives bytes, as many as `buf` takes at most, and tells how many; none only at the end, where `buf` takes some.
    fn pull(&mut self, buf: &mut [u8]) -> Result<usize, DeviceFault>
        ensures within { IfOk result (λ n. n ≤ length buf.new) }
        ensures bytes { ReadConsumes (left self.old) (left self.new) result buf.new }
        ensures calls { calls self.new ≡ calls self.old + 1 }
        ensures failed { failed self.new ≡ failed self.old + pull_faults result };
}

/// What takes bytes.
pub trait Sink {
    // the bytes that it has taken, where the device tells them
    ghost written: { Self → Option (List ℕ) };

    // how many calls were made of it
    ghost calls: { Self → ℕ };

    // how many of them failed, or took none of some bytes
    ghost failed: { Self → ℕ };

    /// Takes the first of the bytes, and tells how many.
    fn push(&mut self, bytes: &[u8]) -> Result<usize, DeviceFault>
        ensures within { IfOk result (λ n. n ≤ length bytes.now) }
        ensures bytes { WriteAppends (written self.old) (written self.new) result bytes.now }
        ensures calls { calls self.new ≡ calls self.old + 1 }
        ensures failed { failed self.new ≡ failed self.old + push_faults bytes.now result };
}

/// A count, of calls or of failed ones. It takes no bytes.
#[derive(Drop)]
pub struct Count<L: Ledger> {
    book: Book<L>,
    share: Share<L>,
}

impl<L: Ledger> Model for Count<L> {
    ghost use Rattle.std.specs.Prelude.{◌<◌, ℕ};

    ghost Value = { ℕ };

    ghost view = { λ c. c.book.total };

    ghost invariant = { λ c. 0 < c.share.parts };
}

impl<L: Ledger> Count<L> {
    /// Nothing is counted yet.
    fn new(blank: Blank) -> Count<L>
        requires { OpensLedger blank.name blank.parts L.name L.parts }
        ensures { result ≡ 0 }
    {
        let (book, share) = blank.open();
        Count { book, share }
    }

    /// Counts one more.
    fn add_one(&mut self)
        ensures { self.new ≡ self.old + 1 }
    {
        self.book.add(&mut self.share, 1);
    }
}

/// A standard reader or writer, with counts of its calls.
#[derive(Drop)]
pub struct Counted<T, L: Ledger, M: Ledger> {
    /// The reader or writer.
    pub inner: T,
    /// How many calls were made.
    pub calls: Count<L>,
    /// How many of them failed.
    pub failed: Count<M>,
}

impl<T, L: Ledger, M: Ledger> Counted<T, L, M> {
    /// Over this reader or writer; no call was made of it yet.
    pub fn new(inner: T, calls: Blank, failed: Blank) -> Counted<T, L, M>
        requires calls { OpensLedger calls.name calls.parts L.name L.parts }
        requires failed { OpensLedger failed.name failed.parts M.name M.parts }
        ensures inner { result.inner ≡ inner }
        ensures calls { result.calls ≡ 0 }
        ensures failed { result.failed ≡ 0 }
    {
        Counted {
            inner,
            calls: Count::new(calls),
            failed: Count::new(failed),
        }
    }

    /// Gives back what it is over.
    pub fn into_inner(self) -> T
        ensures { result ≡ self.inner }
    {
        let Counted { inner, .. } = self;
        inner
    }
}

impl<T: Read, L: Ledger, M: Ledger> Source for Counted<T, L, M> {
    ghost left = { λ c. T.remaining c.inner };

    ghost calls = { λ c. c.calls };

    ghost failed = { λ c. c.failed };

    fn pull(&mut self, buf: &mut [u8]) -> Result<usize, DeviceFault> {
        self.calls.add_one();
        match self.inner.read(buf) {
            Ok(count) => Ok(count),
            Err(_) => {
                self.failed.add_one();
                Err(DeviceFault)
            }
        }
    }
}

impl<T: Write, L: Ledger, M: Ledger> Sink for Counted<T, L, M> {
    ghost written = { λ c. T.contents c.inner };

    ghost calls = { λ c. c.calls };

    ghost failed = { λ c. c.failed };

    fn push(&mut self, bytes: &[u8]) -> Result<usize, DeviceFault> {
        self.calls.add_one();
        match self.inner.write(bytes) {
            Ok(count) => {
                if count == 0 && !bytes.is_empty() {
                    self.failed.add_one();
                }
                Ok(count)
            }
            Err(_) => {
                self.failed.add_one();
                Err(DeviceFault)
            }
        }
    }
}
