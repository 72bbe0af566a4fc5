//! Links to partners over TCP, and why one brought no answer.
ghost use Rattle.std.specs.Prelude.{◌≡◌, ℕ, List, Some, true, IfOk, IsTrue};
ghost use Rattle.std.specs.Io.KnownBytes.{Appends};
ghost use Rattle.as2_http.specs.Devices.{OpensLedger};
ghost use Rattle.as2_http.specs.Sending.{AppendsPart};
ghost use Rattle.as2_messages.specs.Answering.{is_answered};
ghost use Rattle.as2_connections.specs.Linking.{AnswersInput, HasWaits, link_fault};

use crate::counts::CallCounts;
use crate::network::Stream;
use as2_commands::Waits;
use as2_exchange::{Job, TryAnswer};
use as2_http::{Counted, exchange};
use as2_sending::{LinkFault, Links};
use as2_sockets::{Limits, connect};
use std::alloc::Global;
use std::io;
use std::io::{ErrorKind, Read, Write};
use std::marker::Brand;
use std::sync::ledger::{Blank, Ledger};

/// What opens connections to partners.
#[derive(Clone, Copy)]
pub struct PartnerLinks<'a> {
    rt: &'a HostRuntime,
    waits: Waits,
    fault: LinkFault,
}

/// A reader or writer, and what kind of error it told last.
#[derive(Drop)]
struct LastError<T> {
    inner: T,
    last: Option<ErrorKind>,
}

impl<T> LastError<T> {
    fn new(inner: T) -> LastError<T> {
        LastError { inner, last: None }
    }
}

impl<T: Read> Read for LastError<T> {
    ghost remaining = { λ n. T.remaining n.inner };

    fn read(&mut self, buf: &mut [u8]) -> io::Result<usize> {
        match self.inner.read(buf) {
            Ok(count) => Ok(count),
            Err(error) => {
                self.last = Some(error.kind());
                Err(error)
            }
        }
    }
}

impl<T: Write> Write for LastError<T> {
    ghost contents = { λ n. T.contents n.inner };

    fn write(&mut self, buf: &[u8]) -> io::Result<usize> {
        match self.inner.write(buf) {
            Ok(count) => Ok(count),
            Err(error) => {
                self.last = Some(error.kind());
                Err(error)
            }
        }
    }

    fn flush(&mut self) -> io::Result<()> {
        self.inner.flush()
    }
}

/// What an exchange over a reader and a writer came to.
#[derive(Drop)]
struct ExchangeEnd<R, W> {
    got: TryAnswer,
    reader: R,
    writer: W,
}

/// Exchanges over a reader and a writer, with counts of the calls that are made of them.
fn exchange_counted<R: Read, W: Write, A: Ledger, B: Ledger, C: Ledger, D: Ledger>(
    alloc: Global,
    job: &Job,
    reader: R,
    writer: W,
    reads: CallCounts,
    writes: CallCounts,
) -> ExchangeEnd<R, W>
    requires reads { OpensLedger reads.calls.name reads.calls.parts A.name A.parts }
    requires failed_reads { OpensLedger reads.failed.name reads.failed.parts B.name B.parts }
    requires writes { OpensLedger writes.calls.name writes.calls.parts C.name C.parts }
    requires failed_writes { OpensLedger writes.failed.name writes.failed.parts D.name D.parts }
    ensures written { AppendsPart (W.contents writer) (W.contents result.writer) job.now.bytes }
    ensures whole { IsTrue (is_answered result.got)
        → Appends (W.contents writer) (W.contents result.writer) job.now.bytes }
    ensures answer { (input : List ℕ) → R.remaining reader ≡ Some input → AnswersInput input result.got }
{
    let mut source: Counted<R, A, B> = Counted::new(reader, reads.calls, reads.failed);
    let mut sink: Counted<W, C, D> = Counted::new(writer, writes.calls, writes.failed);
    let got = exchange(alloc, job, &mut source, &mut sink);
    ExchangeEnd {
        got,
        reader: source.into_inner(),
        writer: sink.into_inner(),
    }
}

/// Why no connection came about.
fn connect_fault(error: io::Error) -> LinkFault {
    match error.kind() {
        ErrorKind::ConnectionRefused => LinkFault::ConnectionRefused,
        ErrorKind::NotFound | ErrorKind::InvalidInput => LinkFault::UnknownHost,
        _ => LinkFault::NoConnection,
    }
}

/// Why a connection brought no answer, by the kind of the error that was told last.
fn link_fault(last: Option<ErrorKind>, waits: Waits) -> LinkFault
    ensures { result ≡ link_fault last waits.seconds }
{
    match last {
        None => LinkFault::NoAnswer,
        Some(ErrorKind::WouldBlock) => LinkFault::Silent(waits.seconds),
        Some(ErrorKind::TimedOut) => LinkFault::Slow(waits.seconds.saturating_mul(10)),
        Some(_) => LinkFault::Broken,
    }
}

impl<'a> PartnerLinks<'a> {
    /// Links whose peers are waited for so long.
    pub fn new(rt: &'a HostRuntime, waits: Waits) -> PartnerLinks<'a>
        ensures { result.waits ≡ waits }
    {
        PartnerLinks {
            rt,
            waits,
            fault: LinkFault::NoAnswer,
        }
    }

    /// A connection to the authority of a job, as its two ends: each waits as long as these links are to.
    fn open(&self, job: &Job) -> Result<(Stream<'a>, Stream<'a>), LinkFault>
        ensures waits { IfOk result (λ ends. HasWaits self.now.waits.seconds ends.0.timer.limits
            × HasWaits self.now.waits.seconds ends.1.timer.limits) }
    {
        let Ok(authority) = str::from_utf8(job.authority.as_slice()) else {
            return Err(LinkFault::UnknownHost);
        };
        let limits = Limits::of_seconds(self.waits.seconds);
        let reader = match connect(self.rt, authority, limits) {
            Ok(reader) => reader,
            Err(error) => return Err(connect_fault(error)),
        };
        match reader.try_clone() {
            Ok(writer) => Ok((reader, writer)),
            Err(_) => Err(LinkFault::NoConnection),
        }
    }
}

impl Links for PartnerLinks<'_> {
    ghost use Rattle.std.specs.Prelude.{◌≡◌};

    ghost answers = { λ old _ _ new. new.waits ≡ old.waits };

    fn exchange(&mut self, alloc: Global, job: &Job) -> TryAnswer {
        let (reader, writer) = match self.open(job) {
            Ok(ends) => ends,
            Err(fault) => {
                self.fault = fault;
                return TryAnswer::NoAnswer;
            }
        };
        let exchanged = exchange_counted::<
            LastError<Stream>,
            LastError<Stream>,
            Brand,
            Brand,
            Brand,
            Brand,
        >(
            alloc,
            job,
            LastError::new(reader),
            LastError::new(writer),
            CallCounts {
                calls: Blank::new(1),
                failed: Blank::new(1),
            },
            CallCounts {
                calls: Blank::new(1),
                failed: Blank::new(1),
            },
        );
        let last = exchanged.writer.last.or(exchanged.reader.last);
        self.fault = link_fault(last, self.waits);
        exchanged.got
    }

    fn fault(&self) -> LinkFault {
        self.fault
    }
}
