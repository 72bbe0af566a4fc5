//! Streams that are served over one station, which has nothing recorded at first.
ghost use Rattle.as2_http.specs.Devices.{OpensLedger};

use crate::texts::stage;
use as2_agreement::Agreements;
use as2_http::{Counted, Served, Sink, Source, Unnoted, serve_stream};
use as2_records::Records;
use as2_station::Station;
use as2_text::Moment;
use script_lines::{Answer, Trouble};
use script_station::Stage;
use std::alloc::Global;
use std::io::{Read, Write};
use std::marker::Brand;
use std::sync::ledger::{Blank, Ledger};
use std::test::Fail;

/// The station, at the moment 1000.
#[derive(Drop)]
pub(super) struct Fixture {
    moment: Moment,
    stage: Stage,
}

/// How the stream ends, over a station of any records.
fn stream_end<K: Records, R: Source, W: Sink>(
    alloc: Global,
    agreements: &Agreements,
    moment: Moment,
    station: &mut Station<K>,
    source: &mut R,
    sink: &mut W,
) -> Served {
    serve_stream(
        alloc,
        agreements,
        moment,
        station,
        source,
        sink,
        &mut Unnoted,
    )
}

impl Fixture {
    pub(super) fn new(alloc: Global) -> Result<Fixture, Fail> {
        let Some(moment) = Moment::new(1000) else {
            return Err(Fail::new("no moment"));
        };
        Ok(Fixture {
            moment,
            stage: stage(alloc)?,
        })
    }

    /// How a stream ends; the writer comes back.
    fn serve_counted<R: Read + Drop, W: Write + Drop, A: Ledger, B: Ledger, C: Ledger, D: Ledger>(
        &mut self,
        input: R,
        output: W,
        reads: Blank,
        failed_reads: Blank,
        writes: Blank,
        failed_writes: Blank,
    ) -> Result<(Served, W), Trouble>
        requires reads { OpensLedger reads.name reads.parts A.name A.parts }
        requires failed_reads { OpensLedger failed_reads.name failed_reads.parts B.name B.parts }
        requires writes { OpensLedger writes.name writes.parts C.name C.parts }
        requires failed_writes { OpensLedger failed_writes.name failed_writes.parts D.name D.parts }
    {
        let mut source: Counted<R, A, B> = Counted::new(input, reads, failed_reads);
        let mut sink: Counted<W, C, D> = Counted::new(output, writes, failed_writes);
        let alloc = self.stage.alloc;
        let mut answer = Answer::new(alloc);
        let ready = self.stage.played.ready(&self.stage.settings, &mut answer);
        let Some((station, agreements)) = ready else {
            return Err(Trouble::Unreadable("no station"));
        };
        let end = stream_end(
            alloc,
            agreements,
            self.moment,
            station,
            &mut source,
            &mut sink,
        );
        Ok((end, sink.into_inner()))
    }

    /// The same, where nobody looks at the counts.
    pub(super) fn serve<R: Read + Drop, W: Write + Drop>(
        &mut self,
        input: R,
        output: W,
    ) -> Result<(Served, W), Trouble> {
        self.serve_counted::<R, W, Brand, Brand, Brand, Brand>(
            input,
            output,
            Blank::new(1),
            Blank::new(1),
            Blank::new(1),
            Blank::new(1),
        )
    }
}
