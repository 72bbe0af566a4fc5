//! A connection whose requests are a text.
ghost use Rattle.as2_exchange.specs.State.{State};
ghost use Rattle.as2_http.specs.Devices.{OpensLedger};
ghost use Rattle.as2_http.specs.StreamReads.{RunsPosts};

use super::CallCounts;
use as2_agreement::Agreements;
use as2_http::{Counted, Journal, Served, serve_stream};
use as2_records::Records;
use as2_station::Station;
use as2_text::Moment;
use script_lines::bytes_of;
use std::alloc::Global;
use std::marker::Brand;
use std::sync::ledger::{Blank, Ledger};

/// Serves the requests of bytes, with counts of the calls that are made of them, and of those that write the replies.
fn serve_counted<K: Records, J: Journal, A: Ledger, B: Ledger, C: Ledger, D: Ledger>(
    alloc: Global,
    agreements: &Agreements,
    moment: Moment,
    station: &mut Station<K>,
    bytes: &[u8],
    journal: &mut J,
    reads: CallCounts,
    writes: CallCounts,
) -> Served
    requires reads { OpensLedger reads.calls.name reads.calls.parts A.name A.parts }
    requires failed_reads { OpensLedger reads.failed.name reads.failed.parts B.name B.parts }
    requires writes { OpensLedger writes.calls.name writes.calls.parts C.name C.parts }
    requires failed_writes { OpensLedger writes.failed.name writes.failed.parts D.name D.parts }
    ensures clean { (K.shows station.new).IsClean → (K.shows station.old).IsClean }
    ensures posts { (K.shows station.new).IsClean → (s : State) → (K.shows station.old).Rests s
        → (t : State) × (K.shows station.new).Rests t × RunsPosts agreements.now moment s t }
{
    let mut source: Counted<&[u8], A, B> = Counted::new(bytes, reads.calls, reads.failed);
    let replies = Vec::new(alloc);
    let mut sink: Counted<Vec<u8>, C, D> = Counted::new(replies, writes.calls, writes.failed);
    serve_stream(
        alloc,
        agreements,
        moment,
        station,
        &mut source,
        &mut sink,
        journal,
    )
}

/// Serves the requests of a text at that moment. A text that can't be read is a `ReadFault`.
pub fn serve_text<K: Records, J: Journal>(
    alloc: Global,
    agreements: &Agreements,
    moment: Moment,
    station: &mut Station<K>,
    text: &str,
    journal: &mut J,
) -> Served
    ensures clean { (K.shows station.new).IsClean → (K.shows station.old).IsClean }
    ensures posts { (K.shows station.new).IsClean → (s : State) → (K.shows station.old).Rests s
        → (t : State) × (K.shows station.new).Rests t × RunsPosts agreements.now moment s t }
{
    let Ok(bytes) = bytes_of(alloc, text) else {
        return Served::ReadFault;
    };
    serve_counted::<K, J, Brand, Brand, Brand, Brand>(
        alloc,
        agreements,
        moment,
        station,
        bytes.as_slice(),
        journal,
        CallCounts {
            calls: Blank::new(1),
            failed: Blank::new(1),
        },
        CallCounts {
            calls: Blank::new(1),
            failed: Blank::new(1),
        },
    )
}
