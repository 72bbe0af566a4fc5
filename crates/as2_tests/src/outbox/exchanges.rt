//! A document is sent by `exchange`, and the receipt in its answer settles it.
use crate::texts::{RECEIPT, RECEIPT_TYPE, stage};
use as2_agreement::Agreements;
use as2_exchange::{Answer, Event, Job, TryAnswer};
use as2_mdn::Detail;
use as2_records::Records;
use as2_station::Station;
use as2_text::Moment;
use script_http::exchanged;
use script_lines::Answer as Told;
use script_station::Stage;
use std::alloc::{AllocError, Global};
use std::io;
use std::io::{Read, Write};
use std::net::{OpenListener, OpenStream, Shutdown, TcpListener, TcpStream};
use std::test::Fail;

/// A station where the first try of a document for Buyer has begun.
#[derive(Drop)]
struct Begun {
    stage: Stage,
    job: Job,
}

impl Begun {
    fn new(alloc: Global) -> Result<Begun, Fail> {
        let mut stage = stage(alloc)?;
        let mut told = Told::new(alloc);
        let document = "1000 submit | Supplier | Buyer | abc";
        stage.played.take(&stage.settings, document, &mut told);
        match stage
            .played
            .take(&stage.settings, "1000 begin 1", &mut told)
        {
            Some(Ok(Answer::Job(job))) => Ok(Begun { stage, job }),
            _ => Err(Fail::new("no job")),
        }
    }

    /// Whether the answer settles the document as processed.
    fn is_settled(self, answer: TryAnswer) -> Result<bool, Fail> {
        let Begun { mut stage, .. } = self;
        let Some(moment) = Moment::new(1000) else {
            return Err(Fail::new("no moment"));
        };
        let outcome = Event::Outcome {
            number: 1,
            answer,
            moment,
        };
        let mut told = Told::new(stage.alloc);
        let Some((station, agreements)) = stage.played.ready(&stage.settings, &mut told) else {
            return Err(Fail::new("no station"));
        };
        let is_processed = settles(stage.alloc, station, agreements, outcome)?;
        Ok(is_processed && stands_settled(&mut stage)?)
    }
}

/// Whether the outcome settles its document as processed. The station is over any records, as all that the tests say needs no more.
fn settles<K: Records>(
    alloc: Global,
    station: &mut Station<K>,
    agreements: &Agreements,
    outcome: Event,
) -> Result<bool, Fail> {
    let said = station.step(alloc, agreements, outcome)?;
    Ok(matches!(said, Answer::Settled(Detail::Processed)))
}

/// It stands as settled by a receipt after one try.
fn stands_settled(stage: &mut Stage) -> Result<bool, Fail> {
    let mut told = Told::new(stage.alloc);
    let is_told = script_station::answer(stage, "document", "1", &mut told);
    Ok(is_told && told.whole()? == b"processed S, tries 1, idle, due -, receipt".as_slice())
}

/// What tells the end of the receipt: the end of the head before it, and what stands behind it.
#[derive(Clone, Copy)]
struct Framing {
    before: &'static [u8],
    behind: &'static [u8],
}

/// By its length, and in one chunk.
static FRAMINGS: [Framing; 2] = [
    Framing {
        before: b"\r\nContent-Length: 406\r\n\r\n",
        behind: b"",
    },
    Framing {
        before: b"\r\nTransfer-Encoding: chunked\r\n\r\n196\r\n",
        behind: b"\r\n0\r\n\r\n",
    },
];

/// Buyer's receipt as an answer over HTTP.
fn answer_text(alloc: Global, framing: Framing) -> Result<Vec<u8>, AllocError> {
    let mut text = Vec::new(alloc);
    for part in [
        b"HTTP/1.1 200 OK\r\nAS2-From: Buyer\r\nAS2-To: Supplier\r\nContent-Type: ".as_slice(),
        RECEIPT_TYPE.as_bytes(),
        framing.before,
        RECEIPT.as_bytes(),
        framing.behind,
    ] {
        text.extend_from_slice(part)?;
    }
    Ok(text)
}

#[test]
fn a_receipt_settles_what_was_sent(rt: HostRuntime) -> Result<(), Fail> {
    for framing in &FRAMINGS {
        let begun = Begun::new(rt.alloc())?;
        let text = answer_text(rt.alloc(), *framing)?;
        let mut sent = Vec::new(rt.alloc());
        let answer = exchanged(rt.alloc(), &begun.job, &mut text.as_slice(), &mut sent);
        assert!(rt; sent.as_slice() == begun.job.bytes.as_slice());
        assert!(rt; begun.is_settled(answer)?);
    }
    Ok(())
}

/// Sends the job over the loopback to an end that has written its answer before, and reads there what came.
fn sent_over_the_loopback(
    rt: &HostRuntime,
    job: &Job,
    answer: &[u8],
    sent: &mut Vec<u8>,
) -> io::Result<TryAnswer> {
    let listener = TcpListener::bind(rt, "127.0.0.1:0")?;
    let mut client = TcpStream::connect(rt, listener.local_addr()?)?;
    let (mut partner, _) = listener.accept()?;
    partner.write_all(answer)?;
    let mut output = client.try_clone()?;
    let got = exchanged(rt.alloc(), job, &mut client, &mut output);
    output.shutdown(Shutdown::Write)?;
    partner.read_to_end(sent)?;
    Ok(got)
}

#[test]
fn a_document_is_sent_over_the_loopback(rt: HostRuntime) -> Result<(), Fail> {
    let begun = Begun::new(rt.alloc())?;
    let text = answer_text(rt.alloc(), FRAMINGS[0])?;
    let mut sent = Vec::new(rt.alloc());
    let Ok(answer) = sent_over_the_loopback(&rt, &begun.job, text.as_slice(), &mut sent) else {
        return Err(Fail::new("the sockets failed"));
    };
    assert!(rt; sent.as_slice() == begun.job.bytes.as_slice());
    assert!(rt; begun.is_settled(answer)?);
    Ok(())
}
