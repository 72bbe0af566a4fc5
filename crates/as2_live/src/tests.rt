//! Two connections of a live station whose records are lists.
use crate::live::Live;
use crate::tries::TryBegun;
use as2_agreement::Agreements;
use as2_exchange::Next;
use as2_front::StationDesk;
use as2_hub::{Bounds, Hub};
use as2_links::LinkTable;
use as2_lists::Lists;
use as2_mic::Pieces;
use as2_records::Rounds;
use as2_sending::{LinkFault, Why};
use as2_station::{Became, NewDocument, Station};
use as2_text::{AsName, Moment};
use as2_views::Filter;
use std::test::Fail;

const AGREEMENTS: &str = r#"
domain = "station.example"

[[organization]]
name = "Supplier"

[[partner]]
name = "Buyer"
url = "http://127.0.0.1:8081/as2"
receipt = "sync"
digest = "sha1"
content_type = "application/edi-x12"
max_tries = 2
retry_seconds = 30
overdue_seconds = 60
"#;

const POST: &[u8] =
    b"POST /as2 HTTP/1.1\r\nAS2-Version: 1.0\r\nAS2-From: Buyer\r\nAS2-To: Supplier\r\nMessage-ID: <m1@buyer.example>\r\nContent-Type: application/edi-x12\r\nContent-Length: 5\r\n\r\nISA*0";

const GET: &[u8] = b"GET /as2 HTTP/1.1\r\n\r\n";

const FIRST: u64 = 1;

const BOUNDS: Bounds = Bounds {
    connections: 2,
    bytes_of_one: 2_000,
    bytes_of_all: 3_000,
    requests: 2,
};

/// So many seconds after the start of 1970.
fn moment(seconds: u64) -> Result<Moment, Fail> {
    Ok(Moment::new(seconds).ok_or("a moment")?)
}

#[test]
fn lives(rt: HostRuntime) -> Result<(), Fail> {
    let alloc = rt.alloc();
    let agreements = Agreements::read(alloc, AGREEMENTS)?;
    let station = Station::new(Lists::new(alloc, FIRST));
    let desk = StationDesk::new(alloc, &agreements, moment(0)?, station);
    let links = LinkTable::new(alloc, 1)?;
    let mut live = Live::new(Hub::new(alloc, BOUNDS)?, desk, links);
    assert!(rt; live.open(0) && live.open(1) && !live.open(1));
    assert_eq!(rt; live.hear(0, POST), POST.len());
    assert_eq!(rt; live.hear(1, GET), GET.len());
    live.answer(moment(1_700_000_000)?, &[1, 0]);
    assert!(rt; live.hub().output(0).starts_with(b"HTTP/1.1 200 OK\r\n"));
    assert!(rt;
        live.hub().output(1).starts_with(
            b"HTTP/1.1 405 Method Not Allowed\r\nDate: Tue, 14 Nov 2023 22:13:20 GMT\r\n"
        )
    );
    assert_eq!(rt; live.sent(1, 9), 9);
    assert!(rt; live.hub().output(1).starts_with(b"405 "));
    live.close(1);
    assert!(rt; live.hub().is_open(0) && !live.hub().is_open(1));
    let (_, desk, _) = live.into_parts();
    let mut station = desk.into_station();
    let listed = station.listing(alloc, Filter::Inbox)?;
    assert_eq!(rt; listed.lines().count(), 1);
    assert!(rt; listed.ends_with(" Buyer -> Supplier <m1@buyer.example>\n"));
    Ok(())
}

/// A document that is due: its try begins over a link, its request goes and an answer comes, in pieces.
#[test]
fn sends(rt: HostRuntime) -> Result<(), Fail> {
    let alloc = rt.alloc();
    let agreements = Agreements::read(alloc, AGREEMENTS)?;
    let mut station = Station::new(Lists::new(alloc, FIRST));
    let mut content = Pieces::new(alloc);
    content.append(b"ISA*0")?;
    let document = NewDocument {
        organization: AsName::plain(b"Supplier").ok().ok_or("a name")?,
        partner: AsName::plain(b"Buyer").ok().ok_or("a name")?,
        content,
    };
    let submitted = station.submit(alloc, &agreements, document, moment(10)?)?;
    assert!(rt; submitted == Ok(1));
    let desk = StationDesk::new(alloc, &agreements, moment(0)?, station);
    let links = LinkTable::new(alloc, 2)?;
    let mut live = Live::new(Hub::new(alloc, BOUNDS)?, desk, links);
    let what = Next::Document(1);
    assert!(rt; live.next_behind(moment(20)?, Some(Next::Document(0)))? == Some(what));
    assert!(rt; live.next_behind(moment(20)?, Some(what))?.is_none());
    let address = live.destination(what)?.ok_or("an address")?;
    assert!(rt; address.as_slice() == b"http://127.0.0.1:8081/as2".as_slice());
    assert!(rt; live.begin_try(1, what, moment(20)?) == TryBegun::Begun);
    assert!(rt; live.begin_try(0, what, moment(20)?) == TryBegun::NoPlace);
    assert_eq!(rt; live.links().place_for(what), Some(1));
    live.link_heard(1, b"HTTP/1.1 500 No\r\n");
    live.link_sent(1, usize::MAX);
    live.link_heard(1, b"HTTP/1.1 503 Service");
    live.link_heard(1, b" Unavailable\r\nContent-Length: 0\r\n\r\n");
    let ended = live
        .end_try(1, moment(21)?, LinkFault::Broken)
        .ok_or("a try")?;
    assert!(rt; ended.what == what && ended.why == Why::Status(503));
    assert!(rt; ended.said == Ok(Ok(Became::TryFailed)));
    assert!(rt; live.end_try(1, moment(21)?, LinkFault::Broken).is_none());
    Ok(())
}

/// This live station, behind a round that answered what waits at these places; or none, where its records failed.
fn behind_a_round<'a, K: Rounds + Drop>(
    live: Live<'a, K>,
    moment: Moment,
    ready: &[usize],
) -> Option<Live<'a, K>> {
    let Ok(mut round) = live.hold() else {
        return None;
    };
    round.answer(moment, ready);
    Live::<K>::commit(round).ok()
}

/// Two are answered in one round, which is committed before a byte goes.
#[test]
fn answers_two_in_a_round(rt: HostRuntime) -> Result<(), Fail> {
    let alloc = rt.alloc();
    let agreements = Agreements::read(alloc, AGREEMENTS)?;
    let station = Station::new(Lists::new(alloc, FIRST));
    let desk = StationDesk::new(alloc, &agreements, moment(0)?, station);
    let links = LinkTable::new(alloc, 1)?;
    let mut live = Live::new(Hub::new(alloc, BOUNDS)?, desk, links);
    assert!(rt; live.open(0) && live.open(1));
    assert_eq!(rt; live.hear(0, POST), POST.len());
    assert_eq!(rt; live.hear(1, GET), GET.len());
    let mut live = behind_a_round(live, moment(1_700_000_000)?, &[1, 0]).ok_or("a round")?;
    assert!(rt; live.hub().output(0).starts_with(b"HTTP/1.1 200 OK\r\n"));
    assert!(rt; live.hub().output(1).starts_with(b"HTTP/1.1 405 "));
    assert_eq!(rt; live.sent(1, 9), 9);
    assert!(rt; live.hub().output(1).starts_with(b"405 "));
    let (_, desk, _) = live.into_parts();
    let listed = desk.into_station().listing(alloc, Filter::Inbox)?;
    assert_eq!(rt; listed.lines().count(), 1);
    Ok(())
}
