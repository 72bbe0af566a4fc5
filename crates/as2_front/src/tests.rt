//! Two connections over a station whose records are lists.
use crate::desk::StationDesk;
use crate::log::Log;
use crate::playing::play;
use as2_agreement::Agreements;
use as2_hub::{Bounds, Hub, Input};
use as2_lists::Lists;
use as2_station::Station;
use as2_text::Moment;
use as2_views::Filter;
use std::alloc::Global;
use std::test::Fail;

const AGREEMENTS: &str = r#"
domain = "station.example"

[[organization]]
name = "Supplier"

[[partner]]
name = "Buyer"
url = "http://127.0.0.1:8081/as2"
receipt = "sync"
digest = "sha1"
content_type = "application/edi-x12"
max_tries = 2
retry_seconds = 30
overdue_seconds = 60
"#;

const POST: &[u8] =
    b"POST /as2 HTTP/1.1\r\nAS2-Version: 1.0\r\nAS2-From: Buyer\r\nAS2-To: Supplier\r\nMessage-ID: <m1@buyer.example>\r\nContent-Type: application/edi-x12\r\nContent-Length: 5\r\n\r\nISA*0";

const GET_AND_NONSENSE: &[u8] = b"GET /as2 HTTP/1.1\r\n\r\nnonsense\r\n\r\n";

const FIRST: u64 = 1;

const BOUNDS: Bounds = Bounds {
    connections: 2,
    bytes_of_one: 2_000,
    bytes_of_all: 3_000,
    requests: 2,
};

const LINES: &[u8] =
    b"request - 405 only POST\npost Buyer -> Supplier <m1@buyer.example> 200\nrefused - 400 bad request head\n";

/// So many seconds after the start of 1970.
fn moment(seconds: u64) -> Result<Moment, Fail> {
    Ok(Moment::new(seconds).ok_or("a moment")?)
}

#[test]
fn serves_two(rt: HostRuntime) -> Result<(), Fail> {
    let alloc = rt.alloc();
    let agreements = Agreements::read(alloc, AGREEMENTS)?;
    let station = Station::new(Lists::new(alloc, FIRST));
    let log = Log::new(alloc);
    let mut desk = StationDesk::new(alloc, &agreements, moment(0)?, station).noting(&log);
    desk.set_moment(moment(1_700_000_000)?);
    let mut hub = Hub::new(alloc, BOUNDS)?;
    let inputs = vec![in alloc;
        Input::Opens(0),
        Input::Opens(1),
        Input::Comes(0, Vec::from_slice(alloc, GET_AND_NONSENSE)?),
        Input::Comes(1, Vec::from_slice(alloc, POST)?),
        Input::Turns(vec![in alloc; 0, 1]?),
    ]?;
    assert_eq!(rt; play(&mut hub, &mut desk, &inputs), inputs.len());
    assert!(rt;
        hub.output(0).starts_with(
            b"HTTP/1.1 405 Method Not Allowed\r\nDate: Tue, 14 Nov 2023 22:13:20 GMT\r\n"
        )
    );
    assert!(rt; hub.output(1).starts_with(b"HTTP/1.1 200 OK\r\n"));
    assert!(rt; hub.is_reading(1));
    let more = vec![in alloc; Input::Goes(0, 1_000), Input::Turns(vec![in alloc; 0]?)]?;
    assert_eq!(rt; play(&mut hub, &mut desk, &more), more.len());
    assert!(rt; hub.output(0).starts_with(b"HTTP/1.1 400 Bad Request\r\n"));
    assert!(rt; !hub.is_reading(0));
    assert_eq!(rt; log.take(alloc).as_slice(), LINES);
    assert_eq!(rt; desk.tick(moment(1_700_000_001)?)?, 0);
    let mut station = desk.into_station();
    let listed = station.listing(alloc, Filter::Inbox)?;
    assert_eq!(rt; listed.lines().count(), 1);
    assert!(rt; listed.ends_with(" Buyer -> Supplier <m1@buyer.example>\n"));
    Ok(())
}
