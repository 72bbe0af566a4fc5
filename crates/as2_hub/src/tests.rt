//! Three connections over a desk that tells how many requests it has answered.
ghost use Rattle.std.specs.Prelude.{◌≡◌, ℕ, true, ⊤};

use crate::bounds::Bounds;
use crate::desk::{Desk, Replied, Reply};
use crate::hub::Hub;
use crate::input::Input;
use as2_messages::{Refused, Request};
use std::alloc::Global;
use std::test::Fail;

/// Replies with one byte more each time, from `a` on; keeps the round unless told otherwise, and gives requests back.
#[derive(Drop)]
struct Counting {
    alloc: Global,
    next: u8,
    kept: u8,
    keeps: bool,
}

impl Counting {
    fn reply(&mut self) -> Vec<u8>
        ensures { self.new.kept ≡ self.old.kept }
    {
        let Ok(text) = Vec::from_slice(self.alloc, &[self.next]) else {
            return Vec::new(self.alloc);
        };
        self.next = self.next.wrapping_add(1);
        text
    }
}

impl Desk for Counting {
    ghost conduct = { record {
      Kept = ℕ;
      kept = λ desk. desk.kept;
      at_rest = λ desk. ⊤;
      answers = λ old asked text stays new. ⊤;
      settles = λ old new. ⊤;
      may_lose = λ desk. true;
    } };

    fn answer(&mut self, request: Request) -> Replied {
        let stays = !request.last;
        Replied {
            reply: Reply {
                text: self.reply(),
                stays,
            },
            request: Some(request),
        }
    }

    fn refuse(&mut self, _refused: Refused) -> Vec<u8> {
        self.reply()
    }

    fn settle(&mut self) -> bool {
        if self.keeps {
            self.kept = self.next;
        } else {
            self.next = self.kept;
        }
        self.keeps
    }
}

fn first_desk(alloc: Global) -> Counting {
    Counting {
        alloc,
        next: b'a',
        kept: b'a',
        keeps: true,
    }
}

const BOUNDS: Bounds = Bounds {
    connections: 3,
    bytes_of_one: 200,
    bytes_of_all: 500,
    requests: 2,
};

const POST: &[u8] = b"POST /as2 HTTP/1.1\r\nContent-Length: 3\r\n\r\nabc";

const TWO: &[u8] = b"GET / HTTP/1.1\r\n\r\nGET / HTTP/1.0\r\n\r\nGET";

#[test]
fn plays(rt: HostRuntime) -> Result<(), Fail> {
    let alloc = rt.alloc();
    let mut desk = first_desk(alloc);
    let mut hub = Hub::new(alloc, BOUNDS)?;
    assert!(rt; hub.free_place() == Some(0));
    assert!(rt; hub.open(0) && hub.open(1) && hub.open(2) && !hub.open(3) && !hub.open(1));
    assert!(rt; hub.free_place().is_none());
    assert_eq!(rt; hub.hear(0, &POST[..20]), 20);
    assert!(rt; !hub.is_ready(0));
    assert_eq!(rt; hub.hear(0, &POST[20..]), POST.len() - 20);
    assert!(rt; hub.is_ready(0));
    assert_eq!(rt; hub.hear(0, POST), 0);
    assert_eq!(rt; hub.hear(1, TWO), TWO.len());
    assert_eq!(rt; hub.hear(2, b"nonsense\r\n\r\n"), 12);
    // lost: the requests are still there
    desk.keeps = false;
    assert!(rt; !hub.round(&mut desk, &[0, 1, 2]));
    assert!(rt; hub.output(0).is_empty() && hub.output(1).is_empty());
    desk.keeps = true;
    // two a round
    assert!(rt; hub.round(&mut desk, &[0, 0, 1, 2]));
    assert!(rt; hub.output(0) == b"a".as_slice());
    assert!(rt; hub.output(1) == b"b".as_slice());
    assert!(rt; hub.output(2).is_empty());
    assert!(rt; hub.round(&mut desk, &[0, 1, 2]));
    assert!(rt; hub.output(2) == b"c".as_slice());
    assert_eq!(rt; hub.sent(2, 5), 1);
    assert!(rt; hub.is_done(2));
    assert_eq!(rt; hub.sent(1, 1), 1);
    assert!(rt; !hub.is_done(1) && hub.is_ready(1));
    assert!(rt; hub.round(&mut desk, &[1]));
    assert!(rt; hub.output(1) == b"d".as_slice());
    assert_eq!(rt; hub.sent(1, 1), 1);
    assert!(rt; hub.is_done(1));
    assert_eq!(rt; hub.hear(1, TWO), 0);
    hub.close(1);
    assert!(rt; hub.open(1));
    assert_eq!(rt; hub.hear(1, TWO), TWO.len());
    // over the bound of one connection
    hub.close(2);
    assert!(rt; hub.open(2));
    let long = Vec::from_elem(alloc, b'x', 300)?;
    assert_eq!(rt; hub.room(2), 200);
    assert_eq!(rt; hub.hear(2, &long), 200);
    assert_eq!(rt; hub.room(2), 0);
    Ok(())
}

#[test]
fn plays_inputs(rt: HostRuntime) -> Result<(), Fail> {
    let alloc = rt.alloc();
    let mut desk = first_desk(alloc);
    let mut hub = Hub::new(alloc, BOUNDS)?;
    let inputs = vec![in alloc;
        Input::Opens(2),
        Input::Opens(0),
        Input::Comes(0, Vec::from_slice(alloc, POST)?),
        Input::Comes(2, Vec::from_slice(alloc, TWO)?),
        Input::Turns(vec![in alloc; 2, 1, 0]?),
        Input::Goes(2, 1),
    ]?;
    assert_eq!(rt; hub.play(&mut desk, &inputs), inputs.len());
    assert!(rt; hub.is_open(2) && !hub.is_open(1));
    assert!(rt; hub.output(0) == b"b".as_slice());
    assert!(rt; hub.output(2).is_empty());
    assert!(rt; hub.take(&mut desk, &Input::Turns(vec![in alloc; 0, 2]?)));
    assert!(rt; hub.output(0) == b"b".as_slice());
    assert!(rt; hub.output(2) == b"c".as_slice());
    assert!(rt; hub.take(&mut desk, &Input::Closes(0)));
    assert!(rt; !hub.is_open(0));
    // a piece for which there is no room isn't taken, and one that nobody reads is passed over
    let more = vec![in alloc;
        Input::Comes(0, Vec::from_slice(alloc, TWO)?),
        Input::Opens(0),
        Input::Comes(0, Vec::from_elem(alloc, b'x', 201)?),
        Input::Closes(2),
    ]?;
    assert_eq!(rt; hub.play(&mut desk, &more), 2);
    assert!(rt; hub.is_open(2) && hub.is_reading(0) && !hub.is_ready(0));
    Ok(())
}
