//! What a request gets over the records of the station.
ghost use Rattle.std.specs.Prelude.{◌≡◌, [], false};
ghost use Rattle.as2_exchange.specs.State.{State};
ghost use Rattle.as2_http.specs.Responses.{IsSafe, Responds, http_answer, is_for_station, store_fault_line};

use as2_agreement::Agreements;
use as2_exchange::{HttpAnswer, Line, StoreFault};
use as2_messages::{Method, Request, Target};
use as2_records::Records;
use as2_station::Station;
use as2_text::Moment;
use std::alloc::Global;

/// What a request gets.
#[derive(Drop)]
pub enum Response {
    /// The station's answer to a post.
    Answered(HttpAnswer),
    /// The store has a fault, and the post changed nothing.
    Failed(StoreFault),
    /// The method isn't POST.
    OnlyPost,
    /// The target isn't the station's path.
    NoPath,
}

impl Response {
    /// The answer that it is.
    pub fn answer(self) -> HttpAnswer
        ensures { result ≡ http_answer self }
    {
        match self {
            Response::Answered(answer) => answer,
            Response::Failed(fault) => store_fault_line(fault).answer(),
            Response::OnlyPost => Line::OnlyPost.answer(),
            Response::NoPath => Line::NoSuchPath.answer(),
        }
    }
}

/// The line that tells a fault of the store.
fn store_fault_line(fault: StoreFault) -> Line
    ensures { result ≡ store_fault_line fault }
{
    match fault {
        StoreFault::Full => Line::StoreFull,
        _ => Line::StoreFailed,
    }
}

/// Has the station take a request.
pub fn respond<K: Records>(
    alloc: Global,
    agreements: &Agreements,
    moment: Moment,
    station: &mut Station<K>,
    request: Request,
) -> Response
    ensures clean { (K.shows station.new).IsClean → (K.shows station.old).IsClean }
    ensures responds { (K.shows station.new).IsClean → (s : State) → (K.shows station.old).Rests s
        → (t : State) × (K.shows station.new).Rests t
        × Responds agreements.now moment s request result (IsSafe (K.shows station.new)) t }
    // Nothing is asked of the records but by a post to the station's path.
    ensures same { is_for_station request.method request.target ≡ false → station.new ≡ station.old }
{
    let Request {
        method,
        target,
        fields,
        body,
        ..
    } = request;
    if method != Method::Post {
        return Response::OnlyPost;
    }
    if target != Target::Station {
        return Response::NoPath;
    }
    match station.post(alloc, agreements, &fields, body, moment) {
        Ok(answer) => Response::Answered(answer),
        Err(fault) => Response::Failed(fault),
    }
}
