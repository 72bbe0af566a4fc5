//! What is due is sent, turn by turn, to partners in memory that all answer alike.
ghost use Rattle.as2_http.specs.Devices.{OpensLedger};

use crate::events::try_answer;
use crate::stage::Stage;
use crate::told::say_job;
use as2_agreement::Agreements;
use as2_exchange::{Job, TryAnswer};
use as2_http::Counted;
use as2_kept::Kept;
use as2_records::Records;
use as2_sending::{LinkFault, Links, Sent, send};
use as2_station::Station;
use as2_text::Moment;
use script_lines::{Answer, Settings};
use sqlite::MemStore;
use std::alloc::Global;
use std::cmp::min;
use std::io::{Result as IoResult, Write};
use std::marker::Brand;
use std::sync::ledger::{Blank, Ledger};

/// Partners that answer by the text `partner-reply`, or don't listen where it is empty; and to which addresses requests were sent, with
/// a comma before each. Where there is a text `asked`, the requests stand there whole.
#[derive(Drop)]
struct Partners<'a> {
    settings: &'a Settings,
    asked: Answer,
}

impl Links for Partners<'_> {
    ghost use Rattle.std.specs.Prelude.{⊤};

    ghost answers = { λ _ _ _ _. ⊤ };

    fn exchange(&mut self, _alloc: Global, job: &Job) -> TryAnswer {
        self.asked.say(", ");
        match self.settings.text("asked") {
            Some(_) => say_job(&mut self.asked, job),
            None => self.asked.say_bytes(job.authority.as_slice()),
        }
        let reply = self.settings.text("partner-reply").unwrap_or("");
        try_answer(self.settings, reply, &mut self.asked)
    }

    fn fault(&self) -> LinkFault {
        LinkFault::ConnectionRefused
    }
}

/// What is written, until there is no room.
#[derive(Drop)]
struct Paper {
    bytes: Vec<u8>,
    room: usize,
}

impl Write for Paper {
    fn write(&mut self, buf: &[u8]) -> IoResult<usize> {
        let most = min(buf.len(), self.room);
        self.room = self.room.saturating_sub(most);
        self.bytes.write(&buf[..most])
    }

    fn flush(&mut self) -> IoResult<()> {
        Ok(())
    }
}

/// Sends with counts of the calls that are made of what is written.
fn sent_counted<K: Records, L: Ledger, M: Ledger>(
    agreements: &Agreements,
    moment: Moment,
    station: &mut Station<K>,
    partners: &mut Partners<'_>,
    paper: &mut Paper,
    writes: Blank,
    failed_writes: Blank,
) -> Sent
    requires writes { OpensLedger writes.name writes.parts L.name L.parts }
    requires failed_writes { OpensLedger failed_writes.name failed_writes.parts M.name M.parts }
{
    let alloc = partners.asked.alloc();
    let mut output: Counted<&mut Paper, L, M> = Counted::new(paper, writes, failed_writes);
    let mut hints = Vec::new(alloc);
    let sending = send(
        alloc,
        agreements,
        moment,
        station,
        partners,
        &mut output,
        &mut hints,
    );
    sending.end
}

/// How much may be written: what the text `room` says, or all.
fn room(settings: &Settings, answer: &mut Answer) -> usize {
    match settings.text("room") {
        Some(text) => answer.length_in(text),
        None => usize::MAX,
    }
}

/// Answers with whom was asked, or why they can't have answered.
fn say_asked(answer: &mut Answer, asked: &Answer) {
    match asked.whole() {
        Ok(bytes) => answer.say_bytes(bytes),
        Err(trouble) => answer.fail(trouble),
    }
}

/// Sends what is due at the moment; answers with what was written, how that ended, and whom it asked.
pub fn say_sent(stage: &mut Stage, moment: Moment, answer: &mut Answer) {
    let room = room(&stage.settings, answer);
    let Some((station, agreements)) = stage.played.ready(&stage.settings, answer) else {
        return;
    };
    let mut partners = Partners {
        settings: &stage.settings,
        asked: Answer::new(answer.alloc()),
    };
    let mut paper = Paper {
        bytes: Vec::new(answer.alloc()),
        room,
    };
    let sent = sent_counted::<Kept<MemStore>, Brand, Brand>(
        agreements,
        moment,
        station,
        &mut partners,
        &mut paper,
        Blank::new(1),
        Blank::new(1),
    );
    answer.say_bytes(paper.bytes.as_slice());
    answer.say_name(&sent);
    say_asked(answer, &partners.asked);
}
