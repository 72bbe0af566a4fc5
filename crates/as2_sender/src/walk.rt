//! A walk through the numbers that are due.
ghost use Rattle.as2_live.specs.Living.{LivesOn};

use as2_exchange::Next;
use as2_live::Live;
use as2_records::Records;
use as2_text::Moment;

/// A walk through the numbers that are due: receipts first, then documents, each in ascending order.
#[derive(Drop)]
pub(crate) struct Walk {
    /// The receipt that was looked at last.
    receipt: u64,
    /// The document that was looked at last.
    document: u64,
    /// Whether no receipt with a greater number is due.
    is_past_receipts: bool,
    /// Whether nothing with greater numbers is due.
    is_through: bool,
}

impl Walk {
    /// Begins with the least numbers.
    pub(crate) fn new() -> Walk {
        Walk {
            receipt: 0,
            document: 0,
            is_past_receipts: false,
            is_through: false,
        }
    }

    /// Something with greater numbers may be due.
    pub(crate) fn wake(&mut self) {
        self.is_past_receipts = false;
        self.is_through = false;
    }

    /// Whether nothing more was due after the last numbers.
    pub(crate) fn is_through(&self) -> bool {
        self.is_through
    }

    /// The next one that is due at this moment; None at the end.
    pub(crate) fn next<K: Records>(
        &mut self,
        live: &mut Live<'_, K>,
        moment: Moment,
    ) -> Option<Next>
        ensures lives { LivesOn K.shows live.old live.new }
    {
        if self.is_past_receipts {
            return self.next_document(live, moment);
        }
        let last = Some(Next::Receipt(self.receipt));
        if let Ok(Some(Next::Receipt(number))) = live.next_behind(moment, last) {
            self.receipt = number;
            return Some(Next::Receipt(number));
        }
        self.is_past_receipts = true;
        self.next_document(live, moment)
    }

    /// The next document that is due at this moment; None at the end.
    fn next_document<K: Records>(&mut self, live: &mut Live<'_, K>, moment: Moment) -> Option<Next>
        ensures lives { LivesOn K.shows live.old live.new }
    {
        let last = Some(Next::Document(self.document));
        if let Ok(Some(Next::Document(number))) = live.next_behind(moment, last) {
            self.document = number;
            return Some(Next::Document(number));
        }
        self.is_through = true;
        None
    }
}
