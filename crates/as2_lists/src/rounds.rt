//! Rounds over lists, which hold nothing back.

use crate::lists::Lists;
use as2_exchange::StoreFault;
use as2_records::Rounds;

impl Rounds for Lists {
    type Round = Lists;

    fn hold(self) -> Result<Lists, (Lists, StoreFault)> {
        Ok(self)
    }

    fn commit(round: Lists) -> Result<Lists, Lists> {
        Ok(round)
    }
}
