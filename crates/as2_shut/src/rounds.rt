//! Rounds over records that can't be reached: none begins.

use crate::shut::ShutRecords;
use as2_exchange::StoreFault;
use as2_records::Rounds;

impl Rounds for ShutRecords {
    type Round = ShutRecords;

    fn hold(self) -> Result<ShutRecords, (ShutRecords, StoreFault)> {
        Err((self, StoreFault::Disk))
    }

    fn commit(round: ShutRecords) -> Result<ShutRecords, ShutRecords> {
        Ok(round)
    }
}
