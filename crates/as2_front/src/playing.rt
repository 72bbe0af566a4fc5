//! What happens at many connections over the station.
ghost use Rattle.std.specs.Prelude.{◌≤◌, length, slice_get, take};
ghost use Rattle.as2_hub.specs.Inputs.{StopsBefore};
ghost use Rattle.as2_hub.specs.Rounds.{scene};
ghost use Rattle.as2_front.specs.Serving.{ServesMany};

use crate::desk::StationDesk;
use as2_hub::{Hub, Input};
use as2_records::Records;

/// Takes what happens at the connections, one after the other, up to the first piece for which there is no room, and has
/// the station answer their requests. Answers how many inputs were taken.
pub fn play<K: Records>(hub: &mut Hub, desk: &mut StationDesk<'_, K>, inputs: &[Input]) -> usize
    ensures count { result ≤ length inputs.now }
    ensures stops { StopsBefore hub.new (slice_get inputs.now result) }
    ensures serves { ServesMany K.shows (take result inputs.now) (scene desk.old hub.old) (scene desk.new hub.new) }
{
    hub.play(desk, inputs)
}
