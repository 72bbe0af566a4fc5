//! What the places of connections say, however a shell has come to them.
ghost use Rattle.std.specs.Prelude.{◌≡◌, ℕ, List, Option, slice_get, true};
ghost use Rattle.as2_hub.specs.Happenings.{Happenings, is_open_after};
ghost use Rattle.as2_hub.specs.Places.{StandAfter, output_at};
ghost use Rattle.as2_hub.specs.Promises.{Promise};
ghost use Rattle.as2_hub.specs.declared.talk.Talk.{Talk as TheTalk};

/// Where places stand after what happened, as each call of the hub says of them, each open connection has what is
/// promised.
pub fn standing_is_promised()
    ensures { (talks : List (Option TheTalk)) (h : Happenings) → StandAfter talks h → (c : ℕ) → is_open_after c h ≡ true
        → Promise c h (output_at (slice_get talks c)) }
{}
