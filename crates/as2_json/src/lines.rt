//! Lines of values.
ghost use Rattle.std.specs.Prelude.{◌≡◌, ◌++◌, OnOk, false};
ghost use Rattle.serde_json.specs.Data.{Data};
ghost use Rattle.serde_json.specs.View.{view};
ghost use Rattle.serde_json.specs.Written.{has_float};
ghost use Rattle.as2_json.specs.Lines.{object_line};

use as2_text::Memory;
use serde_json::Value;

/// Appends the line of a value that holds no number with a fraction.
#[tactic(auto, unfolding(crate::specs::Lines::object_line))]
pub fn add_line(text: &mut Vec<u8>, value: &Value) -> Result<(), Memory>
    ensures { OnOk result ((d : Data) → view value.now ≡ d → has_float d ≡ false
        → text.new.items ≡ text.old.items ++ object_line d) }
{
    let written = value.to_vec(*text.allocator())?;
    text.extend_from_slice(&written)?;
    text.extend_from_slice(b"\n")?;
    Ok(())
}
