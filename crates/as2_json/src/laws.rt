//! What holds of the lines, as laws: they are proved, and do nothing.
ghost use Rattle.std.specs.Prelude.{◌≡◌, ◌++◌, ℕ, Bool, List, ◌∷◌, Option, map};
ghost use Rattle.std.specs.List.{AllByRecursion, filter};
ghost use Rattle.serde_json.specs.Data.{Data};
ghost use Rattle.serde_json.specs.Written.{compact_text};
ghost use Rattle.as2_names.specs.Ascii.{line_feed};
ghost use Rattle.as2_names.specs.Cuts.{IsCutAt};
ghost use Rattle.as2_mdn.specs.declared.detail.DetailClass.{DetailClass};
ghost use Rattle.as2_exchange.specs.Agreement.{Text};
ghost use Rattle.as2_exchange.specs.Progress.{is_in};
ghost use Rattle.as2_exchange.specs.State.{State};
ghost use Rattle.as2_exchange.specs.declared.outbox.OutEntry.{OutEntry};
ghost use Rattle.as2_records.specs.Counting.{counts_of};
ghost use Rattle.as2_records.specs.Listing.{settled_numbers};
ghost use Rattle.as2_records.specs.Summaries.{in_summary, out_summary};
ghost use Rattle.as2_records.specs.declared.counts.Counts.{Counts};
ghost use Rattle.as2_records.specs.declared.summaries.InRow.{InRow};
ghost use Rattle.as2_records.specs.declared.summaries.OutRow.{OutRow};
ghost use Rattle.as2_audit.specs.declared.findings.Finding.{Finding};
ghost use Rattle.as2_views.specs.Lists.{Rise, document_numbers, is_outstanding};
ghost use Rattle.as2_json.specs.Lines.{ReadsAs, ReadsBack, object_line, object_lines};
ghost use Rattle.as2_json.specs.Listings.{list_in_objects, list_out_objects, marked_object, outstanding_objects};
ghost use Rattle.as2_json.specs.Objects.{counts_object, document_object, finding_object, in_object, out_object, verified_object};
ghost use Rattle.as2_json.specs.Types.{AreCounts, FitsNumber, IsDocument, IsInRow, IsOutRow};

/// Lines are read back: who cuts them at the line feeds finds each object again, and nothing else.
pub fn lines_read_back()
    // What stands before the first line feed of a line, with any text behind it, is the whole text of its object.
    ensures cut { (d : Data) (rest : Text) → IsCutAt line_feed (object_line d ++ rest) (compact_text d) rest }
    // So it is with all of them.
    ensures whole { (ds : List Data) → AllByRecursion ReadsBack ds → ReadsAs ds (object_lines ds) }
{}

/// The text of each object of a listing is UTF-8, and the kit's reader finds in it what was written.
pub fn listings_read_back()
    ensures outbox { (is_settled : Bool) (r : OutRow) → IsOutRow r → ReadsBack (out_object is_settled r) }
    ensures inbox { (r : InRow) → IsInRow r → ReadsBack (in_object r) }
    ensures counts { (c : Counts) → AreCounts c → ReadsBack (counts_object c) }
    ensures document { (d : OutEntry) → IsDocument d → ReadsBack (document_object d) }
{}

/// The text of each object of a verification is UTF-8, and the kit's reader finds in it what was written.
pub fn verifications_read_back()
    ensures finding { (f : Finding) → FitsNumber f.number → ReadsBack (finding_object f) }
    ensures verified { (received sent findings : ℕ) → FitsNumber received → FitsNumber sent → FitsNumber findings
        → ReadsBack (verified_object received sent findings) }
{}

/// The objects of a state's rows are its listings.
pub fn listings_of_rows()
    ensures inbox { (s : State) → map in_object (map in_summary s.inbox) ≡ list_in_objects s }
    ensures outbox { (s : State) (wanted : Option DetailClass) → Rise (document_numbers s) →
        map (marked_object (settled_numbers s)) (map out_summary (filter (is_in wanted) s.outbox))
        ≡ list_out_objects s wanted }
    ensures outstanding { (s : State) (m : ℕ) → Rise (document_numbers s) →
        counts_object (counts_of s) ∷ map (marked_object (settled_numbers s))
        (filter (is_outstanding m) (map out_summary s.outbox))
        ≡ outstanding_objects s m }
{}
