//! What holds of rows and lines, as laws: they are proved, and do nothing.
ghost use Rattle.std.specs.Prelude.{◌≡◌, ◌&&◌, ◌++◌, ℕ, List, None, Option, map};
ghost use Rattle.std.specs.List.{filter, flat_map};
ghost use Rattle.as2_mdn.specs.declared.detail.DetailClass.{DetailClass};
ghost use Rattle.as2_exchange.specs.State.{State, is_settled};
ghost use Rattle.as2_exchange.specs.declared.inbox.InEntry.{InEntry};
ghost use Rattle.as2_exchange.specs.declared.outbox.OutEntry.{OutEntry};
ghost use Rattle.as2_exchange.specs.Tries.{is_due};
ghost use Rattle.as2_exchange.specs.Progress.{is_in, is_under_way};
ghost use Rattle.as2_views.specs.Texts.{in_line, list_in, list_out, out_line, outstanding_text};
ghost use Rattle.as2_records.specs.Summaries.{in_summary, out_summary};
ghost use Rattle.as2_records.specs.Counting.{counts_of};
ghost use Rattle.as2_views.specs.Counting.{counts_text};
ghost use Rattle.as2_records.specs.Listing.{settled_numbers};
ghost use Rattle.as2_views.specs.Lists.{Rise, document_numbers, is_outstanding, marked_line};
ghost use Rattle.as2_views.specs.RowLines.{in_row_line, out_row_line};

/// The line of a row is that of its entry, and a row is outstanding where its document is.
pub fn rows_give_lines()
    ensures inbox { (e : InEntry) → in_row_line (in_summary e) ≡ in_line e }
    ensures outbox { (d : OutEntry) → out_row_line (is_settled d) (out_summary d) ≡ out_line d }
    ensures outstanding { (m : ℕ) (d : OutEntry)
        → is_outstanding m (out_summary d) ≡ (is_under_way d.detail && is_due m d.due) }
{}

/// The lines of a state's rows are its listings.
pub fn lists_of_rows()
    ensures inbox { (s : State) → flat_map in_row_line (map in_summary s.inbox) ≡ list_in s }
    ensures outbox { (s : State) (wanted : Option DetailClass) → Rise (document_numbers s) →
        flat_map (marked_line (settled_numbers s)) (map out_summary (filter (is_in wanted) s.outbox))
        ≡ list_out s wanted }
    ensures outstanding { (s : State) (m : ℕ) → Rise (document_numbers s) →
        counts_text (counts_of s)
        ++ flat_map (marked_line (settled_numbers s)) (filter (is_outstanding m) (map out_summary s.outbox))
        ≡ outstanding_text s m }
{}

/// Where the numbers of documents rise, so do those of the documents that a receipt has settled.
pub fn numbers_rise()
    ensures { (s : State) → Rise (document_numbers s) → Rise (settled_numbers s) }
{}

/// Where no state is asked for, all documents are listed.
pub fn all_are_listed()
    ensures { (documents : List OutEntry) → filter (is_in None) documents ≡ documents }
{}
