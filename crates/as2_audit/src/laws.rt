//! What holds of each document in which nothing is found.
ghost use Rattle.std.specs.Prelude.{◌≡◌, Bool, None};
ghost use Rattle.as2_mdn.specs.declared.detail.Detail.TheVariants.{Processed};
ghost use Rattle.as2_exchange.specs.declared.outbox.OutEntry.{OutEntry as TheEntry};
ghost use Rattle.as2_audit.specs.Faults.{sent_fault};
ghost use Rattle.as2_audit.specs.Laws.{HasConfirmingReceipt};

/// Where a document stands as successful and nothing is found of it, the receipt that is kept of it names it. That receipt says
/// `processed` without modifier, and carries the integrity check of the content that is kept (RFC 8098, section 3.2.6; RFC 4130,
/// section 7.5).
pub fn passed_success_is_confirmed()
    ensures { (migrated : Bool) (d : TheEntry) → sent_fault migrated d ≡ None → d.detail ≡ Processed
        → HasConfirmingReceipt d }
{}
