//! What holds of every report that is written, and of every receipt.
ghost use Rattle.std.specs.Prelude.{◌≡◌, ◌↔◌, ℕ, List};
ghost use Rattle.as2_mdn.specs.Laws.{ReportsAreOfOne, ReportsAreRead, ReportsHaveTypes};
ghost use Rattle.as2_mdn.specs.Receipts.{ReceiptRead};
ghost use Rattle.as2_mic.specs.Algs.{Digests};
ghost use Rattle.as2_mdn.specs.Verdicts.{Confirms, verdict_of};
ghost use Rattle.as2_mdn.specs.declared.detail.Detail.TheVariants.{Processed};

/// A report is read as the receipt that it is of: its own identifier, disposition and MIC.
pub fn own_receipt()
    ensures typed { ReportsHaveTypes }
    ensures read { ReportsAreRead }
    ensures of_one { ReportsAreOfOne }
{}

/// The verdict is success exactly where the receipt confirms the content: it says `processed` without modifier, and gives
/// the content's own MIC (RFC 8098, section 3.2.6; RFC 4130, section 7.5).
pub fn success_confirms()
    ensures { (known : Digests) (receipt : ReceiptRead) (content : List ℕ)
        → (verdict_of known receipt content ≡ Processed) ↔ Confirms known receipt content }
{}
