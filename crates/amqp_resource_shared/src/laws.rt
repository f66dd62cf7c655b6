//! Laws of receipts.

ghost use Rattle.std.specs.Prelude.{◌≡◌, ℕ, Bool, List, Some, count_by, eqb, length, slice_get};
ghost use Rattle.std.specs.List.{IsDistinct};
ghost use Rattle.amqp_txn_types.specs.declared.id.TransactionId.{TransactionId};
ghost use Rattle.amqp_resource_record.specs.declared.entry.Entry.{Entry};
ghost use Rattle.amqp_resource_record.specs.declared.step.Step.{Step};
ghost use Rattle.amqp_resource_shared.specs.Receipts.{EachOfEntry, HasReceipt, is_recorded, is_told, numbers_of};
ghost use Rattle.amqp_resource_shared.specs.declared.receipt.Receipt.{Receipt};
ghost use Rattle.amqp_resource_shared.specs.declared.reply_code.ReplyCode.{ReplyCode};

/// Receipts whose numbers differ, as many as there are entries and each of the entry with its
/// number, are the entries in some order: whatever one asks of step, draws and kind of reply, it
/// holds of as many receipts as entries.
pub fn receipts_are_the_entries()
    ensures { (kind : Step → List TransactionId → ReplyCode → Bool) (receipts : List Receipt)
        (entries : List Entry) → IsDistinct eqb (numbers_of receipts)
        → EachOfEntry entries receipts → length receipts ≡ length entries
        → count_by (is_told kind) receipts ≡ count_by (is_recorded kind) entries }
{}

/// Each entry has a receipt among such receipts: the one with its number is of it.
pub fn each_entry_has_its_receipt()
    ensures { (receipts : List Receipt) (entries : List Entry)
        → IsDistinct eqb (numbers_of receipts) → EachOfEntry entries receipts
        → length receipts ≡ length entries → (number : ℕ) (entry : Entry)
        → slice_get entries number ≡ Some entry → HasReceipt receipts number entry }
{}
