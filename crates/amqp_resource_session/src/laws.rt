//! A law for the reader: a function that does nothing, and whose contract is the law.

ghost use Rattle.std.specs.Prelude.{◌≡◌, ℕ, true, List};
ghost use Rattle.amqp_txn_types.specs.declared.id.TransactionId.{TransactionId};
ghost use Rattle.amqp_resource_record.specs.declared.entry.Entry.{Entry};
ghost use Rattle.amqp_resource_record.specs.declared.step.Step.{Step};
ghost use Rattle.amqp_resource_record.specs.Hands.{frames_of, hands};
ghost use Rattle.amqp_resource_record.specs.Live.{is_held_on, is_live};
ghost use Rattle.amqp_resource_session.specs.Steps.{step_hands};
ghost use Rattle.amqp_resource_held.specs.Views.{frames_in, is_held_in, is_live_in, view_of_record};

/// What the view of a record says is what the record says, looking back over its entries: which ids
/// are live and on which link, which frames stand under a live one, and what a step hands.
pub fn the_view_of_a_record_looks_back()
    ensures live { (r : List Entry) (t : TransactionId)
        → is_live_in (view_of_record r) t ≡ is_live r t }
    ensures held { (r : List Entry) (k : ℕ) (t : TransactionId)
        → is_held_in (view_of_record r) k t ≡ is_held_on r k t }
    ensures frames { (r : List Entry) (t : TransactionId) → is_live r t ≡ true
        → frames_in (view_of_record r) t ≡ frames_of r t }
    ensures hands { (r : List Entry) (s : Step) → step_hands (view_of_record r) s ≡ hands r s }
{}
