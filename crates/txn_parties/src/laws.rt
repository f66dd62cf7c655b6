//! Laws of two parties, for the reader: functions that do nothing, whose contracts are the laws.

ghost use Rattle.std.specs.Prelude.{◌≡◌, Bool, Option, None, List, [], ◌∷◌, ◌++◌, take};
ghost use Rattle.std.specs.List.{zip};
ghost use Rattle.amqp_txn_types.specs.Growing.{grown};
ghost use Rattle.amqp_txn_types.specs.declared.id.TransactionId.{TransactionId};
ghost use Rattle.amqp_txn_types.specs.declared.performatives.Frame.{Frame};
ghost use Rattle.amqp_below_layer.specs.OneFrame.{TookFrames};
ghost use Rattle.amqp_below_ids.specs.Drawn.{DrawnIds};
ghost use Rattle.amqp_resource_record.specs.declared.entry.Entry.{Entry};
ghost use Rattle.amqp_resource_record.specs.declared.reply.Reply.{Reply};
ghost use Rattle.amqp_resource_record.specs.Entries.{drawn_of};
ghost use Rattle.amqp_resource_record.specs.Hands.{hands};
ghost use Rattle.amqp_resource_record.specs.Work.{given_by, handed_by};
ghost use Rattle.amqp_resource_record.specs.Answers.{Answer};
ghost use Rattle.txn_parties.specs.declared.event.Event.{Event};
ghost use Rattle.txn_parties.specs.declared.event.Happened.{Happened};
ghost use Rattle.txn_parties.specs.declared.event.Happened.TheVariants as happenings;
ghost use Rattle.txn_parties.specs.declared.item.Item.{Item};
ghost use Rattle.txn_parties.specs.declared.item.Halt.{Halt};
ghost use Rattle.txn_parties.specs.Items.{step_of};
ghost use Rattle.txn_parties.specs.Exchange.{Begins, Exchange, begun, record_of};
ghost use Rattle.txn_parties.specs.Turns.{Follows, Turn, with_answer, with_stop};
ghost use Rattle.txn_parties.specs.Invariant.{Keeps};
ghost use Rattle.txn_parties.specs.Agreement.{Agreement};
ghost use Rattle.txn_parties.specs.Taken.{Grew, TookSince};

/// After every list of events the two sides agree.
///
/// What is kept holds as they begin, each event keeps it, and the agreement follows from it: so it
/// holds after every list of events, with a cut at any point.
pub fn parties_agree()
    ensures begins { (sure : Bool) (first : List Entry) → Begins first
        → Keeps (begun sure first) }
    ensures keeps { (w new : Exchange) (e : Event) (h : Happened) (d : List TransactionId)
        → Keeps w → Turn w e h d new → Keeps new }
    ensures agree { (w : Exchange) → Keeps w → Agreement w }
    ensures follows { (sure : Bool) (first : List Entry) (past : List (Event × Happened))
        (d : List TransactionId) (w : Exchange) → Begins first
        → Follows (begun sure first) past d w → Agreement w }
{}

/// One event after others, and the ids that it drew.
pub fn events_follow_one_another()
    ensures more { (w mid new : Exchange) (past : List (Event × Happened)) (e : Event)
        (h : Happened) (d now : List TransactionId) → Follows w past d mid
        → Turn mid e h now new → Follows w (past ++ (e, h) ∷ []) (d ++ now) new }
    ensures drew { (w new : Exchange) (e : Event) (h : Happened) (d : List TransactionId)
        → Turn w e h d new → drawn_of (record_of new) ≡ drawn_of (record_of w) ++ d }
{}

/// What the layer below took, whatever it had taken before the two parties began, are the frames at
/// the places that were drawn on, each stripped of its transaction.
///
/// So it is as they begin. An item that is answered adds what its entry says was handed; one that
/// stops the session adds the first of what it hands; every other event adds nothing. What was
/// taken since the beginning grows by what each event adds.
pub fn what_was_taken_is_drawn_on()
    ensures begins { (sure : Bool) (first : List Entry)
        (taken : Option (List (Frame × List Frame))) → Begins first
        → TookSince taken (begun sure first) taken }
    ensures answered { (w : Exchange) (i : Item) (rest : List Item) (drawn : DrawnIds)
        (reply : Reply) (old now : Option (List (Frame × List Frame))) → Keeps w
        → w.waiting ≡ i ∷ rest → w.stop ≡ None
        → Answer (record_of w) (step_of i) drawn.ids reply
        → now ≡ grown old (zip (handed_by (record_of w) (step_of i) reply)
        (given_by (step_of i) reply))
        → Grew w (with_answer w i rest drawn reply) old now }
    ensures stopped { (w : Exchange) (i : Item) (rest : List Item) (halt : Halt)
        (old now : Option (List (Frame × List Frame))) → Keeps w → w.waiting ≡ i ∷ rest
        → w.stop ≡ None
        → TookFrames old now (take halt.handed (hands (record_of w) (step_of i)))
        → Grew w (with_stop w halt) old now }
    ensures other { (w new : Exchange) (e : Event) (h : Happened) (d : List TransactionId)
        (taken : Option (List (Frame × List Frame))) → Keeps w → Turn w e h d new
        → (h ≡ happenings.Arrived → ⊥) → Grew w new taken taken }
    ensures joined { (w new : Exchange) (e : Event) (h : Happened) (d : List TransactionId)
        (before mid now : Option (List (Frame × List Frame))) → Keeps w → Turn w e h d new
        → TookSince before w mid → Grew w new mid now → TookSince before new now }
{}
