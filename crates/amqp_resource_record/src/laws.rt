//! Laws of records, for the reader: functions that do nothing, and whose contracts are the laws.

ghost use Rattle.std.specs.Prelude.{◌≡◌, ◌↔◌, ℕ, true, false, Some, List, [], ◌∷◌, ◌++◌, length, map};
ghost use Rattle.std.specs.List.{list_any};
ghost use Rattle.amqp_txn_types.specs.declared.id.TransactionId.{TransactionId};
ghost use Rattle.amqp_txn_types.specs.declared.performatives.Frame.{Frame};
ghost use Rattle.amqp_txn_types.specs.declared.small.TransactionError.TheVariants as transaction_errors;
ghost use Rattle.amqp_txn_types.specs.Frames.{stripped};
ghost use Rattle.amqp_txn_codec.specs.Reading.{message_of};
ghost use Rattle.amqp_resource_record.specs.declared.entry.Entry.{Entry};
ghost use Rattle.amqp_resource_record.specs.declared.step.Step.{Step};
ghost use Rattle.amqp_resource_record.specs.declared.step.Step.TheVariants as steps;
ghost use Rattle.amqp_resource_record.specs.declared.reply.Reply.{Reply};
ghost use Rattle.amqp_resource_record.specs.declared.reply.Reply.TheVariants as replies;
ghost use Rattle.amqp_resource_record.specs.declared.reply.RejectText.TheVariants as texts;
ghost use Rattle.amqp_resource_record.specs.Entries.{declares, discharges, message_discharges, steps_of};
ghost use Rattle.amqp_resource_record.specs.Links.{is_open};
ghost use Rattle.amqp_resource_record.specs.Homes.{DeclaredAtHome, HasOpenHome};
ghost use Rattle.amqp_resource_record.specs.Live.{home, is_live, is_held_on, frame_places, entries_since};
ghost use Rattle.amqp_resource_record.specs.Hands.{commits, frames_at, frames_under, hands};
ghost use Rattle.amqp_resource_record.specs.Work.{work, origins, given_back, is_rejected, pairs};
ghost use Rattle.amqp_resource_record.specs.Answers.{Answer};
ghost use Rattle.amqp_resource_record.specs.Legal.{IsLegal};
ghost use Rattle.amqp_resource_record.specs.Others.{is_of_others};

/// What a legal record handed are the frames at its origins, stripped, and the frames of its pairs;
/// and for each there is one list, perhaps empty, of what was given back.
pub fn a_record_hands_the_frames_at_its_origins()
    ensures origins { (r : List Entry) → IsLegal r
        → work r ≡ map stripped (frames_at (steps_of r) (origins r)) }
    ensures pairs { (r : List Entry) → IsLegal r → map (λ (p : Frame × List Frame). p.0)
        (pairs r) ≡ work r }
    ensures given { (r : List Entry) → IsLegal r → length (given_back r) ≡ length (work r) }
{}

/// A live id has exactly one home, and that link is open. In a legal record the last entry that
/// declared the id is a control message on that link, answered with the declare of the id.
pub fn a_live_id_has_one_open_home()
    ensures one { (r : List Entry) (t : TransactionId) (k : ℕ) → is_live r t ≡ true
        → ((is_held_on r k t ≡ true) ↔ (home r t ≡ Some k)) }
    ensures open { (r : List Entry) (t : TransactionId) → is_live r t ≡ true → HasOpenHome r t }
    ensures declared { (r : List Entry) (t : TransactionId) → IsLegal r → is_live r t ≡ true
        → DeclaredAtHome r t }
{}

/// What a commit hands are the frames under its own id since the last declare of that id, in order,
/// each stripped: no frame of another id, and none of an earlier life of this one. They are as many
/// as the places of the id. An entry that was rejected, as a vetoed commit is, hands nothing.
pub fn a_commit_hands_the_frames_of_its_own_id()
    ensures own { (r : List Entry) (s : Step) (t : TransactionId) → commits r s ≡ Some t
        → hands r s ≡ map stripped (frames_under t (entries_since r t)) }
    ensures places { (r : List Entry) (t : TransactionId)
        → length (frames_under t (entries_since r t)) ≡ length (frame_places r t) }
    ensures rejected { (r : List Entry) (e : Entry) → is_rejected e.reply ≡ true
        → (work (r ++ e ∷ []) ≡ work r) × (origins (r ++ e ∷ []) ≡ origins r) }
{}

/// A frame under another id or under none, and a commit or rollback of another id, change neither
/// which frames an id has nor whether it is live.
pub fn others_leave_an_id_alone()
    ensures frames { (r : List Entry) (e : Entry) (t : TransactionId) → IsLegal (r ++ e ∷ [])
        → is_of_others t e.step ≡ true → frame_places (r ++ e ∷ []) t ≡ frame_places r t }
    ensures live { (r : List Entry) (e : Entry) (t : TransactionId) → IsLegal (r ++ e ∷ [])
        → is_of_others t e.step ≡ true → is_live (r ++ e ∷ []) t ≡ is_live r t }
{}

/// After a discharge of an id that was accepted or vetoed, and until it is declared anew, the id
/// isn't live, and the one answer to a discharge of it on an open link is that it is unknown.
pub fn a_discharged_id_is_unknown_until_declared_anew()
    ensures dead { (before later : List Entry) (e : Entry) (t : TransactionId)
        → discharges t e ≡ true → list_any (declares t) later ≡ false
        → is_live (before ++ e ∷ later) t ≡ false }
    ensures rejected { (before later : List Entry) (e : Entry) (t : TransactionId) (k : ℕ)
        (payload : List ℕ) (drawn : List TransactionId) (reply : Reply) → discharges t e ≡ true
        → list_any (declares t) later ≡ false → is_open (before ++ e ∷ later) k ≡ true
        → message_discharges t (message_of payload) ≡ true
        → Answer (before ++ e ∷ later) (steps.Control k payload) drawn reply
        → reply ≡ replies.Rejected transaction_errors.UnknownId texts.Absent }
{}
