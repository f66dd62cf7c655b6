//! Laws of the grammar, each the contract of a function that does nothing.

ghost use Rattle.std.specs.Prelude.{◌≡◌, ◌↔◌, List, ◌++◌, ℕ, Some};
ghost use Rattle.amqp_txn_codec.specs.declared.message.ControlMessageBody.{ControlMessageBody};
ghost use Rattle.amqp_txn_codec.specs.Canon.{canon, HoldsShortIds};
ghost use Rattle.amqp_txn_codec.specs.Messages.{SpellsMessage};
ghost use Rattle.amqp_txn_codec.specs.Reading.{message_of};
ghost use Rattle.amqp_txn_codec.specs.Sections.{IsFooterOrNone};
ghost use Rattle.amqp_txn_codec.specs.Values.{IsValue};

/// No value begins another, so at most one value lies at the front of any octets.
pub fn no_value_begins_another()
    ensures { (x y s t : List ℕ) → IsValue x → IsValue y → x ++ s ≡ y ++ t → (x ≡ y) × (s ≡ t) }
{}

/// Octets spell at most one message.
pub fn octets_spell_one_message()
    ensures { (bytes : List ℕ) (m l : ControlMessageBody)
        → SpellsMessage bytes m → SpellsMessage bytes l → m ≡ l }
{}

/// The message that is read from octets, as a function, is the one that they spell.
pub fn spelled_messages_are_read()
    ensures { (bytes : List ℕ) (m : ControlMessageBody)
        → (SpellsMessage bytes m ↔ (message_of bytes ≡ Some m)) }
{}

/// The canonical spelling of a message spells it.
pub fn canonical_spelling_spells()
    ensures { (m : ControlMessageBody) → HoldsShortIds m → SpellsMessage (canon m) m }
{}

/// Octets behind a message that make a longer one are one footer, and the message is the same.
pub fn only_a_footer_may_follow()
    ensures { (bytes more : List ℕ) (m l : ControlMessageBody)
        → SpellsMessage bytes m → SpellsMessage (bytes ++ more) l
        → (m ≡ l) × IsFooterOrNone more }
{}
