//! The words of `mailbox`.

ghost use Rattle.std.specs.Prelude.{◌≡◌, ◌<◌, length, IfOk, IfSome};
ghost use Rattle.txn_mailbox.specs.Lists.{mailbox_ids};

use amqp_txn_types::{NoMemory, Text};
use std::alloc::Global;
use txn_program_edges::{TransactionIds, id_list_of};
use txn_program_lines::is_text;

/// The ids of `mailbox ID ID ..`, 1 to 64 of them; `None` where the words are anything else. The
/// only error is out of memory.
pub fn mailbox_ids(alloc: Global, words: &[Text]) -> Result<Option<TransactionIds>, NoMemory>
    ensures ids { IfOk result (λ ids. ids ≡ mailbox_ids words.now) }
    ensures some { IfOk result (λ ids. IfSome ids (λ ids. 0 < length ids)) }
{
    let [word, others @ ..] = words else {
        return Ok(None);
    };
    if is_text(word.as_str().as_bytes(), "mailbox") {
        id_list_of(alloc, others)
    } else {
        Ok(None)
    }
}
