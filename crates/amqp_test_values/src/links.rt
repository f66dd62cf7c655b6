//! Ends of links, and the calls of a link that are to fail.

ghost use Rattle.std.specs.Prelude.{◌≡◌, IfOk};
ghost use Rattle.amqp_test_values.specs.Links.{end_of};

use amqp_txn_types::{
    CallNumbers, LinkEnd, NoMemory, OutputHandle, ReceiverSettleMode, Role, SenderSettleMode, Text,
};
use std::alloc::Global;

/// An end of a link that has this output handle.
pub fn link_end(name: Text, role: Role, output: u32) -> LinkEnd
    ensures { result ≡ end_of name role output }
{
    LinkEnd {
        name,
        role,
        output: OutputHandle(output),
        snd_settle_mode: SenderSettleMode::Mixed,
        rcv_settle_mode: ReceiverSettleMode::First,
    }
}

/// The list of these numbers. The only error is out of memory.
pub fn call_numbers(alloc: Global, listed: &[u64]) -> Result<CallNumbers, NoMemory>
    ensures { IfOk result (λ numbers. numbers ≡ listed.now) }
{
    Ok(CallNumbers::from_vec(Vec::from_slice(alloc, listed)?))
}
