//! What an acquisition does to its receiver.

ghost use Rattle.std.specs.Prelude.{◌≡◌, IfOk, codes};
ghost use Rattle.amqp_links.specs.OneCall.{OneInsertion, OneRemoval};
ghost use Rattle.amqp_controller_acquisition.specs.Receivers.{OneAcquisition, OneCleanup, PutsKey, has_key, names_transaction, txn_id_key};

use amqp_links::{FlowError, ReceiverLink};
use amqp_txn_types::{Binary, Fields, NoMemory, Symbol, TransactionId, Value};
use std::alloc::Global;

/// The key of the property that names the transaction.
const TXN_ID: &str = "txn-id";

/// The key of the property that names the transaction, as a symbol. One that is kept lets a cleanup
/// take no memory.
#[derive(Drop)]
pub struct TxnIdKey {
    symbol: Symbol,
    ghost named: { symbol ≡ codes "txn-id" },
}

impl TxnIdKey {
    /// The key, in memory of its own.
    pub fn new(alloc: Global) -> Result<TxnIdKey, NoMemory>
        ensures { IfOk result (λ key. key.symbol ≡ txn_id_key) }
    {
        let symbol = Symbol::from_str(alloc, TXN_ID)?;
        Ok(TxnIdKey { symbol })
    }
}

/// Whether the pairs have the key.
fn has_key(fields: &Fields, key: &str) -> bool
    ensures { result ≡ has_key key.now fields.now }
{
    for index in 0..fields.len() {
        let (other, _) = fields.get(index).unwrap();
        if key == other.as_str() {
            return true;
        }
    }
    false
}

/// Whether the receiver's properties name a transaction.
fn names_transaction<R: ReceiverLink>(recver: &R) -> bool
    ensures { result ≡ names_transaction (R.told recver.now) }
{
    match recver.properties() {
        None => false,
        Some(fields) => has_key(fields, TXN_ID),
    }
}

/// What an acquisition does to its receiver: names the transaction in the properties, and tells the
/// peer so by one flow with the credit. It answers the key, by which a cleanup takes that out.
///
/// # Errors
///
/// After each the properties are as before, where no map of them is as an empty one, and nothing
/// was put.
///
/// - `IllegalState`: exactly where the properties named a transaction already, or the link's
///   `send_flow` answered it.
/// - what else that answered.
/// - `NoMemory`: memory runs out for the property.
pub fn acquire_on_link<R: ReceiverLink>(
    alloc: Global,
    recver: &mut R,
    txn_id: &TransactionId,
    credit: u32,
) -> Result<TxnIdKey, FlowError>
    ensures { OneAcquisition R.told R.insert_gives R.remove_gives R.flow_gives recver.old
        recver.new txn_id.now credit result }
{
    if names_transaction(recver) {
        return Err(FlowError::IllegalState);
    }
    let key = TxnIdKey::new(alloc)?;
    name_transaction(alloc, recver, txn_id)?;
    if let Err(fault) = recver.send_flow(Some(credit), None, false, true) {
        unname(recver, &key);
        return Err(fault);
    }
    Ok(key)
}

/// Puts the key with the binary id.
fn name_transaction<R: ReceiverLink>(
    alloc: Global,
    recver: &mut R,
    txn_id: &TransactionId,
) -> Result<(), NoMemory>
    ensures { PutsKey (OneInsertion R.insert_gives R.told) recver.old recver.new txn_id.now result }
{
    let TxnIdKey { symbol } = TxnIdKey::new(alloc)?;
    let octets = Binary::from_slice(alloc, txn_id.as_ref())?;
    recver.insert_property(symbol, Value::Binary(octets))
}

/// Takes the key out.
fn unname<R: ReceiverLink>(recver: &mut R, key: &TxnIdKey)
    ensures { OneRemoval R.remove_gives R.told recver.old recver.new txn_id_key }
{
    recver.remove_property(&key.symbol);
}

/// What a cleanup does to its receiver: takes the transaction out of the properties, and tells the
/// peer so by one flow, without credit, to be drained, to be answered. After an error, which is
/// that of the link's `send_flow`, it is taken out all the same.
pub fn clean_up_on_link<R: ReceiverLink>(recver: &mut R, key: &TxnIdKey) -> Result<(), FlowError>
    ensures { OneCleanup R.told R.remove_gives R.flow_gives recver.old recver.new result }
{
    unname(recver, key);
    recver.send_flow(Some(0), Some(true), true, true)
}
