//! What the controllers know: of each transaction, and of each link.

ghost use Rattle.std.specs.Prelude.{◌≡◌, ◌<◌, [], Some, length, false, slice_get, replicate, IfOk, OnErr, OnOk};
ghost use Rattle.txn_parties.specs.Items.{or_else};
ghost use Rattle.txn_world_wires.specs.Knowing.{Hears, declaring, discharging, ending, has_ended, is_open_at, with_transaction};

use crate::control_links::ControlLinks;
use amqp_resource_record::Entry;
use amqp_txn_types::{NoMemory, TransactionId};
use std::alloc::Global;
use std::marker::Model;
use txn_parties::{Answered, Asked, Heard};

/// What its controller knows of one transaction.
#[derive(Clone, Copy, Debug, PartialEq, Eq)]
pub struct Transaction {
    /// The number of its controller, which is that of the control link.
    pub link: u32,
    /// The id, once it heard that it is declared.
    pub id: Option<TransactionId>,
    /// What its discharge was answered.
    pub verdict: Option<Heard>,
    /// Whether its discharge was sent.
    pub sent: bool,
    /// What it asked and has heard no answer to.
    pub awaits: Option<Asked>,
}

/// The controllers: their transactions by number, of each link whether its end was sent, and the
/// controllers' ends of the links, on which transactions are declared and discharged.
///
/// A contract sees the transactions and the ends that were sent. What a transaction awaits its call
/// on the link awaits, too.
#[derive(Drop)]
pub struct Controllers {
    transactions: Vec<Transaction>,
    ended: Vec<bool>,
    links: ControlLinks,
}

impl Model for Controllers {
    ghost use Rattle.txn_world_wires.specs.Known.{Known};

    ghost Value = { Known };

    ghost use Rattle.txn_world_wires.specs.Asking.{AreLinked};

    ghost view = { λ c. record { transactions = c.transactions.items; ended = c.ended.items } };

    ghost invariant = { λ c. AreLinked c.transactions.items c.ended.items c.links };
}

/// The first that is there.
fn first_of<T: Copy>(first: Option<T>, second: Option<T>) -> Option<T>
    ensures { result ≡ or_else first second }
{
    match first {
        Some(value) => Some(value),
        None => second,
    }
}

impl Controllers {
    /// Controllers of links that were attached so, without a transaction. Out of memory is the only
    /// error.
    pub fn new(alloc: Global, attaches: &[Entry]) -> Result<Self, NoMemory>
        ensures transactions { IfOk result (λ known. known.transactions ≡ []) }
        ensures ended { IfOk result (λ known. known.ended
            ≡ replicate (length attaches.now) false) }
    {
        let links = ControlLinks::new(alloc, attaches)?;
        let mut ended = Vec::new(alloc);
        for _link in 0..attaches.len() {
            ended.push(false)?;
        }
        Ok(Controllers {
            transactions: Vec::new(alloc),
            ended,
            links,
        })
    }

    /// How many transactions there are.
    pub fn len(&self) -> usize
        ensures { result ≡ length self.now.transactions }
    {
        self.transactions.len()
    }

    /// The transaction with this number.
    pub fn find(&self, txn: u32) -> Option<Transaction>
        ensures { result ≡ slice_get self.now.transactions txn }
    {
        self.transactions.get(txn as usize).copied()
    }

    /// Whether there is a controller with this number that has sent no link end.
    pub fn is_open(&self, link: u32) -> bool
        ensures { result ≡ is_open_at self.now link }
    {
        match self.ended.get(link as usize) {
            None => false,
            Some(ended) => !*ended,
        }
    }

    /// Whether the controller with this number has sent a link end.
    pub fn has_ended(&self, link: u32) -> bool
        ensures { result ≡ has_ended (slice_get self.now.ended link) }
    {
        match self.ended.get(link as usize) {
            None => false,
            Some(ended) => *ended,
        }
    }

    /// Declares a new transaction on the link. Where memory runs out nothing changes.
    pub fn declare(&mut self, link: u32) -> Result<(), NoMemory>
        requires { link < length self.old.ended }
        ensures ok { OnOk result (self.new ≡ declaring self.old link) }
        ensures err { OnErr result (self.new ≡ self.old) }
    {
        let txn = Transaction {
            link,
            id: None,
            verdict: None,
            sent: false,
            awaits: Some(Asked::Declare),
        };
        self.transactions.reserve(1)?;
        self.links.declare(link)?;
        self.transactions.push_reserved(txn);
        Ok(())
    }

    /// Discharges the transaction under its id. Where memory runs out nothing changes.
    pub fn discharge(
        &mut self,
        number: u32,
        txn: Transaction,
        id: TransactionId,
        rollback: bool,
    ) -> Result<(), NoMemory>
        requires { slice_get self.old.transactions number ≡ Some txn }
        ensures ok { OnOk result
            (self.new ≡ with_transaction self.old number (discharging txn rollback)) }
        ensures err { OnErr result (self.new ≡ self.old) }
    {
        let asked = if rollback {
            Asked::Rollback
        } else {
            Asked::Commit
        };
        self.links.discharge(number, txn.link, id, rollback)?;
        self.transactions[number as usize] = Transaction {
            link: txn.link,
            id: txn.id,
            verdict: txn.verdict,
            sent: true,
            awaits: Some(asked),
        };
        Ok(())
    }

    /// The transaction hears the answer, and tells whether it awaited one to such a request. Where
    /// memory runs out nothing changes.
    pub fn hear(&mut self, txn: Transaction, answer: Answered) -> Result<bool, NoMemory>
        requires { slice_get self.old.transactions answer.txn ≡ Some txn }
        ensures ok { IfOk result (λ heard. Hears self.old self.new txn answer heard) }
        ensures err { OnErr result (self.new ≡ self.old) }
    {
        match self.links.hear(answer.txn, answer.asked, answer.state)? {
            None => Ok(false),
            Some(heard) => {
                let id = first_of(txn.id, heard.id);
                let verdict = first_of(txn.verdict, heard.verdict);
                self.transactions[answer.txn as usize] = Transaction {
                    link: txn.link,
                    id,
                    verdict,
                    sent: txn.sent,
                    awaits: None,
                };
                Ok(true)
            }
        }
    }

    /// Ends the link.
    pub fn end(&mut self, link: u32)
        requires { link < length self.old.ended }
        ensures { self.new ≡ ending self.old link }
    {
        self.ended[link as usize] = true;
    }
}
