//! An id source of one's own.

ghost use Rattle.std.specs.Prelude.{◌≡◌, ℕ};
ghost use Rattle.amqp_examples.specs.NodeIds.{id_of_node, ids_of_node};

use amqp_below_ids::IdSource;
use amqp_txn_types::TransactionId;

/// How far the node's number stands from the count in an id.
const NODE: u128 = 18_446_744_073_709_551_616;

/// Ids of one node of a cluster: 8 octets of the node's number, then 8 of a count, so that no two
/// nodes give the same.
#[derive(Debug, Drop)]
pub struct NodeIds {
    node: u64,
    count: u64,
}

impl NodeIds {
    /// The ids of the node from a count on. After 2^64 - 1 the count begins at 0.
    pub fn new(node: u64, count: u64) -> Self
        ensures { (n : ℕ) → ⟦<NodeIds as IdSource>⟧.next result n ≡ ids_of_node node count n }
    {
        NodeIds { node, count }
    }
}

#[tactic(auto, unfolding(crate::specs::NodeIds::id_of_node))]
fn node_id(node: u64, count: u64) -> TransactionId
    ensures { result ≡ id_of_node node count }
{
    let number = u128::from(node) * NODE + u128::from(count);
    TransactionId::from(number.to_be_bytes())
}

impl IdSource for NodeIds {
    ghost use Rattle.std.specs.Prelude.{None};
    ghost use Rattle.amqp_examples.specs.NodeIds.{ids_of_node};

    ghost next = { λ ids n. ids_of_node ids.node ids.count n };

    ghost start = { λ _. None };

    fn draw(&mut self) -> TransactionId {
        let id = node_id(self.node, self.count);
        self.count = self.count.wrapping_add(1);
        id
    }
}
