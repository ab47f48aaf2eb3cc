// The least of many ids, of which some come and go.
ghost use Rattle.std.specs.Prelude.{◌≡◌, ◌+◌, ◌*◌, ◌^◌, ◌<◌, ◌≤◌, ℕ, None, Some, [], IfOk, IfSome, IsSomeAnd, Contains};
ghost use Rattle.std.specs.Prelude.{drop, length, replicate, slice_set, slice_index_or};
ghost use Rattle.pcm_base.specs.declared.limits.TheConstants.{COUNTER_LIMIT};
ghost use Rattle.block_ledger.specs.Tree.{lesser};

use std::alloc::{AllocError, Global};
use std::marker::Model;

// A row of leaves, each with an id or none, under a binary tree whose nodes have the lesser of their two children. Node
// k has the children 2k and 2k + 1, the root is node 1, and the leaves are the last half. Contracts see the leaves.
#[derive(Drop)]
pub(crate) struct LeastTree {
    nodes: Vec<Option<u64>>,
    leaves: usize,
}

impl Model for LeastTree {
    ghost use Rattle.std.specs.Prelude.{ℕ, List, Option, drop};
    ghost use Rattle.block_ledger.specs.Tree.{IsTree};

    ghost Value = { List (Option ℕ) };

    ghost view = { λ t. drop t.leaves t.nodes.items };

    ghost invariant = { λ t. IsTree t.leaves t.nodes.items };
}

impl LeastTree {
    // A tree without leaves.
    pub(crate) fn new(alloc: Global) -> LeastTree
        ensures { result ≡ [] }
    {
        LeastTree {
            nodes: Vec::new(alloc),
            leaves: 0,
        }
    }

    // A tree with this many leaves, all without an id.
    pub(crate) fn with_leaves(alloc: Global, leaves: usize) -> Result<LeastTree, AllocError>
        requires { leaves < COUNTER_LIMIT }
        ensures { IfOk result (λ t. t ≡ replicate leaves None) }
    {
        let mut nodes = Vec::new(alloc);
        nodes.resize(2 * leaves, None)?;
        Ok(LeastTree { nodes, leaves })
    }

    // How many leaves there are.
    pub(crate) fn len(&self) -> usize
        ensures { result ≡ length self.now }
    {
        self.leaves
    }

    // Writes a leaf. One that stays as it is costs one look.
    pub(crate) fn set(&mut self, leaf: usize, id: Option<u64>)
        requires { leaf < length self.old }
        ensures { self.new ≡ slice_set self.old leaf id }
    {
        if self.nodes[self.leaves + leaf] != id {
            self.change(leaf, id);
        }
    }

    // Writes a leaf, and the nodes above it.
    fn change(&mut self, leaf: usize, id: Option<u64>)
        requires { leaf < length self.old }
        ensures { self.new ≡ slice_set self.old leaf id }
    {
        let mut node = self.leaves + leaf;
        self.nodes[node] = id;
        while node > 1 {
            node /= 2;
            self.nodes[node] = lesser(self.nodes[2 * node], self.nodes[2 * node + 1]);
        }
    }

    // The least id of the leaves.
    pub(crate) fn least(&self) -> Option<u64>
        ensures found { IfSome result (λ id. Contains self.now (Some id)) }
        ensures least { (id : ℕ) → Contains self.now (Some id) → IsSomeAnd result (λ least. least ≤ id) }
    {
        if self.leaves == 0 {
            return None;
        }
        self.nodes[1]
    }

    // The least id of the leaves from one on. Nodes of one level cover these leaves, or are looked at on the way up.
    pub(crate) fn least_from(&self, leaf: usize) -> Option<u64>
        requires { leaf ≤ length self.now }
        ensures found { IfSome result (λ id. Contains (drop leaf self.now) (Some id)) }
        ensures least { (id : ℕ) → Contains (drop leaf self.now) (Some id) → IsSomeAnd result (λ least. least ≤ id) }
    {
        let mut least = None;
        let mut from = self.leaves + leaf;
        let mut to = 2 * self.leaves;
        while from < to {
            least = lesser(least, lesser(self.nodes[from], self.nodes[to - 1]));
            from = from.div_ceil(2);
            to /= 2;
        }
        least
    }
}

// The lesser of two ids, of which either may be missing.
fn lesser(a: Option<u64>, b: Option<u64>) -> Option<u64>
    ensures { result ≡ lesser a b }
{
    match (a, b) {
        (Some(a), Some(b)) => Some(a.min(b)),
        (Some(a), None) => Some(a),
        (None, b) => b,
    }
}
