//! Sets of nodes by their numbers, as words of bits.

ghost use Rattle.std.specs.Prelude.{◌≡◌, ◌⊎◌, ◌<◌, ◌↔◌, [], ◌∷◌, ℕ, IsTrue, Contains, MatchOption, length};
ghost use Rattle.tfpg_base.specs.Set.{with_member, IsSubset};
ghost use Rattle.tfpg_base.specs.NodeSet.{IsNodeSet};
ghost use Rattle.tfpg_base.specs.declared.limits.TheConstants.{MAX_NODE_NUMBERS};

use crate::MAX_NODE_NUMBERS;
use crate::bits::split_lowest;
use std::marker::Model;

/// How many words of 64 bits keep a set.
const WORDS: usize = MAX_NODE_NUMBERS as usize / 64;

/// A set of nodes, each by its number, which is below [`MAX_NODE_NUMBERS`](crate::MAX_NODE_NUMBERS). It takes no memory.
/// Contracts see it as the rising list of these numbers.
#[derive(Clone, Copy)]
pub struct NodeNumbers {
    words: [u64; WORDS],
}

impl Model for NodeNumbers {
    ghost use Rattle.std.specs.Prelude.{ℕ, List};
    ghost use Rattle.std.proofs.Common.{ap};
    ghost use Rattle.tfpg_base.specs.inside.NodeWords.{AreWords, nodes_of, words_keeping, words_keeping-nodes_of};

    ghost Value = { List ℕ };

    ghost view = { λ set. nodes_of set.words };

    ghost invariant = { λ set. AreWords set.words };

    ghost inverse = { λ nodes. record { words = words_keeping nodes } };

    ghost inverse_ok = { λ set are. ap (λ (words : List ℕ). record { words = words })
        (words_keeping-nodes_of set.words are) };
}

impl NodeNumbers {
    /// The set without a node.
    pub fn empty() -> NodeNumbers
        ensures { result ≡ [] }
    {
        NodeNumbers { words: [0; WORDS] }
    }

    /// The set with this node.
    pub fn with(self, node: u32) -> NodeNumbers
        requires { node < MAX_NODE_NUMBERS }
        ensures list { result ≡ with_member node self }
        ensures members { (other : ℕ) → Contains result other ↔ ((node ≡ other) ⊎ Contains self other) }
        ensures set { IsNodeSet result }
    {
        let mut words = self.words;
        words[(node / 64) as usize] |= 1 << (node % 64);
        NodeNumbers { words }
    }

    /// Whether the node is in the set.
    pub fn has(self, node: u32) -> bool
        ensures member { IsTrue result ↔ Contains self node }
        ensures set { IsNodeSet self }
    {
        node < MAX_NODE_NUMBERS && self.words[(node / 64) as usize] >> (node % 64) & 1 == 1
    }

    /// The least node, and the set of the others. Looks at each word once at most.
    pub fn split_first(self) -> Option<(u32, NodeNumbers)>
        ensures { MatchOption result (self ≡ []) (λ parts. self ≡ parts.0 ∷ parts.1) }
    {
        for number in 0..WORDS {
            let word = self.words[number];
            if word != 0 {
                let (index, rest) = split_lowest(word);
                let mut words = self.words;
                words[number] = rest;
                return Some((number as u32 * 64 + index, NodeNumbers { words }));
            }
        }
        None
    }

    /// How many nodes there are.
    pub fn len(self) -> u32
        ensures count { result ≡ length self }
        ensures set { IsNodeSet self }
    {
        let mut count = 0;
        for word in &self.words {
            count += word.count_ones();
        }
        count
    }

    /// Whether each node is one of the other set.
    pub fn is_subset(self, of: NodeNumbers) -> bool
        ensures { IsTrue result ↔ IsSubset self of }
    {
        for number in 0..WORDS {
            if self.words[number] & of.words[number] != self.words[number] {
                return false;
            }
        }
        true
    }
}
