//! What came last of a diagnosis that goes line by line.

ghost use Rattle.std.specs.Prelude.{◌≡◌, ℕ, IfOk, IfSome, bytes_eq, not};
ghost use Rattle.tfpg_evidence.specs.RoundOf.{IsRoundOf};
ghost use Rattle.tfpg_graph.specs.Graph.{sizes_of};
ghost use Rattle.tfpg_diagnose.specs.inside.LineBlocks.{block_brought};
ghost use Rattle.tfpg_diagnose.specs.texts.Latest.{latest_with_block, nothing_yet, order_of, text_of_latest};

use crate::line_blocks::{Brought, refused_text, round_text};
use crate::report::first_line;
use std::alloc::Global;
use tfpg_base::NoMemory;
use tfpg_engine::Engine;
use tfpg_evidence::Round;
use tfpg_log::RefusedLine;

/// The last round, and what became of the last line.
#[derive(Drop)]
pub struct Latest {
    /// The round of the last line that was accepted, if one was.
    pub round: Option<Round>,
    /// Why the last line was refused, if it was.
    pub refusal: Option<RefusedLine>,
    /// Whether the last line brought a round that ranks other hypotheses than the round before it, or in another order. Where there was
    /// none before it, whether it ranks one.
    pub is_changed: bool,
}

impl Latest {
    /// Before the first line.
    pub(super) fn nothing() -> Latest
        ensures { result ≡ nothing_yet }
    {
        Latest {
            round: None,
            refusal: None,
            is_changed: false,
        }
    }

    /// Notes what one more line brought, whatever its number.
    pub(super) fn note(&mut self, brought: Brought)
        ensures { (number : ℕ) → self.new ≡ latest_with_block self.old (block_brought number brought) }
    {
        match brought {
            Brought::Refused(cause) => {
                self.refusal = Some(cause);
                self.is_changed = false;
            }
            Brought::Round(round) => {
                self.refusal = None;
                self.is_changed = differ(self.order(), round.order.as_slice());
                self.round = Some(round);
            }
        }
    }

    /// The text of what came last, where this is the number of the last line.
    pub(super) fn text(
        &self,
        alloc: Global,
        engine: &Engine,
        number: u64,
    ) -> Result<Vec<u8>, NoMemory>
        requires { IfSome self.now.round (IsRoundOf (sizes_of engine.now.graph)) }
        ensures { IfOk result (λ text. text.items ≡ text_of_latest engine.now.graph engine.now.terms number self.now) }
    {
        match self.refusal {
            Some(cause) => refused_text(alloc, number, cause),
            None => match &self.round {
                Some(round) => round_text(alloc, engine.graph(), round),
                None => first_line(alloc, engine.terms()),
            },
        }
    }

    /// The numbers of the hypotheses that the last round ranks, best first.
    pub fn order(&self) -> &[u32]
        ensures { result.now ≡ order_of self.now.round }
    {
        match &self.round {
            Some(round) => round.order.as_slice(),
            None => &[],
        }
    }
}

/// Whether the lists of numbers differ.
fn differ(one: &[u32], other: &[u32]) -> bool
    ensures { result ≡ not (bytes_eq one.now other.now) }
{
    one != other
}
