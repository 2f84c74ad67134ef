//! What a panel was told, where contracts alone see it.

ghost use Rattle.std.specs.Prelude.{◌≡◌, ◌++◌, ◌∷◌, [], List};
ghost use Rattle.tfpg_evidence.specs.declared.round.Round.{Round as RoundTold};
ghost use Rattle.tfpg_panel.specs.inside.StoredRounds.{stored_rounds};

use std::marker::Model;
use tfpg_evidence::Round;

/// The rounds that a panel was told, for contracts alone: it has no bytes, and takes no memory. A panel that cannot lend its rounds
/// keeps this beside what it makes of them, so that clauses still speak of them.
#[derive(Drop)]
pub struct ToldRounds {
    pub ghost rounds: { List RoundTold } by { stored_rounds },
}

impl Model for ToldRounds {
    ghost use base.Fml.{ftrue};

    ghost also_owns = { λ _. ftrue };
}

impl ToldRounds {
    /// None yet.
    pub fn none() -> ToldRounds
        ensures { result.rounds ≡ [] }
    {
        ToldRounds {}
    }

    /// These, and this round.
    pub fn with(&self, round: &Round) -> ToldRounds
        ensures { result.rounds ≡ self.now.rounds ++ round.entry.now ∷ [] }
    {
        let _ = self;
        let _ = round;
        ToldRounds {}
    }
}
