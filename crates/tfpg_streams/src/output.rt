//! Writing whole pieces to a sink.

ghost use Rattle.std.specs.Prelude.{◌≡◌, ◌++◌, List, ℕ, OnOk, OnErr};
ghost use Rattle.tfpg_base.specs.Outside.{Rose, Puts};
ghost use Rattle.tfpg_streams.specs.Writing.{Writes};

use tfpg_base::{Failed, Sink};

/// Writes the whole piece, in as many calls as the sink needs. Where it fails, a front of the piece was written.
pub fn write_all<K: Sink>(out: &mut K, piece: &[u8]) -> Result<(), Failed>
    ensures put { OnOk result (Puts (K.state out.old) (K.state out.new) piece.now) }
    ensures no_fault { OnOk result ((K.state out.new).faults ≡ (K.state out.old).faults) }
    ensures front { OnErr result ((front rest : List ℕ) × (piece.now ≡ front ++ rest) ×
        Puts (K.state out.old) (K.state out.new) front) }
    ensures writes { Writes piece.now (K.state out.old) (K.state out.new) result }
    ensures failed { OnErr result (Rose (K.state out.old).faults (K.state out.new).faults) }
{
    let mut rest = piece;
    while !rest.is_empty() {
        let count = out.put(rest)?;
        let (_, left) = rest.split_at(count);
        rest = left;
    }
    Ok(())
}
