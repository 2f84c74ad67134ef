//! What the definitions of this crate come to, as functions that do nothing: each says its law in its clause.

ghost use Rattle.std.specs.Prelude.{◌≡◌, ℕ, ◌<◌, pos, List, [], Option, Some};
ghost use Rattle.tfpg_base.specs.declared.limits.TheConstants.{NEVER};
ghost use Rattle.tfpg_base.specs.declared.constraint.Constraint.{Constraint};
ghost use Rattle.tfpg_base.specs.Bounds.{at_most, at_least};
ghost use Rattle.tfpg_diff.specs.declared.why.Why.{Why};
ghost use Rattle.tfpg_diff.specs.declared.why.Why.TheVariants.{Floor, Ceiling, Given};
ghost use Rattle.tfpg_diff.specs.Demands.{Demands};
ghost use Rattle.tfpg_diff.specs.Cycle.{NamesNegativeCycle};
ghost use Rattle.tfpg_diff.specs.Named.{AreDemandsNamed, AreNamesOfNegativeCycle};
ghost use Rattle.tfpg_diff.specs.SystemState.{unbounded_from, with_floor, with_ceiling, with_pick, popped_to};

/// Tags name the constraints of a new system where those of its variables do: `Floor` that the variable is at least 0,
/// and `Ceiling` that it is at most one past the last millisecond.
pub fn tags_name_what_is_new()
    ensures { (named : Why → Option Constraint) (count : ℕ) →
        ((variable : ℕ) → variable < count →
        named (Floor variable) ≡ Some (at_least variable 0)) →
        ((variable : ℕ) → variable < count →
        named (Ceiling variable) ≡ Some (at_most variable (pos NEVER))) →
        AreDemandsNamed (record { bounds = unbounded_from 0 count; picks = [] }) named }
{}

/// Tags that name the constraints of a system go on doing so: after a bound or a pick that the new tag names, and after
/// picks were popped.
pub fn tags_name_what_is_added()
    ensures floor { (demands : Demands) (named : Why → Option Constraint) (variable least tag : ℕ) →
        AreDemandsNamed demands named →
        named (Given tag) ≡ Some (at_least variable least) →
        AreDemandsNamed (with_floor demands variable least tag) named }
    ensures ceiling { (demands : Demands) (named : Why → Option Constraint) (variable ceiling tag : ℕ) →
        AreDemandsNamed demands named →
        named (Given tag) ≡ Some (at_most variable (pos ceiling)) →
        AreDemandsNamed (with_ceiling demands variable ceiling tag) named }
    ensures pick { (demands : Demands) (named : Why → Option Constraint) (constraint : Constraint) (tag : ℕ) →
        AreDemandsNamed demands named → named (Given tag) ≡ Some constraint →
        AreDemandsNamed (with_pick demands constraint tag) named }
    ensures popped { (demands : Demands) (named : Why → Option Constraint) (len : ℕ) →
        AreDemandsNamed demands named → AreDemandsNamed (popped_to demands len) named }
{}

/// Where tags name the constraints of a system, those of a negative cycle name constraints that chain into one.
pub fn tags_name_the_cycle()
    ensures { (demands : Demands) (named : Why → Option Constraint) (tags : List Why) →
        AreDemandsNamed demands named → NamesNegativeCycle demands tags →
        (constraints : List Constraint) × AreNamesOfNegativeCycle named tags constraints }
{}
