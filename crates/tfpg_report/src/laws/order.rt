//! Laws of the order of the lines of a report.

ghost use Rattle.std.specs.Prelude.{◌≡◌, ℕ, List, [], ◌∷◌, ◌++◌, All, map, flat_map, true, Option, Some, None};
ghost use Rattle.tfpg_base.specs.declared.terms.Terms.{Terms};
ghost use Rattle.tfpg_evidence.specs.declared.round.Round.{Round};
ghost use Rattle.tfpg_log.specs.declared.refused_line.RefusedLine.{RefusedLine};
ghost use Rattle.tfpg_report.specs.declared.report_line.ReportLine.{ReportLine};
ghost use Rattle.tfpg_report.specs.declared.stand.Stand.{Stand};
ghost use Rattle.tfpg_report.specs.Blocks.{Block, RefusedBlock, Loss, block_lines, lines_before_counts, round_lines};
ghost use Rattle.tfpg_report.specs.InOrder.{HasRisingTraces, RiseByPanel, IsInOrder};
ghost use Rattle.tfpg_report.specs.Reading.{IsHead, begun_in};
ghost use Rattle.tfpg_report.specs.Stands.{may_begin_block, stand_after_all, stand_of};

/// Wherever a block may begin, the lines of a round may come as they are written, if its traces rise by node. After them the
/// losses of panels may come, by rising numbers.
pub fn a_round_is_read_in_its_order()
    ensures round { (round : Round) (at : Stand) → HasRisingTraces round → may_begin_block at ≡ true →
        stand_after_all at (round_lines round) ≡ Some (Stand.Counts None) }
    ensures losses { (losses : List Loss) → RiseByPanel losses →
        (last : Option ℕ) ×
        (stand_after_all (Stand.Counts None) (map (λ loss. ReportLine.Panel loss.panel loss.memory) losses)
        ≡ Some (Stand.Counts last)) }
{}

/// Wherever a block may begin, a whole one may come, and after it another one may begin.
pub fn a_block_is_read_in_its_order()
    ensures refused { (line : ℕ) (cause : RefusedLine) (at : Stand) → may_begin_block at ≡ true →
        stand_after_all at (block_lines (RefusedBlock line cause)) ≡ Some Stand.Block }
    ensures block { (block : Block) (at : Stand) → IsInOrder block → may_begin_block at ≡ true →
        (after : Stand) × (stand_after_all at (block_lines block) ≡ Some after) ×
        (may_begin_block after ≡ true) }
{}

/// The first line of a report and whole blocks may come in this order. If some lines may come, so may those with which they
/// begin.
pub fn a_report_is_read_in_its_order()
    ensures report { (terms : Terms) (head : ReportLine) (blocks : List Block) → IsHead terms head →
        All IsInOrder blocks →
        (after : Stand) × (stand_of (head ∷ flat_map block_lines blocks) ≡ Some after) ×
        (may_begin_block after ≡ true) }
    ensures front { (front back : List ReportLine) (after : Stand) → stand_of (front ++ back) ≡ Some after →
        (between : Stand) × (stand_of front ≡ Some between) × (stand_after_all between back ≡ Some after) }
{}

/// After a whole block no round is begun. Then one is begun by its lines before the counts, and by no others.
pub fn a_round_is_begun_by_its_lines()
    ensures ended { (lines : List ReportLine) (block : Block) → begun_in (lines ++ block_lines block) ≡ [] }
    ensures begun { (lines : List ReportLine) (round : Round) → begun_in lines ≡ [] →
        begun_in (lines ++ lines_before_counts round) ≡ lines_before_counts round }
{}
