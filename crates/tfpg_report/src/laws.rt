//! The laws of the crate's definitions, as functions that do nothing: each says its law in its clauses.

ghost use Rattle.std.specs.Prelude.{◌≡◌, ℕ, List};
ghost use Rattle.tfpg_graph.specs.Graph.{Tfpg};
ghost use Rattle.tfpg_graph.specs.Valid.{IsValid};
ghost use Rattle.tfpg_report.specs.ReportLines.{Says};
ghost use Rattle.tfpg_report.specs.declared.report_line.ReportLine.{ReportLine};

mod order;
mod read_back;

pub use order::{
    a_block_is_read_in_its_order, a_report_is_read_in_its_order, a_round_is_begun_by_its_lines,
    a_round_is_read_in_its_order,
};
pub use read_back::{a_rendered_round_is_read_back, a_round_is_read_back, lines_say_one_round};

/// Bytes say at most one line of a report of a valid graph.
pub fn a_report_line_says_one_thing()
    ensures { (graph : Tfpg) (line other : ReportLine) (bytes : List ℕ) → IsValid graph →
        Says graph line bytes → Says graph other bytes → line ≡ other }
{}
