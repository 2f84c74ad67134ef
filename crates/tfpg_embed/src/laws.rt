//! Laws about the definitions of this crate: public functions that do nothing.

ghost use Rattle.std.specs.Prelude.{◌≡◌, ◌∷◌, [], ℕ, List, All, None, Option, Some, flat_map};
ghost use Rattle.tfpg_base.specs.Lines.{HasNoLineEnd, lines_of, with_line_end};
ghost use Rattle.tfpg_base.specs.declared.terms.Terms.{Terms};
ghost use Rattle.tfpg_graph.specs.Graph.{Tfpg};
ghost use Rattle.tfpg_graph.specs.Valid.{IsValid};
ghost use Rattle.tfpg_graph.specs.declared.cause.GraphCause.{GraphCause};
ghost use Rattle.tfpg_log.specs.declared.refused_line.RefusedLine.{RefusedLine};
ghost use Rattle.tfpg_check.specs.declared.cause.CheckCause.{CheckCause};
ghost use Rattle.tfpg_diagnose.specs.texts.Opening.{GivesGraphOf};
ghost use Rattle.tfpg_diagnose.specs.texts.Reports.{IsReportOfTexts};
ghost use Rattle.tfpg_diagnose.specs.texts.Sessions.{SessionRepresents, SessionState};
ghost use Rattle.tfpg_embed.specs.Causes.{check_cause_number, graph_cause_number};
ghost use Rattle.tfpg_embed.specs.EventLines.{no_name};
ghost use Rattle.tfpg_embed.specs.Names.{index_in, name_in};
ghost use Rattle.tfpg_embed.specs.Results.{last_time, why_number};
ghost use Rattle.tfpg_embed.specs.declared.kinds.TheConstants.{NODE_NAME, FAILURE_NAME, MODE_NAME, ALARM, SILENT, SWEEP, TICK, MODE};
ghost use Rattle.tfpg_embed.specs.declared.status.TheConstants.{DONE, NOT_ACCEPTED, OUT_OF_RANGE, BAD_GRAPH, TOO_MANY_HYPOTHESES, TOO_MUCH_INPUT, NO_MEMORY, ROOM_TOO_SMALL, ENDED, NO_SUCH, BAD_MAP, FULL_GRAPH};

use tfpg_graph::laws::a_node_is_found_by_its_name;

/// A law: the statuses and the kinds of names and of events are these numbers; a number says one cause of a graph, and one of a report; and a
/// number with its time says one thing that a line came to. The numbers of causes are the rows of `graph_cause_number`,
/// `check_cause_number` and `why_number`. `include/tfpg.h` has all of them once more, and `tools/checks/c/embed.sh` compares them.
pub fn each_number_says_one_thing()
    ensures statuses { DONE ∷ NOT_ACCEPTED ∷ OUT_OF_RANGE ∷ BAD_GRAPH ∷ TOO_MANY_HYPOTHESES ∷ TOO_MUCH_INPUT ∷ NO_MEMORY ∷ ROOM_TOO_SMALL ∷ ENDED
        ∷ NO_SUCH ∷ BAD_MAP ∷ FULL_GRAPH ∷ [] ≡ 0 ∷ 1 ∷ 2 ∷ 3 ∷ 4 ∷ 7 ∷ 8 ∷ 9 ∷ 10 ∷ 11 ∷ 12 ∷ 13 ∷ [] }
    ensures name_kinds { NODE_NAME ∷ FAILURE_NAME ∷ MODE_NAME ∷ [] ≡ 1 ∷ 2 ∷ 3 ∷ [] }
    ensures event_kinds { ALARM ∷ SILENT ∷ SWEEP ∷ TICK ∷ MODE ∷ [] ≡ 1 ∷ 2 ∷ 3 ∷ 4 ∷ 5 ∷ [] }
    ensures graph_causes { (cause other : GraphCause) → graph_cause_number cause ≡ graph_cause_number other → cause ≡ other }
    ensures report_causes { (cause other : CheckCause) → check_cause_number cause ≡ check_cause_number other → cause ≡ other }
    ensures refusals { (why other : Option RefusedLine) → why_number why ≡ why_number other → last_time why ≡ last_time other → why ≡ other }
{}

/// A law: in a valid graph what has a name is found by it, and what is found by a name has it. So `tfpg_index` and `tfpg_name` lead to each
/// other.
pub fn names_and_indexes_lead_to_each_other()
    ensures found { (graph : Tfpg) (kind index : ℕ) (name : List ℕ) → IsValid graph →
        name_in graph kind index ≡ Some name → index_in graph kind name ≡ Some index }
    ensures named { (graph : Tfpg) (kind index : ℕ) (name : List ℕ) →
        index_in graph kind name ≡ Some index → name_in graph kind index ≡ Some name }
{
    a_node_is_found_by_its_name();
}

/// A law: in a valid graph nothing has the word as its name that stands in the line of an event for the name of what there is not.
pub fn nothing_has_the_word_for_no_name()
    ensures { (graph : Tfpg) (kind : ℕ) → IsValid graph → index_in graph kind no_name ≡ None }
{
    a_node_is_found_by_its_name();
}

/// A law: lines that have no line end inside are the lines of the text in which each is followed by one. So what a session returned for them,
/// its first line and then the blocks, is a report of that text.
pub fn a_session_of_lines_is_of_their_text()
    ensures lines { (lines : List (List ℕ)) → All HasNoLineEnd lines → lines_of (flat_map with_line_end lines) ≡ lines }
    ensures report { (graph_text : List ℕ) (graph : Tfpg) (terms : Terms) (lines : List (List ℕ)) (bytes : List ℕ) (session : SessionState) →
        GivesGraphOf graph_text graph → SessionRepresents graph terms lines bytes session → All HasNoLineEnd lines →
        IsReportOfTexts graph_text terms (flat_map with_line_end lines) bytes }
{}
