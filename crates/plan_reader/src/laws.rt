//! What the meaning of documents is to a reader. Each function does nothing: its contract is the law.

ghost use Rattle.std.specs.Prelude.{◌≡◌, ℕ, ◌<◌, ◌≤◌, ◌↔◌, ◌++◌, ◌∷◌, List, length, Some, None, Ok};
ghost use Rattle.std.specs.Prelude.{Err};
ghost use Rattle.beam_values.specs.Checked.{IsChecked};
ghost use Rattle.beam_values.specs.declared.plan.Plan.{Plan};
ghost use Rattle.plan_reader.specs.Documents.{beam_of, document_of, json_of, longest_document};
ghost use Rattle.plan_reader.specs.Documents.{document_nodes_of, plan_version};
ghost use Rattle.plan_reader.specs.Placing.{node_count, place_at, places_of};
ghost use Rattle.plan_reader.specs.declared.placing.DocumentNode.{DocumentNode};
ghost use Rattle.plan_reader.specs.declared.placing.DocumentNode.TheVariants.{Side};
ghost use Rattle.plan_reader.specs.declared.refusal.PlanRefusal.TheVariants as refusal;
ghost use Rattle.side_inputs.specs.Nodes.{IsSideAt};
ghost use Rattle.side_inputs.specs.declared.nodes.ViewMode.{ViewMode};

/// A document is refused for its length exactly where it is too long, and as no JSON text exactly where it
/// isn't too long and its bytes read as no JSON value.
pub fn documents_are_refused_for_their_bytes()
    ensures length { (bytes : List ℕ) (len : ℕ)
        → (document_of bytes ≡ Err (refusal.Length len))
        ↔ ((longest_document < length bytes) × (len ≡ length bytes)) }
    ensures syntax { (bytes : List ℕ)
        → (document_of bytes ≡ Err refusal.Syntax)
        ↔ ((length bytes ≤ longest_document) × (json_of bytes ≡ None)) }
{}

/// A document that is read is a pipeline. It has a number of 1, 2 or 3, which is the version of its plan where
/// it is 1 or 2; what is of number 3 is a plan of version 2.
pub fn documents_are_pipelines()
    ensures pipeline { (bytes : List ℕ) (plan : Plan) → document_of bytes ≡ Ok plan → IsChecked plan }
    ensures version { (bytes : List ℕ) (plan : Plan) → document_of bytes ≡ Ok plan
        → (beam : ℕ) × (beam_of bytes ≡ Some beam) × (1 ≤ beam) × (beam ≤ 3)
        × (plan.version ≡ plan_version beam) }
{}

/// Each side input of a document that is read stands in the plan after the nodes of those before it, of its
/// main input and its view, which are earlier nodes, and with windows that don't merge.
pub fn documents_place_their_sides()
    ensures { (bytes : List ℕ) (plan : Plan) (before after : List DocumentNode) (main view : ℕ)
        (mode : ViewMode) → document_of bytes ≡ Ok plan
        → document_nodes_of bytes ≡ Ok (before ++ Side main view mode ∷ after)
        → (let places = places_of (before ++ Side main view mode ∷ after) in
        IsSideAt plan (node_count before) (place_at places main) (place_at places view) mode) }
{}
