//! What pipelines mean, over whole runs: the definitions that every promise of the runner is stated in,
//! and the laws that hold of them.
//!
//! `specs/` takes the positions of each whole restriction one after another and filters complete
//! lists; nothing in it knows of pieces, trackers, bundles, retries or indexes, and the product runs
//! none of it. Read `specs/Positions.antt`, `Functions.antt`, `Steps.antt` and `Chains.antt` for what
//! single positions and elements give, then `Spread.antt`, `Flow.antt`, `Plain.antt`, `Covers.antt`,
//! `Account.antt` and `Rendering.antt` for whole runs; `Vectors.antt` computes each function and
//! source, and `proofs/Witnesses.antt`, `proofs/Branches.antt` and `proofs/LegalRuns.antt` show on
//! examples what the definitions refuse and admit. The layer above may rely on these definitions and on the laws in
//! `laws.rt` and `covering_laws.rt`, each the contract of a function without a body.
#![tactic(auto)]

mod covering_laws;
mod laws;

pub use covering_laws::{
    covering_ranges_bring_all_but_the_dead, covering_ranges_bring_everything,
    nothing_dead_leaves_nothing_out, the_items_of_a_plan_are_distinct,
};
pub use laws::{
    a_cut_range_covers_the_same, a_spread_steps_over_positions, ascending_is_sorted,
    chains_end_at_barriers, covers_append, flows_add, functions_keep_window_and_pane,
    merged_windows_are_apart, mergings_agree, next_positions_rise, nodes_stand_above_by_inputs,
    outputs_end_below_their_node, outputs_reach_barriers, panes_are_folded,
    plain_grouping_at_a_barrier_is_one_bag, plain_groupings_agree,
    plain_groupings_have_each_cell_once, plain_runs_agree, positions_between_give_nothing,
    positions_past_the_end_give_nothing, sessions_are_apart, spreads_join,
    stateful_outputs_keep_their_window,
};
