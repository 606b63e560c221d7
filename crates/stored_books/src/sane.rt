//! Whether data stands for a sane book.

ghost use Rattle.std.specs.Prelude.{◌≡◌, ◌↔◌, [], true, IfOk, IsTrue};
ghost use Rattle.beam_model.specs.Positions.{items};
ghost use Rattle.beam_values.specs.Checked.{IsChecked};
ghost use Rattle.piece_checks.specs.Tiles.{AreItemsAscending};
ghost use Rattle.book_core.specs.Runs.{AreLengthsOf};
ghost use Rattle.book_core.specs.Stored.{IsSaneData};
ghost use Rattle.stored_books.specs.Facts.{AreListsTested, AreSettings, IsStateTested, IsTested};

use crate::keys::are_keys_sane;
use crate::lengths::are_lengths_of;
use crate::limits::{are_lists_short, are_options};
use crate::marks::{are_cells_sane, are_marks_sane};
use crate::nodes::are_at_own_nodes;
use crate::orders::are_lists_in_order;
use crate::pieces::{are_jobs_tried, are_ranges_sane};
use crate::plans::is_same_plan;
use crate::waiting::are_waiting_sane;
use beam_values::{NoMemory, Plan};
use book_core::BookData;
use pipeline_graph::Graph;
use std::alloc::Global;

/// Whether data stands for a sane book of this plan, and nothing in it is lost there.
pub fn is_sane_data(alloc: Global, graph: &Graph, stored: &BookData) -> Result<bool, NoMemory>
    ensures { IfOk result (λ is. (is ≡ true) ↔ IsSaneData graph.now stored.now) }
{
    is_tested(alloc, graph.plan(), stored)
}

/// The tests that cost least come first, and those whose facts others need.
fn is_tested(alloc: Global, plan: &Plan, stored: &BookData) -> Result<bool, NoMemory>
    requires { IsChecked plan.now }
    ensures { IfOk result (λ is. IsTrue is ↔ IsTested plan.now stored.now) }
{
    if !are_settings(alloc, plan, stored)? {
        return Ok(false);
    }
    if !are_lists_tested(plan, stored) {
        return Ok(false);
    }
    is_state_tested(alloc, plan, stored)
}

/// Whether the data is of the plan, with options that are allowed and the lengths of the plan's items.
fn are_settings(alloc: Global, plan: &Plan, stored: &BookData) -> Result<bool, NoMemory>
    ensures { IfOk result (λ is. IsTrue is ↔ AreSettings plan.now stored.now) }
{
    if !are_options(stored.options) {
        return Ok(false);
    }
    if !are_lengths_of(plan, stored.files.as_slice()) {
        return Ok(false);
    }
    is_same_plan(alloc, &stored.plan, plan)
}

/// Whether each list by itself is as it may be.
fn are_lists_tested(plan: &Plan, stored: &BookData) -> bool
    ensures { IsTrue result ↔ AreListsTested plan.now stored.now }
{
    are_lists_short(stored)
        && are_at_own_nodes(plan, stored)
        && are_lists_in_order(stored)
        && are_jobs_tried(stored)
}

/// Whether the lists are so among each other.
fn is_state_tested(alloc: Global, plan: &Plan, stored: &BookData) -> Result<bool, NoMemory>
    requires checked { IsChecked plan.now }
    requires lengths { AreLengthsOf (items [] plan.now) stored.now.files }
    ensures { IfOk result (λ is. IsTrue is ↔ IsStateTested plan.now stored.now) }
{
    if !are_ranges_sane(alloc, stored)? {
        return Ok(false);
    }
    if !are_waiting_sane(alloc, stored)? {
        return Ok(false);
    }
    if !are_marks_sane(alloc, plan, stored)? {
        return Ok(false);
    }
    if !are_cells_sane(alloc, plan, stored)? {
        return Ok(false);
    }
    are_keys_sane(alloc, plan, stored.keys.as_slice())
}
