//! Whether the panes that aren't through are panes of the run, and each is held at one place.

ghost use Rattle.std.specs.Prelude.{◌≡◌, ◌↔◌, ℕ, ◌==◌, IfOk, IsTrue};
ghost use Rattle.piece_checks.specs.Places.{Ascend, AreHeldOnce, IsHeldAt};
ghost use Rattle.piece_checks.specs.declared.places.HeldPlace.{HeldPlace as HeldPlaceOf};

use beam_values::{NoMemory, Pane};
use std::alloc::Global;

/// A pane that isn't through: its place among the panes of the run, and the Group at which it is held.
#[derive(Clone, Copy, Debug, PartialEq, Eq)]
pub struct HeldPlace {
    pub node: u32,
    pub pane: u32,
}

/// Whether each that is held is a pane of its Group, and none is held twice.
pub fn are_held_once(alloc: Global, panes: &[Pane], held: &[HeldPlace]) -> Result<bool, NoMemory>
    ensures { IfOk result (λ is. IsTrue is ↔ AreHeldOnce panes.now held.now) }
{
    let mut seen = vec![in alloc; false; panes.len()]?;
    for place in held {
        if !is_held_at(panes, place) || seen[place.pane as usize] {
            return Ok(false);
        }
        seen[place.pane as usize] = true;
    }
    Ok(true)
}

fn is_held_at(panes: &[Pane], held: &HeldPlace) -> bool
    ensures { IsTrue result ↔ IsHeldAt panes.now held.now }
{
    match panes.get(held.pane as usize) {
        Some(pane) => pane.node == held.node,
        None => false,
    }
}

/// Whether places rise, so that none stands twice.
pub fn ascend(places: &[u32]) -> bool
    ensures { IsTrue result ↔ Ascend places.now }
{
    places.is_sorted_by(|a, b| a < b)
}
