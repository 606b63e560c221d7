//! Whether data stands for sane key cells.

ghost use Rattle.std.specs.Prelude.{◌↔◌, IfOk, IsTrue};
ghost use Rattle.stored_books.specs.Facts.{AreKeysTested};

use beam_values::{NoMemory, Plan};
use stateful_core::{KeyData, are_sane_keys};
use std::alloc::Global;

/// Whether data stands for key cells that are sane, whatever the commits were.
pub fn are_keys_sane(alloc: Global, plan: &Plan, keys: &[KeyData]) -> Result<bool, NoMemory>
    ensures { IfOk result (λ is. IsTrue is ↔ AreKeysTested plan.now keys.now) }
{
    are_sane_keys(alloc, plan, keys)
}
