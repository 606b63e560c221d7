ghost use Rattle.std.specs.Prelude.{◌≡◌, ◌↔◌, true, nat_le};
ghost use Rattle.std.specs.List.{list_all};
ghost use Rattle.group_cells.specs.Sane.{ArePanesCounted};

use beam_values::Cell;

/// Whether no cell counts more panes than so many: those that there are, say. Takes no memory.
pub fn are_panes_counted(most: usize, cells: &[Cell]) -> bool
    ensures { (result ≡ true) ↔ ArePanesCounted most cells.now }
{
    are_counted(most, cells)
}

fn are_counted(most: usize, cells: &[Cell]) -> bool
    ensures { result ≡ list_all (λ cell. nat_le cell.next_index most) cells.now }
{
    cells.iter().all(|cell| cell.next_index as usize <= most)
}
