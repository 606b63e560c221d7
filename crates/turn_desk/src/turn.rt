//! What a turn lends.
ghost use Rattle.std.specs.Prelude.{◌≡◌};
ghost use Rattle.std.specs.Borrow.{Lends, sem};
ghost use Rattle.turn_desk.specs.contracts.desk.Turn.{the_row};
ghost use Rattle.turn_desk.specs.Seen.{present_value, with_value};

use crate::desk::Turn;
use crate::held::Held;

impl<V: Held> Turn<V> {
    /// The value, as it now is. What is written through the borrow is then present.
    pub fn value(&mut self) -> &mut V
        ensures* writes_back { sem 𝓛 (Lends (the_row V.row V.About.row V.Constant.row V.Held)
            V.row self.entry result (λ w. with_value self.old w)) }
        ensures value { result.now ≡ present_value self.old }
    {
        &mut self.value
    }
}
