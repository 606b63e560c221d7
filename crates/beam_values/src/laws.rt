ghost use Rattle.std.specs.Prelude.{◌≡◌, ◌↔◌, ◌++◌, List, ℕ};
ghost use Rattle.beam_values.specs.Spelled.{Spells, SpellsElement};
ghost use Rattle.beam_values.specs.Spelling.{spelling, element_spelling};
ghost use Rattle.beam_values.specs.Storable.{IsStorable};

use crate::{Element, Value};

/// A value has exactly one spelling.
pub fn value_has_one_spelling(value: &Value)
    ensures { (bytes : List ℕ) → Spells value.now bytes ↔ (bytes ≡ spelling value.now) }
{}

/// An element has exactly one spelling.
pub fn element_has_one_spelling(element: &Element)
    ensures { (bytes : List ℕ)
        → SpellsElement element.now bytes ↔ (bytes ≡ element_spelling element.now) }
{
    // What is read of the numbers is that they have 64 bits.
    let _time = element.time.ms();
    let _start = element.span.start();
    let _end = element.span.end();
}

/// No spelling begins that of another value: where two begin the same bytes, they are the same, and
/// so is what follows them.
pub fn no_spelling_begins_another(a: &Value, b: &Value)
    ensures { (s t : List ℕ) → spelling a.now ++ s ≡ spelling b.now ++ t
        → (spelling a.now ≡ spelling b.now) × (s ≡ t) }
{}

/// Values whose whole numbers have 64 bits, as every value that was written or read has them, are the
/// same where they are spelled alike.
pub fn values_spelled_alike_are_the_same(a: &Value, b: &Value)
    ensures { IsStorable a.now → IsStorable b.now
        → spelling a.now ≡ spelling b.now → a.now ≡ b.now }
{}
