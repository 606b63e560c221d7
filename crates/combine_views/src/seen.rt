ghost use Rattle.std.specs.Prelude.{◌≡◌, IfSome};
ghost use Rattle.beam_values.specs.Grouping.{key_of, part_of};
ghost use Rattle.beam_values.specs.Windows.{global_window};
ghost use Rattle.beam_model.specs.Spread.{from_source};
ghost use Rattle.beam_model.specs.Values.{blob};
ghost use Rattle.combine_lift.specs.Views.{view_value};
ghost use Rattle.combine_views.specs.Seen.{element_seen};

use beam_values::{Span, Time};
use combine_lift::View;

/// An element of a source, seen where its line lies.
#[derive(Clone, Copy, Debug)]
pub struct Seen<'a> {
    /// Of a pair, its key.
    pub key: Option<View<'a>>,
    /// Of a pair, its part; else the value.
    pub part: View<'a>,
    pub time: Time,
    pub span: Span,
}

impl<'a> Seen<'a> {
    /// As it comes from a source.
    pub fn from_source(text: &'a [u8], time: Time) -> Seen<'a>
        ensures { element_seen result
            ≡ from_source (record { value = blob text.now; time = time }) }
    {
        Seen {
            key: None,
            part: View::Text(text),
            time,
            span: all_of_time(),
        }
    }

    /// The same once more.
    pub fn again(&self) -> Seen<'a>
        ensures { element_seen result ≡ element_seen self.now }
    {
        Seen {
            span: self.span,
            ..*self
        }
    }

    /// The key and the part that it brings to a Group.
    pub fn keyed(&self) -> Option<(View<'a>, View<'a>)>
        ensures { IfSome result (λ keyed. (view_value keyed.0 ≡ key_of (element_seen self.now))
            × (view_value keyed.1 ≡ part_of (element_seen self.now))) }
    {
        match (self.key, self.part) {
            (Some(key), part) => Some((key, part)),
            // It may be a pair.
            (None, View::Whole(_)) => None,
            (None, part) => Some((View::Null, part)),
        }
    }
}

/// The window of all times.
pub fn all_of_time() -> Span
    ensures { result ≡ global_window }
{
    Span::between(Time::LEAST_MS, Time::GREATEST_MS + 1)
}
