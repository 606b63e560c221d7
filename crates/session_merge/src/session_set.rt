ghost use Rattle.std.specs.Prelude.{◌≡◌, ◌↔◌, List, [], ◌∷◌, ◌++◌, All, Contains, IsTrue, IfOk};
ghost use Rattle.std.specs.Prelude.{OnOk, OnErr};
ghost use Rattle.std.specs.Bool.{OnTrue, OnFalse};
ghost use Rattle.beam_values.specs.Intervals.{Interval};
ghost use Rattle.beam_values.specs.Sessions.{LiesIn, IsNonEmpty, IsSession};
ghost use Rattle.session_merge.specs.Merging.{AreApart, GivesWay, IsTakenOut, AreSessionsOf};
ghost use Rattle.session_merge.specs.Merging.{those_outside};

use crate::runs::{Merged, merge_into, place_of};
use beam_values::{NoMemory, Span};
use std::alloc::Global;
use std::marker::Model;

/// The sessions of one key: windows in ascending order, no two of which overlap.
#[derive(Debug, Drop)]
pub struct SessionSet {
    spans: Vec<Span>,
    alloc: Global,
}

impl Model for SessionSet {
    ghost use Rattle.std.specs.Prelude.{List as ListOf};
    ghost use Rattle.std.specs.Coded.{codes};
    ghost use Rattle.beam_values.specs.Intervals.{Interval};
    ghost use Rattle.session_merge.specs.Merging.{AreApart};

    ghost Value = { ListOf Interval };

    ghost coded = { Prim.hlevel codes };

    ghost view = { λ s. s.spans.items };

    ghost invariant = { λ s. AreApart s.spans.items };
}

impl SessionSet {
    /// Takes no memory.
    pub fn new(alloc: Global) -> SessionSet
        ensures { result ≡ [] }
    {
        SessionSet {
            spans: Vec::new(alloc),
            alloc,
        }
    }

    /// The sessions, ascending. The end of one may be the start of the next.
    pub fn spans(&self) -> &[Span]
        ensures value { result.now ≡ self.now }
        ensures apart { AreApart self.now }
    {
        self.spans.as_slice()
    }

    /// Merges a window with all listed windows that it overlaps. Windows that only touch stay apart.
    pub fn insert(&mut self, span: Span) -> Result<Merged, NoMemory>
        // What repeated merging makes of the window is a session of the listed windows and itself.
        ensures session { IfOk result (λ merged. IsSession (self.old ++ span ∷ []) merged.span) }
        ensures holds { IfOk result (λ merged. LiesIn span merged.span) }
        ensures listed { IfOk result
            (λ merged. GivesWay self.old merged.absorbed merged.span self.new) }
        ensures err { OnErr result (self.new ≡ self.old) }

        // What is listed stays the sessions of all that was inserted.
        ensures sessions { OnOk result ((spans : List Interval) → All IsNonEmpty spans
            → AreSessionsOf (Contains spans) self.old
            → AreSessionsOf (Contains (spans ++ span ∷ [])) self.new) }
    {
        merge_into(self.alloc, &mut self.spans, span)
    }

    /// Takes a listed window out. A window that isn't listed changes nothing.
    pub fn remove(&mut self, span: Span) -> bool
        ensures found { IsTrue result ↔ Contains self.old span }
        ensures removed { OnTrue result (IsTakenOut self.old span self.new) }
        ensures kept { OnFalse result (self.new ≡ self.old) }

        // What is listed stays the sessions of all that was inserted and doesn't lie in this window.
        ensures sessions { OnTrue result ((spans : List Interval) → All IsNonEmpty spans
            → AreSessionsOf (Contains spans) self.old
            → AreSessionsOf (Contains (those_outside span spans)) self.new) }
    {
        let Some(at) = place_of(self.spans.as_slice(), span) else {
            return false;
        };
        self.spans.remove(at);
        true
    }
}
