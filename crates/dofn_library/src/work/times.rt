ghost use Rattle.beam_values.specs.declared.plan.FnKind.TheVariants as kinds;

use crate::arguments::{later, number_of};
use crate::{ElementWork, SharedKeys};
use beam_values::{Args, Element, FnKind, List};
use dofn_traits::CallRefusal;
use std::alloc::Global;

/// Any value, so many milliseconds later.
#[derive(Drop)]
pub struct Shift;

impl ElementWork for Shift {
    ghost work = { kinds.Shift };

    fn kind() -> FnKind {
        FnKind::Shift
    }

    fn give(
        alloc: Global,
        _keys: &mut SharedKeys,
        args: &Args,
        e: &Element,
        out: &mut List<Element>,
    ) -> Result<(), CallRefusal> {
        out.push(Element {
            value: e.value.copy(alloc)?,
            time: later(e.time.ms(), number_of(args)),
            span: e.span,
            pane: e.pane,
        })?;
        Ok(())
    }
}
