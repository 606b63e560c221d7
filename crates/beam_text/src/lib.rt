//! The texts of values, elements and whole outcomes, as the runner prints them.
//!
//! Values and elements are exact by `beam_values::specs::Texts`, [`render`] and [`summary`] by
//! `beam_model::specs::Rendering`: the layer above may rely on the one being the rendering of the
//! outcome, whatever order the elements and the logs came in, and on the other being its totals.
//! [`made_text`] is exact by the made lines of `beam_model::specs::Positions`. A text is appended in one
//! pass to a list of bytes, which isn't shared while it grows, and which becomes the answer where it
//! lies. Where memory is refused, [`push_value`] and [`push_blob`] leave the text as it was, and
//! [`push_escaped`] says how one byte is escaped there. What is put in order is references: no element is
//! copied. Elements are brought near to their order by numbers first (`ranks.rt`). Read `rendering.rt`
//! first.
#![tactic(auto)]

mod dead;
mod element;
mod logs;
mod made;
mod ranks;
mod refusal;
mod rendering;
mod totals;
mod value;
mod writes;

pub use element::push_element;
pub use made::made_text;
pub use refusal::ScheduleRefusal;
pub use rendering::render;
pub use totals::summary;
pub use value::{push_blob, push_escaped, push_value};
