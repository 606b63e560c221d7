//! Plan documents: from the bytes of a JSON text to a checked pipeline.
//!
//! What a document means is a function of the JSON value that its bytes read as
//! (`specs/Documents.antt`): a plan, or the first rule that it breaks, in the order of the top object,
//! the names of all nodes, and node after node its keys; last come the rules of a pipeline. A refusal of
//! the document has the numbers that nodes have there, and the plan its own (`specs/Placing.antt`). The
//! layer above relies on [`read_plan`] answering exactly this, but for want of memory, on
//! [`read_named_plan`] for the names of the nodes as well, and on [`refusal_text`] for the notes. It may
//! ask [`length_refusal`] before it reads a file. Texts are copied only into the plan. Read `document.rt`
//! first, then `nodes.rt`, `placing.rt`, `settings.rt` and `trees.rt`.
#![tactic(auto)]

mod document;
mod forms;
mod keys;
pub mod laws;
mod message;
mod names;
mod nodes;
mod placing;
mod refusal;
mod settings;
mod sources;
mod text;
mod trees;
mod windows;
mod words;

pub use document::{LONGEST_DOCUMENT, NamedPlan, length_refusal, read_named_plan, read_plan};
pub use refusal::{Place, PlanKey, PlanReadRefusal, PlanRefusal};
pub use text::refusal_text;
