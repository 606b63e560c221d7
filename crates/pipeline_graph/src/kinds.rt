ghost use Rattle.std.specs.Prelude.{◌≡◌};
ghost use Rattle.beam_values.specs.Checked.{has_arity};
ghost use Rattle.beam_values.specs.Nodes.{is_source_kind};

use beam_values::NodeKind;

/// The greatest number of inputs of a Flatten.
pub const MOST_INPUTS: usize = 8;

pub(crate) fn is_source(kind: &NodeKind) -> bool
    ensures { result ≡ is_source_kind kind.now }
{
    matches!(kind, NodeKind::Source { .. })
}

// What a source may have is another rule's.
pub(crate) fn has_arity(kind: &NodeKind, inputs: &[u32]) -> bool
    ensures { result ≡ has_arity kind.now inputs.now }
{
    match kind {
        NodeKind::Source { .. } => true,
        NodeKind::Flatten => 1 <= inputs.len() && inputs.len() <= MOST_INPUTS,
        _ => inputs.len() == 1,
    }
}
