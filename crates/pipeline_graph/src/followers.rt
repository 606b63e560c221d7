ghost use Rattle.std.specs.Prelude.{◌≡◌, ◌<◌, ◌≤◌, ◌++◌, [], ◌∷◌, ℕ, All, IfOk, OnOk, length};
ghost use Rattle.std.specs.Prelude.{replicate, slice_index_or};
ghost use Rattle.beam_values.specs.declared.plan.Node.{Node};
ghost use Rattle.pipeline_graph.specs.Followers.{named, IsFollowed};

use beam_values::{List, NoMemory, Node};
use std::alloc::Global;

/// For each node the nodes that name it as an input: one list a node, so that a node finds its
/// followers by its number.
pub(crate) fn index_followers(alloc: Global, nodes: &[Node]) -> Result<List<List<u32>>, NoMemory>
    requires few { length nodes.now ≤ 64 }
    requires within { All (λ node. All (λ input. input < length nodes.now) node.inputs) nodes.now }
    ensures { IfOk result (IsFollowed (length nodes.now) nodes.now) }
{
    let mut followers = empty_lists(alloc, nodes.len())?;
    for (number, node) in nodes.iter().enumerate() {
        add_follower(&mut followers, number as u32, node.inputs.as_slice())?;
    }
    Ok(List::from_vec(followers))
}

fn empty_lists(alloc: Global, count: usize) -> Result<Vec<List<u32>>, NoMemory>
    ensures { IfOk result (λ lists. IsFollowed count [] lists.items) }
{
    let mut lists = Vec::with_capacity(alloc, count)?;
    for _ in 0..count {
        lists.push(List::new(alloc))?;
    }
    Ok(lists)
}

// The node of this number follows each of its inputs.
fn add_follower(followers: &mut Vec<List<u32>>, number: u32, inputs: &[u32]) -> Result<(), NoMemory>
    requires { All (λ input. input < length followers.old.items) inputs.now }
    ensures each { OnOk result (length followers.new.items ≡ length followers.old.items) }
    ensures added { OnOk result ((from : ℕ) → from < length followers.old.items
        → slice_index_or followers.new.items from []
        ≡ slice_index_or followers.old.items from [] ++ named from number inputs.now) }
{
    for input in inputs {
        push_at(followers, *input as usize, number)?;
    }
    Ok(())
}

fn push_at(lists: &mut Vec<List<u32>>, at: usize, number: u32) -> Result<(), NoMemory>
    requires { at < length lists.old.items }
    ensures each { OnOk result (length lists.new.items ≡ length lists.old.items) }
    ensures added { OnOk result ((from : ℕ) → from < length lists.old.items
        → slice_index_or lists.new.items from []
        ≡ slice_index_or lists.old.items from [] ++ named from number (at ∷ [])) }
{
    let list = &mut lists[at];
    list.push(number)
}
