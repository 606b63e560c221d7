ghost use Rattle.std.specs.Prelude.{◌≡◌, ◌≤◌, ◌∷◌, [], IfOk};
ghost use Rattle.beam_model.specs.Plans.{default_trigger, node};
ghost use Rattle.side_inputs.specs.Nodes.{join_of, side_nodes};

use beam_values::{Args, FnKind, List, Mode, NoMemory, Node, NodeKind, Trigger};
use std::alloc::Global;

/// What an element is joined with (Beam Programming Guide, Side inputs).
#[derive(Clone, Copy, Debug, PartialEq, Eq)]
pub enum ViewMode {
    /// All values of the view in its window.
    List,
    /// The only value there.
    Single,
    /// The values there that belong to its key.
    Lookup,
}

impl ViewMode {
    fn join(self) -> FnKind
        ensures { result ≡ join_of self }
    {
        match self {
            ViewMode::List => FnKind::JoinList,
            ViewMode::Single => FnKind::JoinSingle,
            ViewMode::Lookup => FnKind::JoinLookup,
        }
    }
}

/// The five nodes of a side input, where the first of them gets the number `first`: what tags the
/// outputs of `main` and of `view`, the Flatten of both, its Group, and the join, which is the side
/// input to later nodes.
pub fn side_nodes(
    alloc: Global,
    main: u32,
    view: u32,
    first: u32,
    mode: ViewMode,
) -> Result<List<Node>, NoMemory>
    // Each node has a number of its own, and so has one after them.
    requires { first ≤ 4294967290 }
    ensures { IfOk result (λ nodes. nodes ≡ side_nodes main view first mode) }
{
    let mut nodes = List::new(alloc);
    nodes.push(tag(alloc, 1, main)?)?;
    nodes.push(tag(alloc, 0, view)?)?;
    nodes.push(Node {
        kind: NodeKind::Flatten,
        inputs: List::from_slice(alloc, &[first, first + 1])?,
    })?;
    nodes.push(group(alloc, first + 2)?)?;
    nodes.push(function(alloc, mode.join(), Args::Nothing, first + 3)?)?;
    Ok(nodes)
}

fn tag(alloc: Global, number: i64, input: u32) -> Result<Node, NoMemory>
    ensures { IfOk result (λ tag. tag ≡ node (NodeKind.ParDo FnKind.Tag (Args.Number number)) (input ∷ [])) }
{
    function(alloc, FnKind::Tag, Args::Number(number), input)
}

fn function(alloc: Global, work: FnKind, args: Args, input: u32) -> Result<Node, NoMemory>
    ensures { IfOk result (λ function. function ≡ node (NodeKind.ParDo work args) (input ∷ [])) }
{
    Ok(Node {
        kind: NodeKind::ParDo { work, args },
        inputs: List::from_slice(alloc, &[input])?,
    })
}

// With the default trigger: one pane a window, on time.
fn group(alloc: Global, input: u32) -> Result<Node, NoMemory>
    ensures { IfOk result (λ group. group ≡ node (NodeKind.Group default_trigger) (input ∷ [])) }
{
    Ok(Node {
        kind: NodeKind::Group {
            trigger: Trigger {
                early: None,
                late: 1,
                lateness: 0,
                mode: Mode::Discarding,
                early_bars: List::new(alloc),
                late_bars: List::new(alloc),
            },
        },
        inputs: List::from_slice(alloc, &[input])?,
    })
}
