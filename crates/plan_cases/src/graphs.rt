ghost use Rattle.std.specs.Prelude.{◌≡◌, length, IfOk};
ghost use Rattle.beam_values.specs.Marks.{AreMarks};
ghost use Rattle.watermarks.specs.Holds.{hold_at};

use beam_values::{Duplicate, GraphRefusal, List, Mark, NoMemory, Node, Plan, StageMarks};
use case_files::{Case, Script, read_marks, read_node, say_mark, say_strategy};
use pipeline_graph::{CheckRefusal, Graph, refusal_number};
use std::alloc::{AllocError, Global};
use watermarks::stage_marks;

// A plan, and the least holds of its nodes where its marks are asked for.
#[derive(Drop)]
struct Drawn {
    nodes: List<Node>,
    holds: List<Mark>,
}

/// What is known of the nodes of a plan, which the lines of a block draw: the rule that it breaks first,
/// or of each node its strategy and its followers, or its marks under the holds.
pub fn answer_graph<'a>(script: &mut Script<'a>, case: &mut Case<'a>) {
    let alloc = case.alloc();
    let mut drawn = Drawn {
        nodes: List::new(alloc),
        holds: List::new(alloc),
    };
    for _ in 0..u64::MAX {
        if !script.next_of_block(case) {
            break;
        }
        add_line(case, &mut drawn);
        case.end();
    }
    let Drawn { nodes, holds } = drawn;
    match Graph::check(alloc, Plan { version: 1, nodes }) {
        Ok(graph) => say_graph(&graph, holds.as_slice(), case),
        Err(CheckRefusal::Bad(refusal)) => say_refusal(refusal, case),
        Err(CheckRefusal::NoMemory) => case.no_memory(NoMemory),
    }
}

// The marks of the nodes where holds are given.
fn say_graph(graph: &Graph, holds: &[Mark], case: &mut Case<'_>) {
    if holds.is_empty() {
        say_nodes(graph, case);
    } else {
        say_marks(graph, holds, case);
    }
}

fn add_line(case: &mut Case<'_>, drawn: &mut Drawn) {
    match case.word() {
        "node" => {
            let node = read_node(case);
            case.keep(&mut drawn.nodes, node);
        }
        "again" => repeat_last(case, &mut drawn.nodes),
        "holds" => drawn.holds = read_marks(case),
        "out" => {
            let text = case.line_rest();
            case.expect(text.as_slice());
        }
        _ => case.fail("a graph has no such line"),
    }
}

// Adds the last node so many times more.
fn repeat_last(case: &mut Case<'_>, nodes: &mut List<Node>) {
    for _ in 0..case.number::<u32>() {
        let Some(last) = nodes.as_slice().last() else {
            return case.fail("there is no node to repeat");
        };
        match last.duplicate(case.alloc()) {
            Ok(node) => case.keep(nodes, node),
            Err(refused) => case.no_memory(refused),
        }
    }
}

fn say_refusal(refusal: GraphRefusal, case: &mut Case<'_>) {
    case.say_number(refusal_number(&refusal));
    match refusal {
        GraphRefusal::Empty => case.say("empty"),
        GraphRefusal::TooMany => case.say("too many"),
        GraphRefusal::Input(node) => say_at("input", node, case),
        GraphRefusal::Arity(node) => say_at("arity", node, case),
        GraphRefusal::NoWrite => case.say("no write"),
        GraphRefusal::Kind(node) => say_at("kind", node, case),
        GraphRefusal::Setting(node) => say_at("setting", node, case),
        GraphRefusal::SourceWithInput(node) => say_at("source with input", node, case),
    }
}

fn say_at(rule: &str, node: u32, case: &mut Case<'_>) {
    case.say(rule);
    case.say_number(node);
}

fn say_nodes(graph: &Graph, case: &mut Case<'_>) {
    for node in 0..graph.plan().nodes.len() as u32 {
        case.next_answer();
        case.say_number(node);
        say_strategy(graph.strategy(node), case);
        case.say("to");
        for follower in graph.followers(node) {
            case.say_number(*follower);
        }
        if graph.followers(node).is_empty() {
            case.say("none");
        }
    }
}

fn say_marks(graph: &Graph, holds: &[Mark], case: &mut Case<'_>) {
    if holds.len() != graph.plan().nodes.len() {
        return case.fail("each node has a hold");
    }
    match marks_of(case.alloc(), graph, holds) {
        Ok(marks) => {
            for mark in &marks {
                case.next_answer();
                say_mark(mark.mark_in, case);
                say_mark(mark.mark_out, case);
            }
        }
        Err(_) => case.no_memory(NoMemory),
    }
}

/// The marks of all nodes, from the least hold of each.
pub fn marks_of(alloc: Global, graph: &Graph, holds: &[Mark]) -> Result<Vec<StageMarks>, AllocError>
    requires { length holds.now ≡ length graph.now.nodes }
    ensures { IfOk result (λ marks. AreMarks graph.now (hold_at holds.now) marks.items) }
{
    let unknown = StageMarks {
        mark_in: Mark::FINAL,
        mark_out: Mark::FINAL,
    };
    let mut marks = vec![in alloc; unknown; holds.len()]?;
    stage_marks(graph.plan(), holds, marks.as_mut_slice());
    Ok(marks)
}
