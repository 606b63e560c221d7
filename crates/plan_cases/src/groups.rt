use crate::bodies::{Coming, commit_all};
use beam_values::{
    Arrival, Cell, Dropped, Entry, List, NoMemory, Node, Pane, Plan, Value, cmp_cells,
};
use case_files::{Case, Script, read_element, read_marks, read_node, say_element};
use pipeline_graph::Graph;
use std::alloc::Global;
use std::mem;

// A plan, and commit by commit what comes to its Groups.
#[derive(Drop)]
struct Told {
    nodes: List<Node>,
    arrivals: List<Arrival>,
    commits: List<Coming>,
    // How many commits there were.
    number: u32,
}

/// What both bodies of Groups fire, keep and drop commit by commit, from the plan, the arrivals and the
/// least holds that the lines of a block tell.
pub fn answer_groups<'a>(script: &mut Script<'a>, case: &mut Case<'a>) {
    let alloc = case.alloc();
    let mut told = Told {
        nodes: List::new(alloc),
        arrivals: List::new(alloc),
        commits: List::new(alloc),
        number: 0,
    };
    for _ in 0..u64::MAX {
        if !script.next_of_block(case) {
            break;
        }
        add_line(case, &mut told);
        case.end();
    }
    let Told {
        nodes,
        arrivals,
        commits,
        number: _,
    } = told;
    if !arrivals.is_empty() {
        case.fail("arrivals come in a commit");
    }
    match Graph::check(alloc, Plan { version: 1, nodes }) {
        Ok(graph) => commit_all(&graph, commits.as_slice(), case),
        Err(_) => case.fail("the plan breaks a rule"),
    }
}

fn add_line(case: &mut Case<'_>, told: &mut Told) {
    match case.word() {
        "node" => {
            let node = read_node(case);
            case.keep(&mut told.nodes, node);
        }
        "arrival" => {
            let arrival = Arrival {
                node: case.number(),
                element: read_element(case),
            };
            case.keep(&mut told.arrivals, arrival);
        }
        "commit" => {
            told.number = told.number.saturating_add(1);
            let coming = Coming {
                number: told.number,
                arrivals: mem::replace(&mut told.arrivals, List::new(case.alloc())),
                holds: read_marks(case),
            };
            case.keep(&mut told.commits, coming);
        }
        "out" => expect_part(case),
        _ => case.fail("Groups have no such line"),
    }
}

// The parts of what is expected have `; ` between them, as those of an answer.
fn expect_part(case: &mut Case<'_>) {
    if !case.expected().is_empty() {
        case.expect(b"; ");
    }
    let part = case.line_rest();
    case.expect(part.as_slice());
}

/// The panes that fired, the cells by node, key and window, what was dropped so far, and the arrivals
/// that were left.
pub fn say_groups(
    fired: &List<Pane>,
    cells: &[Cell],
    dropped: &[Dropped],
    left: &List<Arrival>,
    case: &mut Case<'_>,
) {
    for pane in fired.as_slice() {
        say_part("pane", pane.node, case);
        case.say_number(pane.commit);
        say_element(&pane.element, case);
    }
    match sorted(case.alloc(), cells) {
        Ok(cells) => say_cells(cells.as_slice(), case),
        Err(refused) => case.no_memory(refused),
    }
    for lost in dropped {
        say_part("dropped", lost.node, case);
        case.say_number(lost.commit);
        say_element(&lost.element, case);
    }
    for arrival in left.as_slice() {
        say_part("left", arrival.node, case);
        say_element(&arrival.element, case);
    }
}

fn say_part(word: &str, node: u32, case: &mut Case<'_>) {
    case.next_answer();
    case.say(word);
    case.say_number(node);
}

// The bodies make cells in orders of their own.
fn sorted(alloc: Global, cells: &[Cell]) -> Result<Vec<&Cell>, NoMemory> {
    let mut sorted = Vec::new(alloc);
    for cell in cells {
        sorted.push(cell)?;
    }
    sorted.sort_by(|a, b| cmp_cells(a, b))?;
    Ok(sorted)
}

fn say_cells(cells: &[&Cell], case: &mut Case<'_>) {
    for cell in cells {
        say_part("cell", cell.node, case);
        case.say_value(&cell.key);
        case.say_span(cell.span);
        case.say_number(cell.next_index);
        case.say(if cell.on_time { "fired" } else { "unfired" });
        if let Some(into) = cell.merged_into {
            case.say("into");
            case.say_span(into);
        }
        for entry in cell.entries.as_slice() {
            say_entry(entry, case);
        }
    }
}

fn say_entry(entry: &Entry, case: &mut Case<'_>) {
    case.say("|");
    case.say_number(entry.commit);
    case.say(if entry.shown { "shown" } else { "unseen" });
    say_element(&entry.element, case);
}
