use beam_values::{NoMemory, Options};
use case_files::Case;
use command_words::{Command, Usage, read_words};
use plan_reader::{PlanReadRefusal, PlanRefusal, read_plan, refusal_text};

/// How many nodes the plan of a document has, or the first rule that the document breaks.
pub fn answer_document(case: &mut Case<'_>) {
    let text = case.line_rest();
    match read_plan(case.alloc(), text.as_slice()) {
        Ok(graph) => {
            case.say_number(graph.plan().nodes.len() as u64);
            case.say("nodes");
        }
        Err(PlanReadRefusal::Bad(refusal)) => say_refusal(&refusal, case),
        Err(PlanReadRefusal::NoMemory) => case.no_memory(NoMemory),
    }
}

fn say_refusal(refusal: &PlanRefusal, case: &mut Case<'_>) {
    match refusal_text(case.alloc(), refusal) {
        Ok(text) => case.say_bytes(text.as_slice()),
        Err(refused) => case.no_memory(refused),
    }
}

/// What the words of a command line ask for, with its options.
pub fn answer_words(case: &mut Case<'_>) {
    let Some(words) = read_line(case) else {
        return case.no_memory(NoMemory);
    };
    match read_words(words.as_slice()) {
        Err(Usage) => case.say("usage"),
        Ok(Command::Help) => case.say("help"),
        Ok(
            Command::Panes {
                file,
                size,
                options,
            },
        ) => {
            case.say("panes");
            case.say_text(file);
            case.say_number(size);
            say_options(&options, case);
        }
        Ok(Command::Run { plan, options }) => {
            case.say("run");
            case.say_text(plan);
            say_options(&options, case);
        }
        Ok(
            Command::Replay {
                plan,
                schedule,
                options,
            },
        ) => {
            case.say("replay");
            case.say_text(plan);
            case.say_text(schedule);
            say_options(&options, case);
        }
        Ok(Command::Make { count, number }) => {
            case.say("make");
            case.say_number(count);
            case.say_number(number);
        }
        Ok(
            Command::Drill {
                count,
                number,
                options,
            },
        ) => {
            case.say("drill");
            case.say_number(count);
            case.say_number(number);
            say_options(&options, case);
        }
        Ok(Command::Combine { plan, options }) => {
            case.say("combine");
            case.say_text(plan);
            say_options(&options, case);
        }
    }
}

// The words of a line, with the name of the program before them.
fn read_line(case: &mut Case<'_>) -> Option<Vec<String>> {
    let alloc = case.alloc();
    let mut words = Vec::new(alloc);
    words.push(String::from_str(alloc, "beam_run").ok()?).ok()?;
    for _ in 0..case.left() {
        if case.is_over() {
            break;
        }
        let word = String::from_str(alloc, case.unspaced()).ok()?;
        words.push(word).ok()?;
    }
    Some(words)
}

fn say_options(options: &Options, case: &mut Case<'_>) {
    case.say_number(options.workers);
    case.say_number(options.bundle);
    case.say_number(options.chunk);
    case.say_number(options.attempts);
}
