use crate::steps::Called;
use beam_values::Span;
use case_files::Case;
use session_merge::SessionSet;

impl Called for SessionSet {
    fn call(&mut self, name: &str, case: &mut Case<'_>) {
        match name {
            "insert" => insert(self, case),
            "remove" => {
                let span = case.span();
                case.say_bool(self.remove(span));
            }
            "spans" => say_spans(self.spans(), case),
            _ => case.fail("sessions have no such call"),
        }
    }
}

// The window that stands then, and those that it took.
fn insert(sessions: &mut SessionSet, case: &mut Case<'_>) {
    let span = case.span();
    match sessions.insert(span) {
        Ok(merged) => {
            case.say_span(merged.span);
            for absorbed in merged.absorbed.as_slice() {
                case.say_span(*absorbed);
            }
        }
        Err(refused) => case.no_memory(refused),
    }
}

fn say_spans(spans: &[Span], case: &mut Case<'_>) {
    for span in spans {
        case.say_span(*span);
    }
    if spans.is_empty() {
        case.say("none");
    }
}
