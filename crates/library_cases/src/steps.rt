use case_files::Case;

/// What a case calls step by step.
pub trait Called {
    /// Makes the call of this name: reads what it is given, and answers what it gives.
    fn call(&mut self, name: &str, case: &mut Case<'_>);
}

/// Makes the calls of a case, which have `;` between them, and so have their answers.
pub fn call_all<C: Called + Drop>(called: C, case: &mut Case<'_>) {
    let mut called = called;
    for _ in 0..case.left() {
        let name = case.word();
        case.next_answer();
        called.call(name, case);
        if !case.takes(b';') {
            break;
        }
    }
}
