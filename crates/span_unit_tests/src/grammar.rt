//! Whether a text is in the grammar: the program reads texts as trees, and never asks this alone.
use span_grammar::judge::Goal;
use span_grammar::text::check_text;
use span_value::refusal::Refusal;
use std::alloc::Global;

const QUERY: &str = "SELECT a FROM t;";

fn refusal_of(alloc: Global, goal: Goal, text: &str) -> Option<Refusal> {
    check_text(alloc, goal, text).err()
}

#[test]
fn texts(rt: HostRuntime) {
    assert_eq!(rt; refusal_of(rt.alloc(), Goal::Statement, QUERY), None);
    assert_eq!(rt;
        refusal_of(rt.alloc(), Goal::Schema, QUERY),
        Some(Refusal::Syntax)
    );
}
