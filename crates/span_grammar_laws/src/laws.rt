//! The laws of the grammar, each as the contract of a function that does nothing.
ghost use Rattle.span_grammar_laws.specs.Laws.{SameAsWritten, SameTexts, SameRefusals};

/// Tokens whose classes look ahead have a tree of the grammar that is read, are wrong or too deep, just where the same tokens, each
/// by itself, have a tree of the written grammar, are wrong or too deep.
pub fn same_as_written()
    ensures { SameAsWritten }
{}

/// The texts that the check accepts are those of the written grammar.
pub fn same_texts()
    ensures { SameTexts }
{}

/// The check's refusals are those of the written grammar.
pub fn same_refusals()
    ensures { SameRefusals }
{}
