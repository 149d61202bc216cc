//! Laws of the grammar. The contract of each function is the law; it does nothing.

ghost use Rattle.gl_query_reader.specs.Grammar.{HaveOneStatement, StatementsAreRegular, TextsHaveOneVerdict};
ghost use Rattle.gl_query_reader.specs.Sizes.{LimitsAreCounted};

/// No tokens have two statements.
pub fn tokens_have_one_statement()
    ensures { HaveOneStatement }
{}

/// Each text has exactly one of a statement and the faults that reading finds, at one place.
pub fn texts_have_one_verdict()
    ensures { TextsHaveOneVerdict }
{}

/// The whole expressions of a statement that a text has are small, and its names are names.
pub fn statements_are_regular()
    ensures { StatementsAreRegular }
{}

/// A statement is within the limits exactly where the counts of its tokens keep them.
pub fn limits_are_counted()
    ensures { LimitsAreCounted }
{}
