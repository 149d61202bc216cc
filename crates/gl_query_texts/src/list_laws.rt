//! Laws of the texts of several queries. The contract of each function is the law; it does nothing.

ghost use Rattle.gl_query_texts.specs.ListLaws.{StatementsAreListed, TextsHaveOneVerdict};

/// Over a schema each text has exactly one of a list of statements and a fault, at one place.
pub fn texts_have_one_verdict()
    ensures { TextsHaveOneVerdict }
{}

/// The statements of a text are one to eight, no two of one name; their whole expressions are small, and
/// their names are names.
pub fn statements_are_listed()
    ensures { StatementsAreListed }
{}
