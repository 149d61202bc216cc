//! Lines that were worked out by hand.

ghost use Rattle.gl_schema.specs.declared.schema.Schema.{Schema};
ghost use Rattle.gl_explain.specs.WorkedLines.{WorkedLines};

/// Lines of nodes of frames, over any schema.
pub fn worked_lines()
    ensures { (schema : Schema) → WorkedLines schema }
{}
