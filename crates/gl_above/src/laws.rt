//! The law of rows above what serves one stream.

ghost use Rattle.gl_above.specs.Above.{RowsServeOnce};

/// Where rows are taken one by one from what serves one stream, these serve it too, as many cycles later.
pub fn rows_serve_once()
    ensures { RowsServeOnce }
{}
