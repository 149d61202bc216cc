//! The laws of the columns that are asked for. The contract of each function is the law; it does
//! nothing.

ghost use Rattle.gl_frames_asked.specs.Laws.{ColumnsAreAsked, FormsAreSameByKey, ItemsAreSame, NodesAreSame, NodesMakeSame};
ghost use Rattle.gl_frames_asked.specs.Worked.{WorkedNodes};

/// Of a row of trades the columns that are asked for.
pub fn worked_nodes()
    ensures { WorkedNodes }
{}

/// They are few and there, and the key's and each item's are among them.
pub fn columns_are_asked()
    ensures { ColumnsAreAsked }
{}

/// Over these columns alone each item, and the node, is what it was: it fits, with the same kinds,
/// cycles, weight and bits.
pub fn nodes_are_same()
    ensures items { ItemsAreSame }
    ensures nodes { NodesAreSame }
{}

/// What the node makes of rows of these columns alone is what it makes of the rows.
pub fn nodes_make_same()
    ensures { NodesMakeSame }
{}

/// Where rows of another form have the same keys, and the same is made of them, so it is of those
/// of each key.
pub fn forms_are_same_by_key<T, U, V>()
    ensures { FormsAreSameByKey T U V }
{}
