//! Laws of plans, each of which stands in a function's contract.

ghost use Rattle.gl_algebra.specs.Laws.{RowsKeepSound, SpacersKeepSound, FiguresAreSound, ClosingNodesWait, ColumnsHaveKinds, PacesFixFigures, BodiesReadTheirInput, UntimedResults, ResultsGoByOrder, ResultsAreUnique, NodesFollowTables, EarlierNodesAreKept};

/// Each row of the table of figures gives sound figures from sound ones, and so does a spacer.
pub fn rows_keep_sound()
    ensures rows { RowsKeepSound }
    ensures spacers { SpacersKeepSound }
{}

/// The figures of each node of a plan are sound.
pub fn figures_are_sound()
    ensures { FiguresAreSound }
{}

/// A closing node gives nothing before the end.
pub fn closing_nodes_wait()
    ensures { ClosingNodesWait }
{}

/// The columns of each node of a plan have kinds of columns.
pub fn columns_have_kinds()
    ensures { ColumnsHaveKinds }
{}

/// A node in step with a stream or a body's input gives each row a fixed time after its beat; one of pace `once` gives one row
/// with the end alone.
pub fn paces_fix_figures()
    ensures { PacesFixFigures }
{}

/// A node all of whose leaves are a body's input reads that input alone.
pub fn bodies_read_their_input()
    ensures { BodiesReadTheirInput }
{}

/// Without a window of time a plan has the same results whatever the times and ticks of its inputs are.
pub fn results_are_untimed()
    ensures { UntimedResults }
{}

/// Only the order of the places of rows counts.
pub fn results_go_by_order()
    ensures { ResultsGoByOrder }
{}

/// A node without a union below it has one result at most.
pub fn results_are_unique()
    ensures { ResultsAreUnique }
{}

/// What a plan has for a node follows the node's row of each table.
pub fn nodes_follow_tables()
    ensures { NodesFollowTables }
{}

/// Nodes that are added to a plan change nothing of the nodes before them.
pub fn earlier_nodes_are_kept()
    ensures { EarlierNodesAreKept }
{}
