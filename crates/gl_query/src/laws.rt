//! Laws of the meaning of queries. The contract of each function is the law; it does nothing.

ghost use Rattle.gl_query.specs.Laws.{AcceptedHaveRealColumns, AcceptedHaveResults, ArrivalsAreResults, ArrivalsNeverFall, AsOfIsRowForRow, FirstFaultsAreExact, HasOneResult, ResultsAreLong, ResultsFit, ResultsGoByRows, SourcesNeverFall, TreesAreAlike};

/// A query without UNION, or with BY ARRIVAL behind each, has at most one result over given rows: its
/// rows and its spill.
pub fn results_are_unique()
    ensures { HasOneResult }
{}

/// Where each row of a query comes of one row that came, its results are those with places.
pub fn arrivals_are_results()
    ensures { ArrivalsAreResults }
{}

/// No row of a stream stands behind one at a later place, and none of a body's variable; so none of a
/// result with places does.
pub fn arrivals_never_fall()
    ensures sources { SourcesNeverFall }
    ensures results { ArrivalsNeverFall }
{}

/// So a result of ASOF has a row for each row of its left side whose key is among the first ones that
/// come. It is beside the last row of the right side that has its key and came no later.
pub fn as_of_is_row_for_row()
    ensures { AsOfIsRowForRow }
{}

/// An accepted query has a result over any rows; so one without UNION has exactly one.
pub fn accepted_have_results()
    ensures { AcceptedHaveResults }
{}

/// The rows of a result of an accepted query are as long as its columns are many, where those of its
/// sources are.
pub fn results_are_long()
    ensures { ResultsAreLong }
{}

/// The rows of a result of an accepted query fit the kinds of its columns, where those of its
/// sources do.
pub fn results_fit()
    ensures { ResultsFit }
{}

/// A result of a query without a window of time goes by the rows of the streams, their places and the
/// words of the parameters alone, whatever the rows' times, or ticks.
pub fn results_go_by_rows()
    ensures { ResultsGoByRows }
{}

/// The tree of a statement and the statement are alike.
pub fn trees_are_alike()
    ensures { TreesAreAlike }
{}

/// The columns of an accepted query are at most 32, no two of one name, of kinds that are kinds; and at
/// least one where each select has an item.
pub fn accepted_have_real_columns()
    ensures { AcceptedHaveRealColumns }
{}

/// A statement has no first fault exactly where it is accepted.
pub fn first_faults_are_exact()
    ensures { FirstFaultsAreExact }
{}
