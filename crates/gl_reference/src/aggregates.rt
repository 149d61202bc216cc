//! Aggregates over rows.

ghost use Rattle.std.specs.Prelude.{◌≡◌, IfOk, map};
ghost use Rattle.gl_values.specs.Kinds.{IsKind, width_of};
ghost use Rattle.gl_values.specs.Totals.{average_of, sum_total, weighted_sum};
ghost use Rattle.gl_query.specs.Accepted.{IsAgg};
ghost use Rattle.gl_query.specs.Laws.{AreKinds};
ghost use Rattle.gl_query.specs.Results.{agg_value, total_row, values_of};
ghost use Rattle.gl_query.specs.Shapes.{agg_item_shape, agg_shape, expr_shape};
ghost use Rattle.gl_query.specs.Values.{kind_alone, kind_of};
ghost use Rattle.gl_reference.specs.Fits.{AreAggs, AreRows, HasKindAlone, IsOrMemory};

use crate::rows::Fault;
use crate::values::value_of;
use gl_bits::{Listed, Memory};
use gl_query::{Agg, AggItem, Expr, Num, kinds};
use gl_schema::Column;
use gl_values::{Kind, totals};
use std::alloc::Global;

/// The values of an expression over rows.
pub(crate) fn values_over(
    alloc: Global,
    columns: &[Column],
    expr: &Expr,
    rows: &[Listed<u128>],
) -> Result<Vec<u128>, Fault>
    ensures value { IfOk result (λ v. v.items
        ≡ values_of columns.now (expr_shape expr.now) rows.now) }
    ensures fits { HasKindAlone columns.now (expr_shape expr.now) → AreRows columns.now rows.now
        → IsOrMemory result }
{
    let place = kinds::kind_alone(expr);
    let mut out = Vec::new(alloc);
    for row in rows {
        let value = value_of(columns, place, expr, row.as_slice()).ok_or(Fault::Unfit)?;
        out.push(value)?;
    }
    Ok(out)
}

/// The sum in the width of a kind.
#[tactic(auto, using(crate::proofs::Widths::kind_width, gl_values::proofs::KindLemmas::passes_test, gl_values::proofs::KindLemmas::tested_kind))]
pub(crate) fn sum_in(kind: Kind, values: &[u128]) -> Result<u128, Fault>
    ensures value { IfOk result (λ v. v ≡ sum_total (width_of kind) values.now) }
    ensures fits { IsKind kind → IsOrMemory result }
{
    if !kind.is_kind() {
        return Err(Fault::Unfit);
    }
    Ok(totals::sum(kind.width(), values))
}

/// The average in a kind.
#[tactic(auto, using(gl_values::proofs::KindLemmas::passes_test, gl_values::proofs::KindLemmas::tested_kind))]
pub(crate) fn average_in(kind: Kind, values: &[u128]) -> Result<u128, Fault>
    ensures value { IfOk result (λ v. v ≡ average_of kind values.now) }
    ensures fits { IsKind kind → IsOrMemory result }
{
    if !kind.is_kind() {
        return Err(Fault::Unfit);
    }
    Ok(totals::average(kind, values))
}

/// The sum by weights in the width of a kind.
#[tactic(auto, using(crate::proofs::Widths::kind_width, gl_values::proofs::KindLemmas::passes_test, gl_values::proofs::KindLemmas::tested_kind))]
fn weigh_in(kind: Kind, weights: &[u128], values: &[u128]) -> Result<u128, Fault>
    ensures value { IfOk result (λ v. v ≡ weighted_sum (width_of kind) weights.now values.now) }
    ensures fits { IsKind kind → IsOrMemory result }
{
    if !kind.is_kind() {
        return Err(Fault::Unfit);
    }
    Ok(totals::weigh(kind.width(), weights, values))
}

/// The values of numbers.
fn numbers(alloc: Global, nums: &[Num]) -> Result<Vec<u128>, Memory>
    ensures { IfOk result (λ v. v.items ≡ map (λ n. n.value) nums.now) }
{
    let mut out = Vec::new(alloc);
    for num in nums {
        out.push(num.value)?;
    }
    Ok(out)
}

/// The kind of an expression that stands alone.
#[tactic(auto, using(gl_query::proofs::Real::whole_is))]
pub(crate) fn own_kind(columns: &[Column], expr: &Expr) -> Kind
    ensures value { result
        ≡ kind_of columns.now (kind_alone (expr_shape expr.now)) (expr_shape expr.now) }
    ensures real { AreKinds columns.now → HasKindAlone columns.now (expr_shape expr.now)
        → IsKind result }
{
    kinds::kind_of(columns, kinds::kind_alone(expr), expr)
}

/// An aggregate over rows.
fn agg_value(
    alloc: Global,
    columns: &[Column],
    rows: &[Listed<u128>],
    agg: &Agg,
) -> Result<u128, Fault>
    ensures value { IfOk result (λ v. v ≡ agg_value columns.now rows.now (agg_shape agg.now)) }
    ensures fits { IsAgg columns.now (agg_shape agg.now) → AreRows columns.now rows.now
        → IsOrMemory result }
{
    match agg {
        Agg::Count { .. } => Ok(totals::count(rows)),
        Agg::Sum(expr) => {
            let values = values_over(alloc, columns, expr, rows)?;
            sum_in(own_kind(columns, expr), values.as_slice())
        }
        Agg::Min(expr) => {
            let values = values_over(alloc, columns, expr, rows)?;
            Ok(totals::least(own_kind(columns, expr), values.as_slice()))
        }
        Agg::Max(expr) => {
            let values = values_over(alloc, columns, expr, rows)?;
            Ok(totals::greatest(own_kind(columns, expr), values.as_slice()))
        }
        Agg::Avg(expr) => {
            let values = values_over(alloc, columns, expr, rows)?;
            average_in(own_kind(columns, expr), values.as_slice())
        }
        Agg::Wsum { arg, weights } => {
            let values = values_over(alloc, columns, arg, rows)?;
            let weights = numbers(alloc, weights.as_slice())?;
            weigh_in(
                own_kind(columns, arg),
                weights.as_slice(),
                values.as_slice(),
            )
        }
    }
}

/// The one row of aggregates.
pub fn total_row(
    alloc: Global,
    columns: &[Column],
    aggs: &[AggItem],
    rows: &[Listed<u128>],
) -> Result<Listed<u128>, Fault>
    ensures value { IfOk result (λ v. v
        ≡ total_row columns.now (map agg_item_shape aggs.now) rows.now) }
    ensures fits { AreAggs columns.now (map agg_item_shape aggs.now) → AreRows columns.now rows.now
        → IsOrMemory result }
{
    let mut out = Listed::new(alloc);
    for item in aggs {
        out.push(agg_value(alloc, columns, rows, &item.agg)?)?;
    }
    Ok(out)
}
