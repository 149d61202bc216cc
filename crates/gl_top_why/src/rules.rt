//! Which rule a statement breaks that is read, in a sentence that names what stands there.

use crate::joins::{is_behind_asof, is_behind_join, is_left_side};
use crate::lines::put_bytes;
use crate::names::{first_item, from_around, has_over};
use crate::pieces::{Pieces, is_one_of, is_sign, is_spelled};
use crate::words::is_total;
use gl_query::QueryFault;
use std::alloc::AllocError;

// The key of GROUP BY in the select whose items stand there.
fn key_around<'a>(pieces: &Pieces<'a>, at: usize) -> Option<&'a [u8]> {
    let from = from_around(pieces, at)?;
    let mut open = 0u64;
    for place in from..pieces.len() {
        let word = pieces.get(place);
        match word {
            b"(" => open = open.saturating_add(1),
            b")" if open == 0 => return None,
            b")" => open = open.saturating_sub(1),
            _ if open == 0 && is_one_of(word, &[b"union", b"concat", b"into"]) => return None,
            _ if open == 0 && is_spelled(word, b"group") => {
                return Some(pieces.get(place.saturating_add(2)));
            }
            _ => {}
        }
    }
    None
}

// What an item breaks in a select without GROUP BY.
fn mixed_sort(pieces: &Pieces<'_>, at: usize) -> &'static str {
    let first = first_item(pieces, at);
    let is_over = has_over(pieces, at);
    if is_over && (!is_total(pieces.get(first)) || has_over(pieces, first)) {
        " begins an item with another PARTITION than the first one with OVER. In one select all of them have the same key and the same GROUPS, or none has a key: take the others in a select over this one."
    } else if is_total(pieces.get(at)) && !is_over {
        " begins an aggregate, and the first item is none. Either all items are aggregates or none is: write GROUP BY price GROUPS 64 with the key in front, or min(price) AS price. A row beside a total of the rows before has OVER: sum(price) OVER (ROWS 19 PRECEDING) AS s."
    } else {
        " begins an item that is no aggregate, and the first one is. Either all items are aggregates or none is: write GROUP BY price GROUPS 64 with the key in front, or min(price) AS price."
    }
}

// Items with aggregates and without.
fn put_mixed(out: &mut String, pieces: &Pieces<'_>, at: usize) -> Result<(), AllocError> {
    let word = pieces.get(at);
    if is_spelled(word, b"by") {
        return out.push_str(
            "Behind the key stands at least one aggregate: SELECT symbol, count() AS n FROM trades GROUP BY symbol GROUPS 64.",
        );
    }
    put_bytes(out, word)?;
    match key_around(pieces, at) {
        Some(key) if is_spelled(pieces.before(at, 1), b"select") => {
            out.push_str(
                " begins the first item, and that of a select with GROUP BY is the key alone: SELECT ",
            )?;
            put_bytes(out, key)?;
            out.push_str(", count() AS n.")
        }
        Some(_) => out.push_str(
            " begins an item that is no aggregate, and behind the key stand aggregates alone: min(price) AS price.",
        ),
        None => out.push_str(mixed_sort(pieces, at)),
    }
}

// A condition of more than one bit.
fn put_condition(out: &mut String, pieces: &Pieces<'_>, at: usize) -> Result<(), AllocError> {
    let word = pieces.get(at);
    if is_one_of(word, &[b"and", b"or"]) {
        put_bytes(out, word)?;
        out.push_str(" joins conditions, and one of its sides is none.")?;
    } else if is_spelled(word, b"not") {
        out.push_str("NOT stands in front of a condition, and this is none.")?;
    } else {
        out.push_str("What begins with ")?;
        put_bytes(out, word)?;
        out.push_str(" is no condition.")?;
    }
    out.push_str(
        " A condition has one bit: write a comparison, price <> 0, or a column of kind u1.",
    )
}

// Two columns of one name.
fn put_twice(out: &mut String, pieces: &Pieces<'_>, at: usize) -> Result<(), AllocError> {
    let word = pieces.get(at);
    if is_spelled(word, b"concat") {
        return out.push_str(
            "A column left of CONCAT and one right of it have the same name: write AS and another one.",
        );
    }
    if is_behind_asof(pieces, at.saturating_add(1)) {
        return out.push_str(
            "A column left of ASOF and one right of it have the same name, which is not its key: write AS and another one.",
        );
    }
    put_bytes(out, word)?;
    out.push_str(if is_spelled(pieces.before(at, 1), b"by") {
        " is the key, and an item behind it has this name too: write AS and another one."
    } else {
        " is the name of an item in front already: write AS and another one."
    })
}

// A body that gives rows before its end.
fn put_open(out: &mut String, pieces: &Pieces<'_>, at: usize) -> Result<(), AllocError> {
    if !is_spelled(pieces.get(at), b"each") {
        return out.push_str(
            "The items of a select with a window are totals, since it must give nothing before the window ends: sum(price) AS p.",
        );
    }
    let variable = pieces.get(at.saturating_add(1));
    out.push_str("The body of EACH ")?;
    put_bytes(out, variable)?;
    out.push_str(
        " must give nothing before the window or the group ends: let it be a total, SELECT sum(price) AS p FROM ",
    )?;
    put_bytes(out, variable)?;
    out.push('.')
}

// A window of time over what has no times.
fn put_timeless(out: &mut String, pieces: &Pieces<'_>, at: usize) -> Result<(), AllocError> {
    let is_each = is_spelled(pieces.get(at), b"each");
    let (first, window) = (at.saturating_add(3), at.saturating_sub(1));
    let source = if is_each {
        pieces.get(first)
    } else {
        pieces.before(at, 2)
    };
    if is_each && is_left_side(pieces, first) || !is_each && is_behind_join(pieces, window) {
        out.push_str("The source is a join of two, whose rows have no times.")?;
    } else if is_sign(source, b'(') || is_sign(source, b')') {
        out.push_str("The source is a query, whose rows have no times.")?;
    } else {
        put_bytes(out, source)?;
        out.push_str(" is the variable of a body, whose rows have no times.")?;
    }
    out.push_str(
        " A window of time goes over a stream of the schema alone. Put WHERE and items behind it: EACH w IN trades [SIZE 2 ADVANCE 2 TIME] (SELECT count() AS n FROM (SELECT price FROM w)).",
    )
}

// A bracket, an operator, a UNION or a CONCAT past its limit.
fn put_deep(out: &mut String, pieces: &Pieces<'_>, at: usize) -> Result<(), AllocError> {
    let word = pieces.get(at);
    put_bytes(out, word)?;
    out.push_str(if is_sign(word, b'(') {
        " is the 33rd bracket that is open at once, and at most 32 can be: name a part in a select below."
    } else if is_one_of(word, &[b"union", b"concat"]) {
        " is the 65th UNION or CONCAT, and a query has at most 64: take several queries."
    } else {
        " is the 257th operator of one expression, NOT and CAST among them, and at most 256 can be: name a part in a select below."
    })
}

/// Appends which rule is broken at a piece.
pub(crate) fn put_rule(
    out: &mut String,
    fault: &QueryFault,
    pieces: &Pieces<'_>,
    at: usize,
) -> Result<(), AllocError> {
    match fault {
        QueryFault::NotCondition { .. } => put_condition(out, pieces, at),
        QueryFault::MixedItems { .. } => put_mixed(out, pieces, at),
        QueryFault::TwiceNamed { .. } => put_twice(out, pieces, at),
        QueryFault::NotClosing { .. } => put_open(out, pieces, at),
        QueryFault::NoTime { .. } => put_timeless(out, pieces, at),
        QueryFault::TooDeep { .. } => put_deep(out, pieces, at),
        QueryFault::ColumnsDiffer { .. } => out.push_str(
            "The two sides of UNION differ in the number, the kinds or the order of their columns: CAST, or name the columns in one order.",
        ),
        QueryFault::NoArrival { .. } => out.push_str(
            "Each row of a side of UNION BY ARRIVAL or ASOF comes of one row that came. So a side is a stream, a select of plain items or frames, or another of these. Let windows, groups and totals go over the whole.",
        ),
        QueryFault::PaceDiffers { .. } => out.push_str(
            "CONCAT pairs rows, so both sides give one for each row of one stream, or one each at the end. Take two selects of one stream without WHERE, or two totals.",
        ),
        _ => Ok(()),
    }
}
