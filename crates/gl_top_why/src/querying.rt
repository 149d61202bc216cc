//! What is wrong with a query, in a sentence.

use crate::elsewhere::value_cure;
use crate::expected::put_expected;
use crate::joins::is_join_key;
use crate::lines::put_bytes;
use crate::names::{each_around, put_columns_around, put_kind, put_streams, stream_around};
use crate::pieces::{Pieces, is_one_of, is_sign, is_spelled};
use crate::rules::put_rule;
use crate::settings::put_parameters;
use crate::states::{State, call_at, state_at};
use crate::syntax::{is_word_for_name, syntax_cure};
use crate::words::{is_number, is_operator, number_of};
use gl_query::QueryFault;
use gl_schema::{Schema, Stream};
use std::alloc::AllocError;

// A token that no statement goes on with, and what can stand there.
fn put_syntax(
    out: &mut String,
    pieces: &Pieces<'_>,
    at: usize,
    byte: u64,
) -> Result<(), AllocError> {
    let word = pieces.get(at);
    if word.is_empty() {
        out.push_str("The text ends here. ")?;
    } else if is_word_for_name(pieces, at) {
        put_bytes(out, word)?;
        out.push_str(" is a word of the language, and so no name. ")?;
    } else {
        put_bytes(out, word)?;
        out.push_str(" cannot stand here. ")?;
    }
    out.push_str(syntax_cure(pieces, at))?;
    if !pieces.begins_at(at, byte) {
        return Ok(());
    }
    out.push('\n')?;
    put_expected(out, pieces, at)
}

// A name that the schema has not, or that the body around has not.
fn put_stream(
    out: &mut String,
    pieces: &Pieces<'_>,
    at: usize,
    schema: &Schema,
) -> Result<(), AllocError> {
    out.push_str("There is no stream ")?;
    put_bytes(out, pieces.get(at))?;
    if let Some(each) = each_around(pieces, at) {
        out.push_str(" in this body: its one source is its variable ")?;
        put_bytes(out, pieces.get(each.saturating_add(1)))?;
        return out.push('.');
    }
    out.push_str("; the schema has ")?;
    put_streams(out, schema)?;
    out.push_str(". Inside a body its variable is the one source.")
}

// A name that the source has not.
fn put_column(
    out: &mut String,
    pieces: &Pieces<'_>,
    at: usize,
    schema: &Schema,
) -> Result<(), AllocError> {
    let word = pieces.get(at);
    out.push_str("There is no column ")?;
    put_bytes(out, word)?;
    if is_join_key(pieces, at) {
        return out.push_str(" on both sides of ASOF, whose key is a column of each.");
    }
    put_columns_around(out, pieces, at, schema)?;
    out.push_str(". ")?;
    out.push_str(value_cure(word).unwrap_or("A select below has the columns that it names."))
}

// A parameter that the schema has not.
fn put_parameter(
    out: &mut String,
    pieces: &Pieces<'_>,
    at: usize,
    schema: &Schema,
) -> Result<(), AllocError> {
    out.push_str("There is no parameter ")?;
    put_bytes(out, pieces.get(at.saturating_add(1)))?;
    if schema.parameters.as_slice().is_empty() {
        return out.push_str(
            "; the schema has none. It declares one as parameter NAME KIND; beside its streams.",
        );
    }
    out.push_str("; the schema has ")?;
    put_parameters(out, schema)?;
    out.push('.')
}

// A side of another kind.
fn put_kinds(
    out: &mut String,
    pieces: &Pieces<'_>,
    at: usize,
    schema: &Schema,
) -> Result<(), AllocError> {
    let word = pieces.get(at);
    if is_spelled(word, b"cast") {
        return out.push_str(
            "CAST goes from numbers to numbers and from texts to texts: a text cannot be made a number, nor a number a text.",
        );
    }
    if is_spelled(pieces.before(at, 1), b"as") {
        return out.push_str(
            "sum, avg and wsum take numbers: of a text there are count(), min and max.",
        );
    }
    put_bytes(out, word)?;
    if is_join_key(pieces, at) {
        return out.push_str(
            " has another kind on the right of ASOF than on its left: make them one by CAST in a select on one side.",
        );
    }
    out.push_str(kinds_cure(pieces, at))?;
    let is_signed = state_at(pieces, at.saturating_add(1)) == State::SignedNumber;
    if is_number(word) || word.starts_with(b"'") || is_signed {
        put_other_kind(out, pieces, at, schema)
    } else {
        put_own_kinds(out, pieces, at, schema)
    }
}

// What differs at a literal or an operator.
fn kinds_cure(pieces: &Pieces<'_>, at: usize) -> &'static str {
    let (word, next) = (pieces.get(at), at.saturating_add(1));
    let is_beside = is_operator(pieces.before(at, 1)) || is_operator(pieces.get(next));
    let signs: [&[u8]; 9] = [b"+", b"-", b"*", b"&", b"|", b"^", b"~", b"<<", b">>"];
    let is_summed = is_one_of(pieces.before(at, 1), &signs) || is_one_of(pieces.get(next), &signs);
    if word.starts_with(b"'") && is_beside {
        " is a text, and the other side is a number: write a number."
    } else if word.starts_with(b"'") {
        " is a text, and a number must stand here."
    } else if is_number(word) && is_summed {
        " is a number, and the other side is a text, with which nothing is reckoned."
    } else if is_number(word) {
        " is a number, and the other side is a text: write '..'."
    } else if state_at(pieces, next) == State::SignedNumber {
        " begins a number, and the other side is a text: write '..'."
    } else if is_sign(word, b'~') {
        " takes a number, whose bits it turns, and a text is none."
    } else if is_one_of(word, &signs) {
        " takes two numbers of one kind, and a text is none: CAST(v AS u32) makes another kind of a number."
    } else {
        " has sides of two kinds: make them one by CAST, CAST(v AS u32), or take a text for a number out."
    }
}

// Appends the kind of a column of this name.
fn put_own_kind(out: &mut String, stream: &Stream, name: &[u8]) -> Result<(), AllocError> {
    for column in stream.columns.as_slice() {
        if column.name.as_slice() == name {
            out.push(' ')?;
            put_bytes(out, name)?;
            out.push_str(" is ")?;
            put_kind(out, column.kind)?;
            out.push('.')?;
        }
    }
    Ok(())
}

// The kinds of the columns on both sides of an operator.
fn put_own_kinds(
    out: &mut String,
    pieces: &Pieces<'_>,
    at: usize,
    schema: &Schema,
) -> Result<(), AllocError> {
    let Some(stream) = stream_around(pieces, at, schema) else {
        return Ok(());
    };
    let (left, right) = (pieces.before(at, 1), pieces.get(at.saturating_add(1)));
    put_own_kind(out, stream, left)?;
    if left == right {
        return Ok(());
    }
    put_own_kind(out, stream, right)
}

// The kind of the column on the other side of the operator beside a literal.
fn put_other_kind(
    out: &mut String,
    pieces: &Pieces<'_>,
    at: usize,
    schema: &Schema,
) -> Result<(), AllocError> {
    let Some(stream) = stream_around(pieces, at, schema) else {
        return Ok(());
    };
    if is_operator(pieces.before(at, 1)) {
        put_own_kind(out, stream, pieces.before(at, 2))
    } else if is_operator(pieces.get(at.saturating_add(1))) {
        put_own_kind(out, stream, pieces.get(at.saturating_add(2)))
    } else {
        Ok(())
    }
}

// Whether a literal is a condition of its own, with no other side.
fn stands_alone(pieces: &Pieces<'_>, at: usize) -> bool {
    let length = if is_sign(pieces.get(at), b'-') { 2 } else { 1 };
    let next = pieces.get(at.saturating_add(length));
    is_one_of(pieces.before(at, 1), &[b"where", b"and", b"or", b"not"])
        && (!is_operator(next) || is_one_of(next, &[b"and", b"or"]))
}

// What stands in front of a piece, open brackets aside.
fn front_of<'a>(pieces: &Pieces<'a>, at: usize) -> &'a [u8] {
    for place in (0..at).rev() {
        if !is_sign(pieces.get(place), b'(') {
            return pieces.get(place);
        }
    }
    b""
}

// Whether a piece begins the right side of a shift.
fn is_shifting(pieces: &Pieces<'_>, at: usize) -> bool {
    is_one_of(front_of(pieces, at), &[b"<<", b">>"])
}

const SHIFT: &str =
    " is out of range: a shift goes by a number, and one below the width of what it shifts.";

// A literal that its kind has no room for.
fn put_literal(
    out: &mut String,
    pieces: &Pieces<'_>,
    at: usize,
    schema: &Schema,
) -> Result<(), AllocError> {
    let word = pieces.get(at);
    put_bytes(out, word)?;
    let is_weight = match pieces.open_before(at) {
        Some(open) => is_sign(pieces.get(open), b'['),
        None => false,
    };
    if stands_alone(pieces, at) {
        return out.push_str(" is no condition, which has one bit: write a comparison, price <> 0.");
    }
    if is_shifting(pieces, at) {
        return out.push_str(SHIFT);
    }
    out.push_str(if is_sign(word, b'-') {
        " and its number do not fit the kind on the other side: CAST it to one with a sign, CAST(price AS s64) < -1."
    } else if is_weight {
        " does not fit the kind that it weighs: make that wider, wsum(CAST(price AS u64), [1, 2]), or take a smaller number."
    } else if word.starts_with(b"'") {
        " has more bytes than the kind on the other side: write a shorter text, or make that wider, CAST(symbol AS text8)."
    } else {
        " does not fit the kind on the other side: make that wider, CAST(price AS u64), or take a smaller number."
    })?;
    if is_weight {
        return Ok(());
    }
    put_other_kind(out, pieces, at, schema)
}

// How many windows would be open at once, and the least advance with which 64 are enough.
fn put_windows(out: &mut String, size: u64, advance: u64, is_time: bool) -> Result<(), AllocError> {
    let step = advance.max(1);
    let (windows, least) = if is_time {
        (
            (size / step).saturating_add(1),
            (size / 64).saturating_add(1),
        )
    } else {
        (size.div_ceil(step), size.div_ceil(64))
    };
    write!(
        out,
        "{windows} windows would be open at once, and at most 64 can be, of all groups at most 256: write a SIZE that is smaller, or ADVANCE {least}."
    )
}

// A number or a name past a limit.
fn put_range(out: &mut String, pieces: &Pieces<'_>, at: usize) -> Result<(), AllocError> {
    let (word, before) = (pieces.get(at), pieces.before(at, 1));
    let number = number_of(word).unwrap_or(u64::MAX);
    let is_outside = number == 0 || number > 65_536;
    if is_spelled(before, b"size") && !is_outside {
        let advance = number_of(pieces.get(at.saturating_add(2))).unwrap_or(1);
        let is_time = is_spelled(pieces.get(at.saturating_add(3)), b"time");
        return put_windows(out, number, advance, is_time);
    }
    put_bytes(out, word)?;
    if is_spelled(before, b"size") || is_spelled(before, b"advance") {
        return out.push_str(" is out of range: SIZE and ADVANCE are 1 to 65,536.");
    }
    if is_spelled(before, b"groups") {
        return out.push_str(
            " is out of range: GROUPS is 1 to 256, and so are the groups by the windows of each that are open at once. Of PARTITION BY and ASOF it is 1 to 4,096.",
        );
    }
    if is_one_of(before, &[b"rows", b"between"]) {
        return out.push_str(" is out of range: ROWS takes 0 to 65,535 rows before the row itself.");
    }
    if is_shifting(pieces, at) {
        return out.push_str(SHIFT);
    }
    if is_spelled(call_at(pieces, at), b"lag") {
        return out.push_str(" is out of range: lag looks back 1 to 65,535 rows.");
    }
    if is_number(word) {
        return out.push_str(" is the 65th weight: a wsum has at most 64.");
    }
    out.push_str(" is one too many: a result has at most 32 columns, and a text at most 8 queries.")
}

/// Appends what is wrong with a query at a byte, in a piece, and what to write.
pub(crate) fn put_query(
    out: &mut String,
    fault: &QueryFault,
    pieces: &Pieces<'_>,
    byte: u64,
    schema: &Schema,
) -> Result<(), AllocError> {
    let at = pieces.find(byte);
    match fault {
        QueryFault::Syntax { .. } => put_syntax(out, pieces, at, byte),
        QueryFault::UnknownStream { .. } => put_stream(out, pieces, at, schema),
        QueryFault::UnknownColumn { .. } => put_column(out, pieces, at, schema),
        QueryFault::UnknownParameter { .. } => put_parameter(out, pieces, at, schema),
        QueryFault::KindsDiffer { .. } => put_kinds(out, pieces, at, schema),
        QueryFault::LiteralTooWide { .. } => put_literal(out, pieces, at, schema),
        QueryFault::OutOfRange { .. } => put_range(out, pieces, at),
        _ => put_rule(out, fault, pieces, at),
    }
}
