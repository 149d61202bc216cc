//! What other languages write, and what one writes here in its place.
//!
//! Here belong the sentences alone. Which word they are asked of is found in `querying`.

use crate::functions::foreign_function;
use crate::pieces::is_one_of;

/// Words of other languages, in small letters, and what one writes here.
pub(crate) struct Row {
    pub(crate) words: &'static [&'static [u8]],
    pub(crate) cure: &'static str,
}

/// What the first of some rows with a word says.
pub(crate) fn cure_in(rows: &[Row], word: &[u8]) -> Option<&'static str> {
    for row in rows {
        if is_one_of(word, row.words) {
            return Some(row.cure);
        }
    }
    None
}

const OPERATORS: [Row; 6] = [
    Row {
        words: &[b"/", b"div"],
        cure: "There is no division but avg: write both sides and divide on the host, or multiply a comparison through, x > 2 * y.",
    },
    Row {
        words: &[b"%", b"mod"],
        cure: "There is no remainder: take it on the host, or give the feed a column of it.",
    },
    Row {
        words: &[b"=="],
        cure: "Write = in its place: a = b.",
    },
    Row {
        words: &[b"&&"],
        cure: "Write AND in its place.",
    },
    Row {
        words: &[b"||"],
        cure: "Write OR in its place. Texts cannot be joined.",
    },
    Row {
        words: &[b"!"],
        cure: "Write NOT in its place.",
    },
];

// Operators of other languages.
fn operator_cure(word: &[u8]) -> Option<&'static str> {
    cure_in(&OPERATORS, word)
}

const MARKS: [Row; 6] = [
    Row {
        words: &[b"~"],
        cure: "~ stands in front of a number and turns its bits, ~ flags. Between two numbers stands ^: a ^ b.",
    },
    Row {
        words: &[b"::"],
        cure: "Write CAST in its place: CAST(price AS u64).",
    },
    Row {
        words: &[b":"],
        cure: "A parameter stands where a value stands: in items, arguments and conditions. A size, a number of groups, a weight and a name are constants of the circuit.",
    },
    Row {
        words: &[b"?", b"$", b"@"],
        cure: "A parameter has a name behind a colon, :cap, and the schema declares it: parameter cap u32;",
    },
    Row {
        words: &[b"//", b"/*", b"#"],
        cure: "A comment begins with -- and goes to the end of its line.",
    },
    Row {
        words: &[b"{", b"}"],
        cure: "Write round brackets in its place.",
    },
];

// Other signs.
fn mark_cure(word: &[u8]) -> Option<&'static str> {
    cure_in(&MARKS, word)
}

const CLAUSES: [Row; 7] = [
    Row {
        words: &[
            b"order", b"limit", b"fetch", b"top", b"offset", b"sort", b"asc", b"desc", b"nulls",
        ],
        cure: "Rows leave in the order in which they come about: leave ORDER BY and LIMIT out. Take max(x) or min(x), or sort on the host.",
    },
    Row {
        words: &[b"having", b"qualify"],
        cure: "Write a select over the select: SELECT k, s FROM (SELECT k, sum(x) AS s FROM t GROUP BY k GROUPS 64) WHERE s > 5.",
    },
    Row {
        words: &[b"over"],
        cure: "OVER stands right behind the brackets of count, sum, min, max, avg, lag or last_value: sum(price) OVER (ROWS 19 PRECEDING) AS s.",
    },
    Row {
        words: &[b"partition"],
        cure: "PARTITION BY stands in the brackets of OVER: lag(price) OVER (PARTITION BY symbol GROUPS 64) AS prior. Windows of one key's own rows are EACH w IN t BY k GROUPS 8 [SIZE 5 ADVANCE 1 TUPLES] (SELECT sum(x) AS s FROM w).",
    },
    Row {
        words: &[
            b"window",
            b"preceding",
            b"following",
            b"rows",
            b"range",
            b"unbounded",
            b"frame",
        ],
        cure: "A window of rows to come stands behind the source, [SIZE 5 ADVANCE 1 TUPLES], and one of ticks too, [SIZE 5 ADVANCE 1 TIME]. The rows before are in OVER: sum(x) OVER (ROWS 4 PRECEDING) AS s.",
    },
    Row {
        words: &[b"filter"],
        cure: "FILTER stands between a function and its OVER: count() FILTER (WHERE price > 100) OVER (ROWS 19 PRECEDING) AS n.",
    },
    Row {
        words: &[
            b"cube",
            b"rollup",
            b"grouping",
            b"sets",
            b"pivot",
            b"unpivot",
            b"tablesample",
            b"for",
        ],
        cure: "There is no such clause: write one group for each question, with its condition in WHERE, and several queries by many.",
    },
];

// Clauses.
fn clause_cure(word: &[u8]) -> Option<&'static str> {
    cure_in(&CLAUSES, word)
}

const SELECTS: [Row; 4] = [
    Row {
        words: &[
            b"join", b"asof", b"on", b"using", b"left", b"right", b"inner", b"outer", b"full",
            b"cross", b"natural", b"lateral", b"apply",
        ],
        cure: "The one join is ASOF, and CONCAT pairs two totals. The quote in force at each trade is in FROM trades ASOF quotes BY symbol GROUPS 64. Totals of two streams by one key are groups over a UNION. Each side has zeros for what its stream has not.",
    },
    Row {
        words: &[b"with", b"recursive"],
        cure: "A part has no name of its own: write its select in brackets behind FROM, FROM (SELECT ..).",
    },
    Row {
        words: &[b"all"],
        cure: "Leave ALL out: a select keeps all rows, and UNION keeps all rows of both.",
    },
    Row {
        words: &[b"except", b"intersect", b"minus", b"exists"],
        cure: "Rows are not compared with rows: a condition over the row's own columns stands in WHERE, and UNION keeps all rows.",
    },
];

// Selects that stand beside one another.
fn select_cure(word: &[u8]) -> Option<&'static str> {
    cure_in(&SELECTS, word)
}

const CONDITIONS: [Row; 5] = [
    Row {
        words: &[b"between"],
        cure: "Write two comparisons: x >= 1 AND x <= 5.",
    },
    Row {
        words: &[b"in", b"any", b"some"],
        cure: "Write a comparison for each value: x = 1 OR x = 2.",
    },
    Row {
        words: &[b"like", b"ilike", b"similar", b"regexp", b"rlike"],
        cure: "Texts are compared whole. CAST to a shorter text keeps the first bytes: CAST(symbol AS text2) = 'UB'.",
    },
    Row {
        words: &[
            b"null",
            b"is",
            b"coalesce",
            b"nullif",
            b"ifnull",
            b"nvl",
            b"isnull",
        ],
        cure: "There is no NULL: every column has a value in every row, so leave the test out.",
    },
    Row {
        words: &[b"true", b"false", b"bool", b"boolean"],
        cure: "A truth is a number of one bit: a column of kind u1, and flag = 1 or flag = 0.",
    },
];

// Conditions.
fn condition_cure(word: &[u8]) -> Option<&'static str> {
    cure_in(&CONDITIONS, word)
}

const CHOICES: [Row; 3] = [
    Row {
        words: &[
            b"case",
            b"sumif",
            b"countif",
            b"avgif",
            b"sum_if",
            b"count_if",
            b"when",
            b"then",
            b"else",
            b"if",
            b"iif",
            b"decode",
        ],
        cure: "A comparison is a number, 0 or 1, so multiply by it: CAST(side = 'B' AS u32) * volume.",
    },
    Row {
        words: &[b"distinct"],
        cure: "A group gives each key once: SELECT k, count() AS n FROM t GROUP BY k GROUPS 64. A select over it counts the keys: SELECT count() AS n FROM (SELECT k, count() AS c FROM t GROUP BY k GROUPS 64).",
    },
    Row {
        words: &[
            b"create",
            b"insert",
            b"update",
            b"delete",
            b"view",
            b"table",
            b"drop",
            b"alter",
            b"values",
            b"set",
            b"merge",
            b"emit",
            b"materialized",
        ],
        cure: "A text is one SELECT or EACH that ends in INTO and a name: SELECT price FROM trades INTO r.",
    },
];

// Choices, and other statements.
fn choice_cure(word: &[u8]) -> Option<&'static str> {
    cure_in(&CHOICES, word)
}

/// What one writes here in the place of a word of another language.
pub(crate) fn cure_of(word: &[u8]) -> Option<&'static str> {
    if let Some(cure) = operator_cure(word) {
        return Some(cure);
    }
    if let Some(cure) = mark_cure(word) {
        return Some(cure);
    }
    if let Some(cure) = clause_cure(word) {
        return Some(cure);
    }
    if let Some(cure) = select_cure(word) {
        return Some(cure);
    }
    if let Some(cure) = condition_cure(word) {
        return Some(cure);
    }
    if let Some(cure) = choice_cure(word) {
        return Some(cure);
    }
    foreign_function(word)
}

/// What one writes here in the place of a word that stands for a value in another language.
pub(crate) fn value_cure(word: &[u8]) -> Option<&'static str> {
    let is_value = is_one_of(
        word,
        &[
            b"null",
            b"true",
            b"false",
            b"now",
            b"current_timestamp",
            b"current_date",
        ],
    );
    if is_value { cure_of(word) } else { None }
}
