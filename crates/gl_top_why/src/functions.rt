//! Functions of other languages, and what one writes here in their place.

use crate::elsewhere::{Row, cure_in};

const TIMES: [Row; 3] = [
    Row {
        words: &[
            b"interval",
            b"second",
            b"seconds",
            b"minute",
            b"minutes",
            b"hour",
            b"hours",
            b"ms",
            b"day",
            b"days",
            b"within",
            b"every",
        ],
        cure: "A window of time counts ticks, which the feed gives: [SIZE 5 ADVANCE 1 TIME] behind a stream, with one tick a second, say.",
    },
    Row {
        words: &[
            b"tumble",
            b"hop",
            b"session",
            b"hopping",
            b"tumbling",
            b"sliding",
            b"tumble_start",
            b"window_start",
            b"window_end",
            b"time_bucket",
        ],
        cure: "A window of time stands behind the stream: FROM trades [SIZE 1 ADVANCE 1 TIME] GROUP BY symbol GROUPS 8. The feed gives the ticks, and min(ts) is the time of a window.",
    },
    Row {
        words: &[
            b"now",
            b"current_timestamp",
            b"current_date",
            b"extract",
            b"date_trunc",
            b"to_timestamp",
            b"date",
            b"timestamp",
            b"unix_timestamp",
        ],
        cure: "A time is a number of the feed's own, a column ts of kind u64. Windows of time go by the feed's ticks, [SIZE 1 ADVANCE 1 TIME].",
    },
];

// Times.
fn time_cure(word: &[u8]) -> Option<&'static str> {
    cure_in(&TIMES, word)
}

const PLACES: [Row; 5] = [
    Row {
        words: &[b"lead"],
        cure: "There is no row after this one: take what is before it, lag(x) OVER () AS prior, and read each row one later.",
    },
    Row {
        words: &[b"lag"],
        cure: "lag is an item with OVER and a name: lag(x) OVER () AS prior, or lag(x, 3) OVER () AS older.",
    },
    Row {
        words: &[b"row_number", b"rownum"],
        cure: "Count the rows up to each: count() OVER (ROWS UNBOUNDED PRECEDING) AS n.",
    },
    Row {
        words: &[
            b"first",
            b"last",
            b"argmax",
            b"argmin",
            b"max_by",
            b"min_by",
            b"arg_max",
            b"arg_min",
            b"first_value",
            b"nth_value",
            b"any_value",
            b"latest",
            b"earliest",
        ],
        cure: "In a window of k rows wsum(x, [1]) is the first one's value and wsum(x, [0, 0, 1]), with k weights, the last one's. In a window of time take max over the time and the value in one number.",
    },
    Row {
        words: &[
            b"rank",
            b"dense_rank",
            b"ntile",
            b"percentile",
            b"percentile_cont",
            b"median",
            b"quantile",
            b"mode",
        ],
        cure: "There are no ranks: min, max, avg, sum, count and wsum are the aggregates. Rank on the host.",
    },
];

// Rows by their places.
fn place_cure(word: &[u8]) -> Option<&'static str> {
    cure_in(&PLACES, word)
}

const NUMBERS: [Row; 3] = [
    Row {
        words: &[
            b"stddev",
            b"variance",
            b"stddev_pop",
            b"var_pop",
            b"var_samp",
            b"corr",
            b"covar_pop",
            b"sqrt",
            b"power",
            b"exp",
            b"ln",
            b"log",
            b"ewma",
            b"ema",
        ],
        cure: "There is no such function: write sum(x), sum(x * x) and count(), widened by CAST, and the host reckons the rest. wsum has weights.",
    },
    Row {
        words: &[
            b"abs",
            b"sign",
            b"greatest",
            b"least",
            b"round",
            b"floor",
            b"ceil",
            b"ceiling",
            b"trunc",
        ],
        cure: "There is no such function: a comparison is a number, 0 or 1, so write (b > a) * (b - a) with CAST. There are no fractions to round.",
    },
    Row {
        words: &[
            b"xor",
            b"bitand",
            b"bitor",
            b"bitxor",
            b"bitnot",
            b"bitshiftleft",
            b"bitshiftright",
            b"shiftleft",
            b"shiftright",
        ],
        cure: "Write the sign: a & b, a | b, a ^ b, ~ a, a << 1 or a >> 1.",
    },
];

// Functions of numbers.
fn number_cure(word: &[u8]) -> Option<&'static str> {
    cure_in(&NUMBERS, word)
}

const TEXTS: [Row; 1] = [Row {
    words: &[
        b"substring",
        b"substr",
        b"concat_ws",
        b"upper",
        b"lower",
        b"trim",
        b"length",
        b"len",
        b"replace",
        b"string_agg",
        b"array_agg",
        b"listagg",
    ],
    cure: "There are no functions of texts: CAST(symbol AS text2) keeps the first bytes, and comparisons are of whole texts.",
}];

// Functions of texts.
fn text_cure(word: &[u8]) -> Option<&'static str> {
    cure_in(&TEXTS, word)
}

/// What one writes here in the place of a function of another language.
pub(crate) fn foreign_function(word: &[u8]) -> Option<&'static str> {
    if let Some(cure) = time_cure(word) {
        return Some(cure);
    }
    if let Some(cure) = place_cure(word) {
        return Some(cure);
    }
    if let Some(cure) = number_cure(word) {
        return Some(cure);
    }
    text_cure(word)
}
