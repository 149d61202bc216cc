//! Kinds of other languages, and what one writes here in their place.

use crate::elsewhere::{Row, cure_in};

const KINDS: [Row; 7] = [
    Row {
        words: &[
            b"int",
            b"integer",
            b"int32",
            b"i32",
            b"uint32",
            b"unsigned",
            b"number",
            b"long",
            b"uint",
            b"u128",
            b"i64",
            b"int64",
            b"uint64",
            b"bigint",
            b"smallint",
            b"tinyint",
            b"byte",
            b"short",
            b"u0",
            b"s1",
        ],
        cure: "Numbers are u1 to u64 without a sign and s2 to s64 with one: u32, or s64.",
    },
    Row {
        words: &[
            b"float", b"double", b"real", b"decimal", b"numeric", b"f32", b"f64", b"money",
        ],
        cure: "There are no fractions: a number counts its smallest unit, cents or ticks of a price, as u32 or u64.",
    },
    Row {
        words: &[
            b"text",
            b"varchar",
            b"char",
            b"string",
            b"symbol",
            b"nvarchar",
            b"character",
            b"str",
            b"text16",
            b"text32",
        ],
        cure: "Texts are text1 to text8, of at most so many bytes. A longer one has a number in its place.",
    },
    Row {
        words: &[b"bool", b"boolean", b"bit", b"flag"],
        cure: "A truth is u1, a number of one bit.",
    },
    Row {
        words: &[
            b"timestamp",
            b"datetime",
            b"date",
            b"time",
            b"timestamptz",
            b"duration",
        ],
        cure: "A time is a number that the feed gives: u64, of milliseconds, say.",
    },
    Row {
        words: &[b"inet", b"ip", b"ipv4", b"ipv6", b"cidr", b"uuid", b"mac"],
        cure: "An address is a number: u32 for IPv4, u48 for a MAC address, two of u64 for IPv6.",
    },
    Row {
        words: &[
            b"array", b"struct", b"json", b"blob", b"bytes", b"bytea", b"map",
        ],
        cure: "A column has one number or one short text: give each part a column of its own.",
    },
];

/// What one writes here in the place of another language's kind.
pub(crate) fn kind_cure(word: &[u8]) -> Option<&'static str> {
    cure_in(&KINDS, word)
}
