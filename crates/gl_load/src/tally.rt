//! What the lines of a run come to.

ghost use Rattle.std.specs.Prelude.{◌≡◌, ◌+◌, ◌*◌, ◌<◌, ◌≤◌, ◌^◌, ◌∷◌, [], length, IfSome, MatchOption, ◌==◌};
ghost use Rattle.std.specs.List.{position};
ghost use Rattle.gl_load.specs.Tallies as spec;
ghost use Rattle.gl_load.specs.Steps.{IsBounded, tally_in};

use gl_tuples::value::number_of;

/// What lines come to: how many are of a result, the sum of their counts, the last of them, and the
/// first field of the last line of all.
#[derive(Clone, Copy)]
pub struct Tally<'a> {
    /// How many lines tell a result.
    pub results: u64,
    /// The sum of the counts that the results tell.
    pub counted: u128,
    /// The last line that tells a result; empty before the first.
    pub last: &'a [u8],
    /// The first field of the last line, which is its cycle; empty before the first.
    pub end: &'a [u8],
}

// The first place of a byte.
fn place_of(text: &[u8], byte: u8) -> Option<usize>
    ensures place { result ≡ position (λ b. b == byte) text.now }
    ensures below { IfSome result (λ at. at < length text.now) }
{
    text.iter().position(|other| *other == byte)
}

// The first line of a text, without its line feed, and what stands behind that.
fn next_line(text: &[u8]) -> Option<(&[u8], &[u8])>
    ensures line { MatchOption result (spec.lines_of text.now ≡ [])
        (λ parts. spec.lines_of text.now ≡ parts.0.now ∷ spec.lines_of parts.1.now) }
    ensures shorter { IfSome result (λ parts. length parts.1.now < length text.now) }
{
    match place_of(text, b'\n') {
        Some(at) => Some((&text[..at], &text[at + 1..])),
        None => None,
    }
}

// The bytes before the first comma.
fn first_field(line: &[u8]) -> &[u8]
    ensures { result.now ≡ spec.first_field line.now }
{
    match place_of(line, b',') {
        Some(at) => &line[..at],
        None => line,
    }
}

// The bytes behind the first comma.
fn behind_comma(line: &[u8]) -> &[u8]
    ensures { result.now ≡ spec.behind_comma line.now }
{
    match place_of(line, b',') {
        Some(at) => &line[at + 1..],
        None => &[],
    }
}

// The count of a line of a result.
#[tactic(auto, unfolding(crate::specs::Tallies::count_in))]
fn count_in(line: &[u8]) -> Option<u64>
    ensures { result ≡ spec.count_in line.now }
{
    match u64::try_from(number_of(first_field(behind_comma(line)))?) {
        Ok(count) => Some(count),
        Err(_) => None,
    }
}

// The tally with a line more.
fn with_line<'a>(tally: Tally<'a>, line: &'a [u8]) -> Tally<'a>
    requires room { tally.results + 1 < 2 ^ 64 }
    requires bounded { IsBounded tally }
    ensures value { tally_in result ≡ spec.with_line (tally_in tally.entry) line.now }
    ensures bounded { IsBounded result }
    ensures grows { result.results ≤ tally.entry.results + 1 }
{
    let end = first_field(line);
    match count_in(line) {
        Some(count) => Tally {
            results: tally.results + 1,
            counted: tally.counted + u128::from(count),
            last: line,
            end,
        },
        None => Tally {
            results: tally.results,
            counted: tally.counted,
            last: tally.last,
            end,
        },
    }
}

/// The tally of the lines of a text.
#[tactic(auto, unfolding(crate::specs::Tallies::tally_of))]
pub fn tally_of(text: &[u8]) -> Tally<'_>
    ensures { tally_in result ≡ spec.tally_of text.now }
{
    let mut tally = Tally {
        results: 0,
        counted: 0,
        last: &[],
        end: &[],
    };
    let mut rest = text;
    while let Some((line, behind)) = next_line(rest) {
        tally = with_line(tally, line);
        rest = behind;
    }
    tally
}
