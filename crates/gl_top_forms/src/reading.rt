//! What the words of a command line say.

ghost use Rattle.std.specs.Prelude.{◌≡◌, ◌≤◌, ◌==◌, bytes_eq, find, length, slice_get, is_some, option_map, IfSome};
ghost use Rattle.gl_tuples.specs.Values.{number_of};
ghost use Rattle.gl_top_forms.specs.Forms as forms;
ghost use Rattle.gl_top_forms.specs.Steps as steps;

use crate::command::{COMMANDS, Command, Part};
use gl_outside::Words;
use gl_tuples::value::number_of;
use gl_verilog::Start;

// ---- the option

// The first word.
pub(crate) fn first_word(words: &Words) -> &str
    ensures { result.now ≡ forms.first_word words.now }
{
    match words.get(0) {
        Some(word) => word,
        None => "",
    }
}

// The option that the words may have.
#[tactic(auto, unfolding(crate::specs::Forms::option_word))]
pub(crate) fn option_word(words: &Words) -> &'static [u8]
    ensures { result.now ≡ forms.option_word words.now }
{
    if first_word(words) == "sim" {
        b"--extra"
    } else {
        b"--start"
    }
}

// ---- one word

// Whether the word begins with `-`.
pub(crate) fn is_dashed(word: &[u8]) -> bool
    ensures { result ≡ forms.is_dashed word.now }
{
    match word {
        [] => false,
        [first, ..] => *first == b'-',
    }
}

// Whether the next word is the value of this one; `valued` says whether this one is a value.
pub(crate) fn is_option(option: &[u8], valued: bool, word: &[u8]) -> bool
    ensures { result ≡ steps.is_option option.now valued word.now }
{
    !valued && word == option
}

// Whether the word is a name.
fn is_name(valued: bool, word: &[u8]) -> bool
    ensures { result ≡ steps.is_name valued word.now }
{
    !valued && !is_dashed(word)
}

// What stands behind a front.
fn behind<'a>(front: &[u8], word: &'a [u8]) -> Option<&'a [u8]>
    ensures { steps.bytes_of result ≡ steps.behind front.now word.now }
{
    if word.starts_with(front) {
        Some(&word[front.len()..])
    } else {
        None
    }
}

// What stands behind the option and `=`.
pub(crate) fn behind_front<'a>(option: &[u8], word: &'a [u8]) -> Option<&'a [u8]>
    ensures { steps.bytes_of result ≡ steps.behind (forms.option_front option.now) word.now }
{
    behind(b"=", behind(option, word)?)
}

// The value that the word gives, if it is one or an option; None within where there is no such option.
fn value_in<'a>(option: &[u8], valued: bool, word: &'a [u8]) -> Option<Option<&'a [u8]>>
    ensures { option_map steps.bytes_of result ≡ steps.value_in option.now valued word.now }
{
    if valued {
        return Some(Some(word));
    }
    if word == option {
        return None;
    }
    if let Some(value) = behind_front(option, word) {
        return Some(Some(value));
    }
    if is_dashed(word) {
        return Some(None);
    }
    None
}

// ---- names

// The name at a place among the names.
#[tactic(auto, unfolding(crate::specs::Forms::names_of))]
pub(crate) fn name_at(words: &Words, index: usize) -> Option<&str>
    ensures { option_map (λ w. w.now) result ≡ slice_get (forms.names_of words.now) index }
{
    let option = option_word(words);
    let mut left = index;
    let mut valued = false;
    for at in 1..words.len() {
        let Some(word) = words.get(at) else {
            return None;
        };
        let named = is_name(valued, word.as_bytes());
        valued = is_option(option, valued, word.as_bytes());
        if named {
            if left == 0 {
                return Some(word);
            }
            left -= 1;
        }
    }
    None
}

// The place of a text's name among the names.
fn place_of(part: Part) -> usize
    ensures { result ≡ forms.place_of part }
{
    match part {
        Part::Schema | Part::Dump => 0,
        Part::Query | Part::Module | Part::Queries => 1,
        Part::Tuples => 2,
    }
}

/// The name of a text, of words of any form or of none; no byte where the words name none.
#[tactic(auto, unfolding(crate::specs::Forms::name_of))]
pub fn name_of(words: &Words, part: Part) -> &str
    ensures { result.now ≡ forms.name_of words.now part }
{
    match name_at(words, place_of(part)) {
        Some(name) => name,
        None => "",
    }
}

// Whether there is a name at a place among the names.
pub(crate) fn has_name(words: &Words, index: usize) -> bool
    ensures { result ≡ is_some (slice_get (forms.names_of words.now) index) }
{
    match name_at(words, index) {
        Some(_) => true,
        None => false,
    }
}

// Whether there are `count` names.
#[tactic(auto, using(crate::proofs::Counts::counted))]
pub(crate) fn has_names(words: &Words, count: usize) -> bool
    ensures { result ≡ (length (forms.names_of words.now) == count) }
{
    !has_name(words, count) && (count == 0 || has_name(words, count - 1))
}

// ---- values

// The value at a place among the values.
#[tactic(auto, unfolding(crate::specs::Forms::values_of))]
pub(crate) fn value_at(words: &Words, index: usize) -> Option<Option<&[u8]>>
    ensures { option_map steps.bytes_of result ≡ slice_get (forms.values_of words.now) index }
{
    let option = option_word(words);
    let mut left = index;
    let mut valued = false;
    for at in 1..words.len() {
        let Some(word) = words.get(at) else {
            return None;
        };
        let found = value_in(option, valued, word.as_bytes());
        valued = is_option(option, valued, word.as_bytes());
        if let Some(value) = found {
            if left == 0 {
                return Some(value);
            }
            left -= 1;
        }
    }
    if valued && left == 0 {
        Some(None)
    } else {
        None
    }
}

// ---- the start

// The start of a number.
fn start_from(number: u64) -> Start
    ensures { result ≡ forms.start_from number }
{
    if number == 0 {
        Start::Zero
    } else {
        Start::Drawn(number)
    }
}

/// The start that a text says.
pub fn start_at(value: &[u8]) -> Option<Start>
    ensures { result ≡ forms.start_at (number_of value.now) }
{
    match u64::try_from(number_of(value)?) {
        Ok(number) => Some(start_from(number)),
        Err(_) => None,
    }
}

// The start that the values say.
fn start_in(words: &Words) -> Option<Start>
    ensures { result ≡ forms.start_in (forms.values_of words.now) }
{
    match value_at(words, 0) {
        None => Some(Start::Zero),
        Some(None) => None,
        Some(Some(value)) => {
            if value_at(words, 1).is_some() {
                None
            } else {
                start_at(value)
            }
        }
    }
}

// ---- the cycles that are waited for the end

/// The cycles that a text says, if that number may be waited.
pub fn extra_at(value: &[u8]) -> Option<u32>
    ensures { result ≡ forms.extra_at (number_of value.now) }
{
    let number = number_of(value)?;
    if number > 1_000_000 {
        None
    } else {
        Some(number as u32)
    }
}

// The cycles that the values say.
fn extra_in(words: &Words) -> Option<u32>
    ensures { result ≡ forms.extra_in (forms.values_of words.now) }
{
    match value_at(words, 0) {
        Some(Some(value)) if value_at(words, 1).is_none() => extra_at(value),
        _ => None,
    }
}

// ---- the tuples of a load

/// The tuples that a text says, if a load may have that number.
pub fn load_at(name: &[u8]) -> Option<u32>
    ensures value { result ≡ forms.load_at (number_of name.now) }
    ensures some { IfSome result (λ count. 1 ≤ count) }
{
    let number = number_of(name)?;
    if number == 0 || number > 1_000_000 {
        None
    } else {
        Some(number as u32)
    }
}

// The tuples that the first name says.
fn load_in(words: &Words) -> Option<u32>
    ensures { result ≡ forms.load_in (forms.names_of words.now) }
{
    load_at(name_at(words, 0)?.as_bytes())
}

// ---- the command that help is asked on

// The first of some commands whose word this is.
fn first_named(word: &[u8], commands: &[Command]) -> Option<Command>
    ensures { result ≡ find (λ c. bytes_eq word.now (forms.word_of c)) commands.now }
{
    let (command, others) = commands.split_first()?;
    if word == command.word().as_bytes() {
        return Some(*command);
    }
    first_named(word, others)
}

/// The first command whose word this is.
#[tactic(auto, unfolding(crate::specs::Forms::command_named))]
pub fn command_named(word: &[u8]) -> Option<Command>
    ensures { result ≡ forms.command_named word.now }
{
    first_named(word, &COMMANDS)
}

// The command that the first name is the word of.
fn topic_in(words: &Words) -> Option<Command>
    ensures { result ≡ forms.topic_in (forms.names_of words.now) }
{
    command_named(name_at(words, 0)?.as_bytes())
}

// ---- the command

// Whether the command takes the values.
fn takes_values(words: &Words, command: Command) -> bool
    ensures { result ≡ forms.takes_values command (forms.values_of words.now) }
{
    match command {
        Command::Run | Command::Vcd | Command::ManyRun => start_in(words).is_some(),
        Command::Sim => extra_in(words).is_some(),
        Command::Compile
        | Command::Figures
        | Command::Explain
        | Command::Load
        | Command::Undump
        | Command::Many
        | Command::ManyFigures
        | Command::WhyRun
        | Command::Why
        | Command::HelpOf
        | Command::Help
        | Command::DashedHelp
        | Command::Version => value_at(words, 0).is_none(),
    }
}

// Whether the command takes the names.
pub(crate) fn takes_names(words: &Words, command: Command) -> bool
    ensures { result ≡ forms.takes_names command (forms.names_of words.now) }
{
    match command {
        Command::Load => load_in(words).is_some(),
        Command::HelpOf => topic_in(words).is_some(),
        Command::Compile
        | Command::Figures
        | Command::Explain
        | Command::Run
        | Command::Sim
        | Command::Vcd
        | Command::Undump
        | Command::Many
        | Command::ManyFigures
        | Command::ManyRun
        | Command::WhyRun
        | Command::Why
        | Command::Help
        | Command::DashedHelp
        | Command::Version => true,
    }
}

// Whether the words are this command, as many names and what it takes.
#[tactic(auto, unfolding(crate::specs::Forms::is_command))]
fn is_command(words: &Words, command: Command) -> bool
    ensures { result ≡ forms.is_command words.now command }
{
    first_word(words) == command.word()
        && has_names(words, command.names())
        && takes_names(words, command)
        && takes_values(words, command)
}

// The first of some commands whose form the words have.
fn first_of(words: &Words, commands: &[Command]) -> Option<Command>
    ensures { result ≡ find (forms.is_command words.now) commands.now }
{
    let (command, others) = commands.split_first()?;
    if is_command(words, *command) {
        return Some(*command);
    }
    first_of(words, others)
}

/// The command that the words are, if they are of a form.
#[tactic(auto, unfolding(crate::specs::Forms::command_of))]
pub fn command_of(words: &Words) -> Option<Command>
    ensures { result ≡ forms.command_of words.now }
{
    first_of(words, &COMMANDS)
}
