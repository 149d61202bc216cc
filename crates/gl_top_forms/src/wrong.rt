//! Which word of a command line of no form is wrong.

ghost use Rattle.std.specs.Prelude.{◌≡◌, [], option_map, slice_get, unwrap_or};
ghost use Rattle.gl_top_forms.specs.Forms as forms;
ghost use Rattle.gl_top_forms.specs.Steps as steps;
ghost use Rattle.gl_top_forms.specs.Wrong as spec;

use crate::command::Command;
use crate::reading::{
    behind_front, command_named, first_word, has_name, has_names, is_dashed, is_option, name_at,
    option_word, takes_names, value_at,
};
use gl_outside::Words;

/// What is wrong with a command line of no form.
#[derive(Clone, Copy, PartialEq, Eq, Debug)]
pub enum Wrong {
    /// The first word is that of no command.
    NoCommand,
    /// A word begins with `-` and is no option.
    StrangeOption,
    /// More names than the command takes.
    NameTooMany,
    /// Fewer names than the command takes.
    NamesTooFew,
    /// The name of a load is no number in range.
    BadCount,
    /// Help is asked on what is no command.
    NoTopic,
    /// The command has no option.
    NoOption,
    /// The command must have an option.
    OptionLacking,
    /// An option has no value.
    NoValue,
    /// An option is given twice.
    GivenTwice,
    /// The value of an option is no number in range.
    BadValue,
}

impl Wrong {
    /// What is said in front of the word.
    #[tactic(auto, unfolding(crate::specs::Wrong::wrong_head))]
    pub fn head(self) -> &'static [u8]
        ensures { result.now ≡ spec.wrong_head self }
    {
        match self {
            Wrong::NoCommand | Wrong::NoTopic => b"no command: ",
            Wrong::StrangeOption => b"no option: ",
            Wrong::NameTooMany => b"a name too many: ",
            Wrong::NamesTooFew => b"too few names behind: ",
            Wrong::BadCount => b"no number from 1 to 1000000: ",
            Wrong::NoOption => b"no option of this command: ",
            Wrong::OptionLacking => b"an option is lacking: ",
            Wrong::NoValue => b"no value behind: ",
            Wrong::GivenTwice => b"given twice: ",
            Wrong::BadValue => b"no number in range: ",
        }
    }
}

// Whether the word begins with `-` and is neither an option nor the value of one.
fn is_strange(option: &[u8], valued: bool, word: &[u8]) -> bool
    ensures { result ≡ steps.is_strange option.now valued word.now }
{
    !valued && word != option && behind_front(option, word).is_none() && is_dashed(word)
}

// The first such word behind the command.
#[tactic(auto, unfolding(crate::specs::Wrong::strange_of))]
fn strange_of(words: &Words) -> Option<&str>
    ensures { option_map (λ w. w.now) result ≡ spec.strange_of words.now }
{
    let option = option_word(words);
    let mut valued = false;
    for at in 1..words.len() {
        let Some(word) = words.get(at) else {
            return None;
        };
        if is_strange(option, valued, word.as_bytes()) {
            return Some(word);
        }
        valued = is_option(option, valued, word.as_bytes());
    }
    None
}

// Whether a command has an option.
fn has_option(command: Command) -> bool
    ensures { result ≡ spec.has_option command }
{
    matches!(
        command,
        Command::Run | Command::Sim | Command::Vcd | Command::ManyRun
    )
}

// What is wrong with the one name of a load, or of help.
fn wrong_name(command: Command) -> Wrong
    ensures { result ≡ spec.wrong_name command }
{
    match command {
        Command::Load => Wrong::BadCount,
        _ => Wrong::NoTopic,
    }
}

// What is wrong with the values of an option.
fn wrong_value(words: &Words) -> Wrong
    ensures { result ≡ spec.wrong_value (forms.values_of words.now) }
{
    match value_at(words, 0) {
        None => Wrong::OptionLacking,
        Some(None) => Wrong::NoValue,
        Some(Some(_)) => {
            if value_at(words, 1).is_some() {
                Wrong::GivenTwice
            } else {
                Wrong::BadValue
            }
        }
    }
}

// What is wrong behind a command.
fn wrong_behind(words: &Words, command: Command) -> Wrong
    ensures { result ≡ spec.wrong_behind words.now command }
{
    if strange_of(words).is_some() {
        return Wrong::StrangeOption;
    }
    if !has_option(command) && value_at(words, 0).is_some() {
        return Wrong::NoOption;
    }
    if has_name(words, command.names()) {
        return Wrong::NameTooMany;
    }
    if !has_names(words, command.names()) {
        return Wrong::NamesTooFew;
    }
    if !takes_names(words, command) {
        return wrong_name(command);
    }
    wrong_value(words)
}

/// What is wrong with words of no form.
#[tactic(auto, unfolding(crate::specs::Wrong::wrong_of))]
pub fn wrong_of(words: &Words) -> Wrong
    ensures { result ≡ spec.wrong_of words.now }
{
    match command_named(first_word(words).as_bytes()) {
        Some(command) => wrong_behind(words, command),
        None => Wrong::NoCommand,
    }
}

// How many names the command takes that the first word names.
fn most_names(words: &Words) -> usize
    ensures { result ≡ spec.most_names (forms.command_named (forms.first_word words.now)) }
{
    match command_named(first_word(words).as_bytes()) {
        Some(command) => command.names(),
        None => 0,
    }
}

// The name at a place, and else no byte.
fn name_or_none(words: &Words, index: usize) -> &[u8]
    ensures { result.now ≡ unwrap_or (slice_get (forms.names_of words.now) index) [] }
{
    match name_at(words, index) {
        Some(name) => name.as_bytes(),
        None => b"",
    }
}

// The first value, and else no byte.
fn value_or_none(words: &Words) -> &[u8]
    ensures { result.now ≡ spec.value_or_none (slice_get (forms.values_of words.now) 0) }
{
    match value_at(words, 0) {
        Some(Some(value)) => value,
        _ => b"",
    }
}

// The first word that begins with `-` and is no option, and else no byte.
fn strange_or_none(words: &Words) -> &[u8]
    ensures { result.now ≡ unwrap_or (spec.strange_of words.now) [] }
{
    match strange_of(words) {
        Some(word) => word.as_bytes(),
        None => b"",
    }
}

/// The word that is wrong.
#[tactic(auto, unfolding(crate::specs::Wrong::wrong_word))]
pub fn wrong_word(words: &Words, wrong: Wrong) -> &[u8]
    ensures { result.now ≡ spec.wrong_word words.now wrong }
{
    match wrong {
        Wrong::NoCommand | Wrong::NamesTooFew => first_word(words).as_bytes(),
        Wrong::StrangeOption => strange_or_none(words),
        Wrong::NameTooMany => name_or_none(words, most_names(words)),
        Wrong::BadCount | Wrong::NoTopic => name_or_none(words, 0),
        Wrong::BadValue => value_or_none(words),
        Wrong::NoOption | Wrong::OptionLacking | Wrong::NoValue | Wrong::GivenTwice => {
            option_word(words)
        }
    }
}
