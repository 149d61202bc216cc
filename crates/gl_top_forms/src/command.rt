//! Commands, and the texts that they name.

ghost use Rattle.std.specs.Prelude.{◌≡◌};
ghost use Rattle.gl_top_forms.specs.Forms as forms;

/// What the first word asks for.
#[derive(Clone, Copy, PartialEq, Eq, Debug)]
pub enum Command {
    /// `compile S Q`: the Verilog text of a query.
    Compile,
    /// `figures S Q`: latency, gaps, copies, and bits of registers and memories.
    Figures,
    /// `explain S Q`: the query and its plan.
    Explain,
    /// `run S Q T [--start N]`: what the Verilog text does over a tuple file.
    Run,
    /// `sim S V T --extra N`: what a given Verilog text does over a tuple file.
    Sim,
    /// `load N`: the Verilog text of a fixed query over N tuples, and what comes out.
    Load,
    /// `vcd S Q T [--start N]`: a value change dump of what the Verilog text does over a tuple file.
    Vcd,
    /// `undump D`: the result that a value change dump shows.
    Undump,
    /// `many S Q`: the Verilog text of several queries, one module.
    Many,
    /// `manyfigures S Q`: the latency of each of several queries, and the gap of all.
    ManyFigures,
    /// `manyrun S Q T [--start N]`: what the Verilog text of several queries does over a tuple file.
    ManyRun,
    /// `why S Q T`: why `run` refuses these texts, in sentences.
    WhyRun,
    /// `why S Q`: why `figures` refuses these texts, in sentences.
    Why,
    /// `help COMMAND`: how this command is called, and what it writes.
    HelpOf,
    /// `help`: how every command is called.
    Help,
    /// `--help`: how every command is called.
    DashedHelp,
    /// `--version`: the version of the program.
    Version,
}

/// All commands, in the order in which a form is looked for.
pub(crate) const COMMANDS: [Command; 17] = [
    Command::Compile,
    Command::Figures,
    Command::Explain,
    Command::Run,
    Command::Sim,
    Command::Load,
    Command::Vcd,
    Command::Undump,
    Command::Many,
    Command::ManyFigures,
    Command::ManyRun,
    Command::WhyRun,
    Command::Why,
    Command::HelpOf,
    Command::Help,
    Command::DashedHelp,
    Command::Version,
];

impl Command {
    /// Its word.
    pub fn word(self) -> &'static str
        ensures { result.now ≡ forms.word_of self }
    {
        match self {
            Command::Compile => "compile",
            Command::Figures => "figures",
            Command::Explain => "explain",
            Command::Run => "run",
            Command::Sim => "sim",
            Command::Load => "load",
            Command::Vcd => "vcd",
            Command::Undump => "undump",
            Command::Many => "many",
            Command::ManyFigures => "manyfigures",
            Command::ManyRun => "manyrun",
            Command::WhyRun | Command::Why => "why",
            Command::HelpOf | Command::Help => "help",
            Command::DashedHelp => "--help",
            Command::Version => "--version",
        }
    }

    /// How many names stand behind it.
    pub fn names(self) -> usize
        ensures { result ≡ forms.many_names self }
    {
        match self {
            Command::Compile
            | Command::Figures
            | Command::Explain
            | Command::Many
            | Command::ManyFigures
            | Command::Why => 2,
            Command::Run | Command::Sim | Command::Vcd | Command::ManyRun | Command::WhyRun => 3,
            Command::Load | Command::Undump | Command::HelpOf => 1,
            Command::Help | Command::DashedHelp | Command::Version => 0,
        }
    }
}

/// One of the texts that the words name behind the command, the schema first and the tuple file last.
#[derive(Clone, Copy, PartialEq, Eq, Debug)]
pub enum Part {
    /// The schema.
    Schema,
    /// The query.
    Query,
    /// The Verilog text.
    Module,
    /// The tuple file.
    Tuples,
    /// The value change dump.
    Dump,
    /// The text of several queries.
    Queries,
}
