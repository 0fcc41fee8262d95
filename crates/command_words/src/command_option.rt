// The options of the commands.
ghost use Rattle.std.specs.Prelude.{◌≡◌};
ghost use Rattle.command_words.specs.Options.{name_of, takes_value};

/// An option of a command.
#[derive(Clone, Copy, Debug, PartialEq, Eq)]
pub enum CommandOption {
    /// The most edges of a run.
    Steps,
    /// The greatest value of a loop's counter.
    Turns,
    /// The most frames at once.
    Frames,
    /// The most answers that a run may read.
    Answers,
    /// The ends of a run that count.
    Ends,
    /// The moves of a search.
    Budget,
    /// The report is one line of JSON. It takes no value.
    Json,
}

impl CommandOption {
    /// What follows its `--`.
    pub fn name(self) -> &'static str
        ensures { result.now ≡ name_of self }
    {
        match self {
            CommandOption::Steps => "steps",
            CommandOption::Turns => "turns",
            CommandOption::Frames => "frames",
            CommandOption::Answers => "answers",
            CommandOption::Ends => "ends",
            CommandOption::Budget => "budget",
            CommandOption::Json => "json",
        }
    }

    /// Whether it takes a value.
    pub fn has_value(self) -> bool
        ensures { result ≡ takes_value self }
    {
        !matches!(self, CommandOption::Json)
    }
}
