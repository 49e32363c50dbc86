ghost use Rattle.std.specs.Prelude.{◌≡◌};
ghost use Rattle.mk_desk.specs.ToolStatuses.{tool_code_of};

/// How a tool of `markov_tools` ended. The number is the program's exit status.
#[derive(Clone, Copy, Debug, PartialEq, Eq)]
pub enum ToolStatus {
    /// The answer was written whole.
    Done = 0,
    /// The words name no tool, or are not those that it takes.
    Usage = 1,
    /// The input has a fault.
    Input = 2,
    /// A file or stream failed.
    Folder = 3,
    /// A number left its range.
    Overflow = 4,
    /// The budget of pairs was used.
    Budget = 5,
    /// Memory ran out.
    Memory = 6,
    /// A basis was full.
    Full = 7,
    /// The answer is no.
    No = 8,
}

impl ToolStatus {
    /// The exit status of the program.
    pub fn code(self) -> u8
        ensures { result ≡ tool_code_of self }
    {
        self as u8
    }
}
