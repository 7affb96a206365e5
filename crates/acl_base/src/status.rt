//! How a run ends.

ghost use Rattle.std.specs.Prelude.{◌≡◌};
ghost use Rattle.acl_base.specs.Status.{code_of};

/// How a run ends.
#[derive(Clone, Copy, Debug, PartialEq, Eq)]
pub enum Status {
    /// The input was read to its end, and no command was refused or stopped.
    Done,
    /// The input was read to its end, and at least one command was refused or stopped.
    Errors,
    /// The program's words are not of its grammar.
    Words,
    /// The input has a text fault.
    Text,
    /// Reading the input failed.
    ReadFault,
    /// Writing the output failed.
    WriteFault,
    /// Memory was refused.
    Memory,
}

impl Status {
    /// The exit status of the program.
    pub fn code(&self) -> u8
        ensures { result ≡ code_of self.now }
    {
        match self {
            Status::Done => 0,
            Status::Errors => 1,
            Status::Words => 2,
            Status::Text => 3,
            Status::ReadFault => 4,
            Status::WriteFault => 5,
            Status::Memory => 6,
        }
    }
}
