// The command that the data of a DNLOAD spells.
#![tactic(auto)]

ghost use Rattle.std.specs.Prelude.{◌≡◌};
ghost use Rattle.command.specs.Command.{command_of};

// The first data byte of a DNLOAD, and the four after it as an address; 0 where they are missing.
#[derive(Clone, Copy, Debug, PartialEq, Eq)]
pub struct Command {
    pub code: u8,
    pub address: u32,
}

impl Command {
    // The command that a data stage spells.
    #[tactic(auto, unfolding(crate::specs::Command::command_of))]
    pub fn of(stage: &[u8]) -> Command
        ensures { result ≡ command_of stage.now }
    {
        Command {
            code: buffer::byte_at(stage, 0),
            address: u32::from_le_bytes(buffer::bytes_at(stage, 1)),
        }
    }
}
