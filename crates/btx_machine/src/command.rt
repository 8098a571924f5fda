//! The commands that execute a function.
ghost use Rattle.std.specs.Prelude.{◌≡◌};
ghost use Rattle.btx_machine.specs.language.Commands.{command_word};

use btx_bst::Command as StyleCommand;

/// A command that executes a function.
#[derive(Clone, Copy, Debug, PartialEq, Eq)]
pub enum Command {
    Execute,
    Iterate,
    Reverse,
}

impl Command {
    /// Answers the command's name, as messages show it.
    #[tactic(auto, unfolding(crate::specs::language::Commands::command_word))]
    pub fn word(self) -> &'static [u8]
        ensures { result.now ≡ command_word self }
    {
        let command = match self {
            Command::Execute => StyleCommand::Execute,
            Command::Iterate => StyleCommand::Iterate,
            Command::Reverse => StyleCommand::Reverse,
        };
        command.word()
    }
}
