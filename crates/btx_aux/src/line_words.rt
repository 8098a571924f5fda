//! What a line says.
ghost use Rattle.std.specs.Prelude.{◌≡◌, ◌==◌, position};
ghost use Rattle.btx_aux.specs.language.Grammar.{aux_command_named, words_of};
ghost use Rattle.btx_aux.specs.refinement.Commands.{words_from};

use crate::command::Command;

const CITATION: &[u8] = b"\\citation";

const BIBDATA: &[u8] = b"\\bibdata";

const BIBSTYLE: &[u8] = b"\\bibstyle";

const INPUT: &[u8] = b"\\@input";

// The command of this name.
#[tactic(auto, unfolding(crate::specs::language::Grammar::aux_command_named))]
fn command(name: &[u8]) -> Option<Command>
    ensures { result ≡ aux_command_named name.now }
{
    if name == CITATION {
        return Some(Command::Citation);
    }
    if name == BIBDATA {
        return Some(Command::Bibdata);
    }
    if name == BIBSTYLE {
        return Some(Command::Bibstyle);
    }
    if name == INPUT {
        return Some(Command::Input);
    }
    None
}

/// The command of a line and its argument, if the line counts: its text up to its first `{` is exactly a command.
#[tactic(auto, unfolding(crate::specs::language::Grammar::words_of))]
pub fn command_line(line: &[u8]) -> Option<(Command, &[u8])>
    ensures { words_of line.now ≡ words_from result }
{
    let brace = first_brace(line)?;
    let command = command(&line[..brace])?;
    Some((command, &line[brace + 1..]))
}

// The index of the first `{` of a line.
fn first_brace(line: &[u8]) -> Option<usize>
    ensures { result ≡ position (λ byte. byte == 123) line.now }
{
    line.iter().position(|byte| *byte == b'{')
}
