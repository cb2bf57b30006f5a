//! The words of a command.

ghost use Rattle.std.specs.Prelude.{IfSome, IfNone};
ghost use Rattle.proxy_top.specs.Commands.{words_of, IsNoCommand, IsCommand};

/// What the words ask for.
#[derive(Clone, Copy)]
pub enum Command<'a> {
    /// `check FILE`
    Check { script: &'a str },
    /// `sim FILE SCENARIO`
    Sim { script: &'a str, scenario: &'a str },
}

/// The command that these words are, without the program's name.
pub fn read_command(words: &[String]) -> Option<Command<'_>>
    ensures found { IfSome result (IsCommand (words_of words.entry.now)) }
    ensures none { IfNone result (IsNoCommand (words_of words.entry.now)) }
{
    match words {
        [command, script] if command.as_str() == "check" => {
            Some(Command::Check {
                script: script.as_str(),
            })
        }
        [command, script, scenario] if command.as_str() == "sim" => {
            Some(Command::Sim {
                script: script.as_str(),
                scenario: scenario.as_str(),
            })
        }
        _ => None,
    }
}
