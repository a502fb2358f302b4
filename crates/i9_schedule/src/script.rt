//! A script: its commands in order.
ghost use Rattle.std.specs.Prelude.{◌≡◌};
ghost use Rattle.i9_schedule.specs.ScriptText.{IsInLimits};

use crate::command::Command;
use std::marker::Model;

/// The commands of a script, in order.
#[derive(Debug, Drop)]
pub struct Script {
    commands: Vec<Command>,
}

impl Model for Script {
    ghost use Rattle.std.specs.Prelude.{List};
    ghost use Rattle.i9_schedule.specs.declared.command.Command.{Command};
    ghost use Rattle.i9_schedule.specs.ScriptText.{IsInLimits};

    ghost Value = { List Command };

    ghost view = { λ s. s.commands.items };

    ghost invariant = { λ s. IsInLimits s.commands.items };
}

impl Script {
    pub(crate) fn new(commands: Vec<Command>) -> Script
        requires { IsInLimits commands.items }
        ensures { result ≡ commands.items }
    {
        Script { commands }
    }

    /// The commands: at most 100,000, with their operands in their ranges.
    pub fn commands(&self) -> &[Command]
        ensures commands { result.now ≡ self.now }
        // So whoever runs them need not test their operands.
        ensures limits { IsInLimits result.now }
    {
        self.commands.as_slice()
    }
}
