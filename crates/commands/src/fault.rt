// Why a line is refused.
ghost use Rattle.std.specs.Prelude.{◌≡◌};
ghost use Rattle.commands.specs.Faults.{command_refusal};
ghost use Rattle.commands.specs.declared.fault.CommandFault.TheVariants.{Template, Register};

use machine::fault::RegisterFault;
use names::fault::{Layer, Refusal, TemplateFault};

// The opening line's template is none; the register refuses; a line fits no form, with the place of its first wrong word; one line too many; too few bytes free for output;
// an input that is too long.
#[derive(Clone, Copy, PartialEq, Eq, Debug)]
pub enum CommandFault {
    Template(TemplateFault),
    Register(RegisterFault),
    Line(usize),
    Lines,
    Output,
    Input,
}

impl From<CommandFault> for Refusal {
    ghost from_gives = { λ x y. y ≡ command_refusal x };

    fn from(fault: CommandFault) -> Refusal {
        let (number, layer, place) = match fault {
            CommandFault::Template(fault) => return Refusal::from(fault),
            CommandFault::Register(fault) => return Refusal::from(fault),
            CommandFault::Line(at) => (27, Layer::Command, at),
            CommandFault::Lines => (28, Layer::Command, 0),
            CommandFault::Output => (29, Layer::Command, 0),
            CommandFault::Input => (30, Layer::Program, 0),
        };
        Refusal {
            number,
            layer,
            place,
        }
    }
}

impl From<TemplateFault> for CommandFault {
    ghost from_gives = { λ x y. y ≡ Template x };

    fn from(value: TemplateFault) -> CommandFault {
        CommandFault::Template(value)
    }
}

impl From<RegisterFault> for CommandFault {
    ghost from_gives = { λ x y. y ≡ Register x };

    fn from(value: RegisterFault) -> CommandFault {
        CommandFault::Register(value)
    }
}
