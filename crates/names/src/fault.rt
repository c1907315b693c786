// Why a template or a name is refused, and how a refusal is told.
ghost use Rattle.std.specs.Prelude.{◌≡◌, Some};
ghost use Rattle.names.specs.Faults.{template_refusal, name_refusal, layer_word, refusal_text};

use std::fmt;

// The layer that refuses.
#[derive(Clone, Copy, PartialEq, Eq, Debug)]
pub enum Layer {
    Template,
    Name,
    Source,
    Register,
    Store,
    Command,
    Program,
}

// A fault as it is told: its number, the layer that refuses, and the place that it points to.
#[derive(Clone, Copy, PartialEq, Eq, Debug)]
pub struct Refusal {
    pub number: u8,
    pub layer: Layer,
    pub place: usize,
}

// What is wrong with a template's text; each case has the place of the fault, counted from 0.
#[derive(Clone, Copy, PartialEq, Eq, Debug)]
pub enum TemplateFault {
    Naan(usize),
    Shoulder(usize),
    Letter(usize),
    Mask(usize),
    Early(usize),
}

// Why a text is no name of a template: its length, its first wrong byte, or its check character.
#[derive(Clone, Copy, PartialEq, Eq, Debug)]
pub enum NameFault {
    Length(usize),
    Byte(usize),
    Check(usize),
}

impl fmt::Display for Layer {
    ghost output = { λ x. Some (layer_word x) };

    fn fmt<W: fmt::Write>(&self, f: &mut fmt::Formatter<W>) -> fmt::Result {
        f.write_str(match self {
            Layer::Template => "template",
            Layer::Name => "name",
            Layer::Source => "source",
            Layer::Register => "register",
            Layer::Store => "store",
            Layer::Command => "command",
            Layer::Program => "program",
        })
    }
}

impl fmt::Display for Refusal {
    ghost output = { λ x. Some (refusal_text x) };

    fn fmt<W: fmt::Write>(&self, f: &mut fmt::Formatter<W>) -> fmt::Result {
        let number = self.number;
        let layer = self.layer;
        let place = self.place;
        write!(f, "refused {number}, {layer}, place {place}")
    }
}

impl From<TemplateFault> for Refusal {
    ghost from_gives = { λ x y. y ≡ template_refusal x };

    fn from(fault: TemplateFault) -> Refusal {
        let (number, place) = match fault {
            TemplateFault::Naan(at) => (1, at),
            TemplateFault::Shoulder(at) => (2, at),
            TemplateFault::Letter(at) => (3, at),
            TemplateFault::Mask(at) => (4, at),
            TemplateFault::Early(at) => (5, at),
        };
        Refusal {
            number,
            layer: Layer::Template,
            place,
        }
    }
}

impl From<NameFault> for Refusal {
    ghost from_gives = { λ x y. y ≡ name_refusal x };

    fn from(fault: NameFault) -> Refusal {
        let (number, place) = match fault {
            NameFault::Length(at) => (6, at),
            NameFault::Byte(at) => (7, at),
            NameFault::Check(at) => (8, at),
        };
        Refusal {
            number,
            layer: Layer::Name,
            place,
        }
    }
}
