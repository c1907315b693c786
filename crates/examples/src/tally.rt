// What was tried: how much came as it should, and how much did not.
use names::fault::Refusal;
use std::alloc::Global;
use std::fmt;
use std::fmt::Display;

// Each thing that is tried is printed as it is counted.
#[derive(Drop)]
pub(crate) struct Tally<'a> {
    rt: &'a HostRuntime,
    right: u64,
    wrong: u64,
}

// A text between quotation marks.
#[derive(Clone, Copy, PartialEq)]
struct Quoted<'a>(&'a str);

impl Display for Quoted<'_> {
    fn fmt<W: fmt::Write>(&self, f: &mut fmt::Formatter<W>) -> fmt::Result {
        let text = self.0;
        write!(f, "'{text}'")
    }
}

impl<'a> Tally<'a> {
    pub(crate) fn new(rt: &'a HostRuntime) -> Tally<'a> {
        Tally {
            rt,
            right: 0,
            wrong: 0,
        }
    }

    pub(crate) fn heap(&self) -> Global {
        self.rt.alloc()
    }

    fn count(&mut self, is_right: bool) {
        if is_right {
            self.right = self.right.saturating_add(1);
        } else {
            self.wrong = self.wrong.saturating_add(1);
        }
    }

    pub(crate) fn compare<T: PartialEq + Display + Drop>(
        &mut self,
        what: &str,
        came: T,
        should: T,
    ) -> anyhow::Result<()> {
        self.count(came == should);
        println!(self.rt; "{what}: {came}, should be {should}")?;
        Ok(())
    }

    pub(crate) fn text(&mut self, what: &str, came: &str, should: &str) -> anyhow::Result<()> {
        self.compare(what, Quoted(came), Quoted(should))
    }

    // A refusal by its number and its place; none came where the call was accepted.
    pub(crate) fn refusal(
        &mut self,
        what: &str,
        came: Option<Refusal>,
        number: u8,
        place: usize,
    ) -> anyhow::Result<()> {
        match came {
            Some(refusal) => {
                let met = refusal.number;
                let at = refusal.place;
                self.count(met == number && at == place);
                println!(self.rt; "{what}: refused {met} at {at}, should be {number} at {place}")?;
            }
            None => {
                self.count(false);
                println!(self.rt; "{what}: accepted, should be refused {number} at {place}")?;
            }
        }
        Ok(())
    }

    pub(crate) fn print(&self) -> anyhow::Result<()> {
        let right = self.right;
        let wrong = self.wrong;
        println!(self.rt; "{right} as they should be, {wrong} not")?;
        Ok(())
    }
}
