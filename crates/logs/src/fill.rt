// How many records of a log are in use, and how many pairs they make.
#[derive(Clone, Copy, PartialEq, Eq, Debug)]
pub struct Fill {
    pub used: usize,
    pub count: usize,
}
