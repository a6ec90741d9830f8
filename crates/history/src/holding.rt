// The job that holds an item, and the value that it wrote there and has not committed.
#[derive(Clone, Copy, PartialEq, Eq, Debug)]
pub struct Holding {
    pub job: u32,
    pub value: u32,
}
