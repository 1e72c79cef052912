use crate::colour::Colour;

// An amount of one line on its way from one station to another. Sender and number are its name: the number counts the
// sender's posts.
#[derive(Clone, Copy, PartialEq, Eq, Debug)]
pub struct Slip {
    pub sender: usize,
    pub number: u32,
    pub receiver: usize,
    pub line: u32,
    pub amount: i32,
}

// A slip with the colour that its sender had when it was posted.
#[derive(Clone, Copy, PartialEq, Eq, Debug)]
pub struct ColouredSlip {
    pub slip: Slip,
    pub colour: Colour,
}
