use crate::colour::Colour;

// What a house keeps of a station beside its sheet.
#[derive(Clone, Copy, PartialEq, Eq, Debug)]
pub struct Station {
    pub colour: Colour,
    // how many slips it has posted
    pub posted: u32,
    // slips posted less slips taken since its last turn, or since make if it never turned; late ones are not taken off
    pub running: i32,
    // the running deficit at its last turn; 0 before the first
    pub frozen: i32,
    // late slips of this count that it has not reported yet
    pub unreported: u32,
    // whether it has turned in this count; no `Option` of `frozen`, which outlasts the count
    pub turned: bool,
    // whether it has gathered in this count; a mark of its own, since the rules ask for each by a question
    pub gathered: bool,
}
