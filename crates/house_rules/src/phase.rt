// The phase of a house: between counts it is ready, during a count counting, from its close until its text is filed closed.
#[derive(Clone, Copy, PartialEq, Eq, Debug)]
pub enum Phase {
    Ready,
    Counting,
    Closed,
}
