/// The first field of a node that no kind uses.
pub const SPARE: usize = 14;
