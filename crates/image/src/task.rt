// What the walks of a task go by.
use crate::Walk;

// An accepted image, the places of its nodes' fields, and its bus and numbers.
#[derive(Clone, Copy)]
pub struct Task<'a> {
    pub image: &'a [u8],
    pub places: &'a [usize; 256],
    pub walk: Walk,
}
