// What a lookup and the check know of a method.
use crate::array_vec::ArrayVec;

// The class and name of a method row, and its signature.
#[derive(Clone, Copy)]
pub struct Entry {
    pub class: u8,
    pub name: u8,
    pub arguments: ArrayVec<u8, 7>,
    pub result: u8,
}
