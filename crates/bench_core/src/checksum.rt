use crate::rows::weight;
use mvo_types::Row;

/// A number by which the rows that two programs read are compared, in their order.
#[derive(Clone, Copy, PartialEq, Eq)]
pub struct Checksum(pub u64);

impl Checksum {
    pub fn add(&mut self, row: &Row) {
        self.0 = self.0.rotate_left(1).wrapping_add(weight(row));
    }
}
