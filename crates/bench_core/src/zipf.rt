use crate::power::power;
use std::num::{nearest_u64_to_f64, saturating_f64_to_u64};

/// The exponent of YCSB's zipf distribution.
const THETA: f64 = 0.99;

/// Ranks by YCSB's zipf distribution: small ones come often.
#[derive(Clone, Copy)]
pub struct Zipf {
    rows: f64,
    zeta: f64,
    alpha: f64,
    eta: f64,
}

impl Zipf {
    pub fn new(rows: u64) -> Zipf {
        let mut zeta = 0.0;
        for rank in 0..rows {
            zeta = zeta + 1.0 / power(nearest_u64_to_f64(rank.wrapping_add(1)), THETA);
        }
        let rows = nearest_u64_to_f64(rows);
        let first_two = 1.0 + 1.0 / power(2.0, THETA);
        let eta = (1.0 - power(2.0 / rows, 1.0 - THETA)) / (1.0 - first_two / zeta);
        Zipf {
            rows,
            zeta,
            alpha: 1.0 / (1.0 - THETA),
            eta,
        }
    }

    /// The rank of a number of 53 bits, which are drawn uniformly.
    pub fn rank(&self, bits: u64) -> u64 {
        let unit = nearest_u64_to_f64(bits) / 9007199254740992.0;
        let share = unit * self.zeta;
        if share < 1.0 {
            return 0;
        }
        if share < 1.0 + power(0.5, THETA) {
            return 1;
        }
        let base = self.eta * unit - self.eta + 1.0;
        saturating_f64_to_u64(self.rows * power(base, self.alpha))
    }
}
