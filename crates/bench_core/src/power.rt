//! Powers by sums and products alone, in the order that `bench/peers/power.h` has them, so that
//! both compute the same bits.

/// The root of 2, and the logarithm of 2.
const ROOT: f64 = 1.4142135623730951;

const LOGARITHM: f64 = 0.6931471805599453;

const HALF_LOGARITHM: f64 = 0.34657359027997264;

/// More halvings or doublings than a number needs.
const MOST: u32 = 1_100;

const TERMS: u32 = 18;

/// The power of a base above 0.
pub fn power(base: f64, exponent: f64) -> f64 {
    exponential(exponent * logarithm(base))
}

fn logarithm(x: f64) -> f64 {
    let mut rest = x;
    let mut twos = 0.0;
    for _ in 0..MOST {
        if rest > ROOT {
            rest = rest * 0.5;
            twos = twos + 1.0;
        } else if rest * ROOT < 1.0 {
            rest = rest * 2.0;
            twos = twos - 1.0;
        } else {
            break;
        }
    }
    near_one(rest) + twos * LOGARITHM
}

/// The logarithm of a number between the root of a half and that of 2.
fn near_one(x: f64) -> f64 {
    let ratio = (x - 1.0) / (x + 1.0);
    let square = ratio * ratio;
    let mut factor = ratio;
    let mut divisor = 1.0;
    let mut sum = 0.0;
    for _ in 0..TERMS {
        sum = sum + factor / divisor;
        factor = factor * square;
        divisor = divisor + 2.0;
    }
    sum + sum
}

fn exponential(x: f64) -> f64 {
    let mut rest = x;
    let mut scale = 1.0;
    for _ in 0..MOST {
        if rest > HALF_LOGARITHM {
            rest = rest - LOGARITHM;
            scale = scale * 2.0;
        } else if rest < -HALF_LOGARITHM {
            rest = rest + LOGARITHM;
            scale = scale * 0.5;
        } else {
            break;
        }
    }
    near_zero(rest) * scale
}

/// The exponential of a small number.
fn near_zero(x: f64) -> f64 {
    let mut term = 1.0;
    let mut divisor = 1.0;
    let mut sum = 1.0;
    for _ in 0..TERMS {
        term = term * x / divisor;
        sum = sum + term;
        divisor = divisor + 1.0;
    }
    sum
}
