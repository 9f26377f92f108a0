//! `Repeated`: a scalar operand, which stands for each of `count` numbers.
ghost use Rattle.std.specs.Prelude.{◌≡◌, ◌≤◌, ◌++◌, length, replicate};

use std::marker::Model;

/// A number, repeated `count` times. A clause sees the list of these.
#[derive(Drop)]
pub struct Repeated {
    number: i128,
    count: usize,
}

impl Model for Repeated {
    ghost use Rattle.std.specs.Prelude.{List, ℤ, replicate};

    ghost Value = { List ℤ };

    ghost view = { λ r. replicate r.count r.number };
}

impl Repeated {
    /// Returns the number, repeated `count` times.
    pub fn new(number: i128, count: usize) -> Repeated
        ensures { result ≡ replicate count number }
    {
        Repeated { number, count }
    }

    /// Takes the next `count` of them, which all are the number returned.
    pub fn take(&mut self, count: usize) -> i128
        requires { count ≤ length self.old }
        ensures { self.old ≡ replicate count result ++ self.new }
    {
        self.count -= count;
        self.number
    }
}
