//! Where each call of a run takes effect: its linearization point.
ghost use Rattle.std.specs.Prelude.{◌≡◌, ◌++◌, [], ◌∷◌, OnOk};
ghost use Rattle.tko_runs.specs.Orders.{point_number_at};

use std::alloc::Global;
use std::marker::Model;
use tko_bytes::NoMemory;

/// Where a call takes effect: its linearization point.
#[derive(Clone, Copy, Debug, PartialEq, Eq)]
pub enum Point {
    /// At the step of this number, the last of its own at which the sequential tracker gives its
    /// reply and change.
    At(u64),
    /// It lost every try and changed nothing.
    Contended,
    /// It wasn't answered.
    Open,
}

/// Where each call of a run takes effect, in the order of their begins. Contracts see the list.
#[derive(Debug, Drop)]
pub struct Order {
    points: Vec<Point>,
}

impl Model for Order {
    ghost use Rattle.std.specs.Prelude.{List};
    ghost use Rattle.tko_runs.specs.declared.checking.order.Point.{Point};

    ghost Value = { List Point };

    ghost view = { λ order. order.points.items };
}

impl Order {
    pub(crate) fn new(alloc: Global) -> Order
        ensures { result ≡ [] }
    {
        Order {
            points: Vec::new(alloc),
        }
    }

    /// Adds where the next call takes effect.
    pub(crate) fn push(&mut self, point: Point) -> Result<(), NoMemory>
        ensures { OnOk result (self.new ≡ self.old ++ point ∷ []) }
    {
        self.points.push(point)?;
        Ok(())
    }

    /// The number of the step at which a call takes effect. Calls are numbered from 1, in the order
    /// of their begins. None for a call that is contended, open or not in the run.
    pub fn at(&self, call: usize) -> Option<u64>
        ensures { result ≡ point_number_at self.now call }
    {
        match self.points.get(call.checked_sub(1)?)? {
            Point::At(number) => Some(*number),
            Point::Contended | Point::Open => None,
        }
    }

    /// Where the calls take effect, in the order of their begins.
    pub fn points(&self) -> &[Point]
        ensures { result.now ≡ self.now }
    {
        self.points.as_slice()
    }
}
