// The bar of a record, and its place in an order.
ghost use Rattle.std.specs.Prelude.{length};
ghost use Rattle.memory.specs.Reading.{Least};
ghost use Rattle.drawing.specs.Bars.{IsBar, has_place};

use crate::axis::Axis;
use memory::records::Record;

// Where a record's pending period is drawn: its row, and the columns from its enter to its commit reading.
#[derive(Clone, Copy)]
pub struct Bar {
    pub row: usize,
    pub begin: usize,
    pub end: usize,
}

impl Bar {
    pub fn of(axis: &Axis, drawn: Record, row: usize) -> Bar
        ensures { IsBar axis.now drawn row result }
    {
        Bar {
            row,
            begin: axis.column(drawn.enter),
            end: axis.column(drawn.commit),
        }
    }
}

// The place of a record in an order, counted from 1, if the order has it.
pub fn place_of(order: &[u8], number: usize) -> Option<usize>
    ensures { Least (has_place order.now number) (length order.now) result }
{
    order
        .iter()
        .position(|placed| usize::from(*placed) == number)
        .map(|index| index + 1)
}
