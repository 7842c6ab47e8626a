// From rows and columns to the units of the picture: x to the right, y down.
ghost use Rattle.std.specs.Prelude.{◌≡◌, ◌≤◌};
ghost use Rattle.drawing.specs.Geometry.{share_of, top_of, unit_of, KeepsApart};

// The whole picture; the axis with the bars has the records' words on its left and their places in an order on its right.
pub const WIDTH: usize = 1040;

pub const AXIS_LEFT: usize = 330;

pub const AXIS_WIDTH: usize = 640;

pub const AXIS_RIGHT: usize = AXIS_LEFT + AXIS_WIDTH;

// The lanes have so much on their left and on their right.
pub const MARGIN: usize = 4;

// On the left of the axis the name of a lane begins, the number of a record ends, and what it did begins; on the right the place in an order ends.
pub const NAME_X: usize = 10;

pub const NUMBER_X: usize = 54;

pub const RECORD_X: usize = 60;

pub const PLACE_X: usize = 1028;

// The first row begins here; above it stand the heading and the readings.
pub const TOP: usize = 92;

// The readings stand on this line, and their columns begin so far above the first row.
pub const TICK_Y: usize = 82;

pub const TICK: usize = 6;

// A digit of a reading is no wider, and two readings are so far apart at least.
pub const DIGIT: usize = 7;

pub const DIGITS_APART: usize = 12;

// How high a row is, where in it the bar begins, and on what line its words stand.
pub const ROW: usize = 22;

pub const BAR_TOP: usize = 6;

pub const BAR_HEIGHT: usize = 10;

pub const BASE: usize = 15;

// How wide a bar of one column is.
pub const LEAST_BAR: usize = 4;

// So far below the top of a row a label stands, which is between that row and the one above.
pub const LABEL_BASE: usize = 4;

// No picture of a run comes near to so many rows.
const MOST_ROWS: usize = 10_000;

// Of so many parts of a length the first few.
pub fn share(length: usize, few: usize, parts: usize) -> usize
    ensures { result ≡ share_of length few parts }
{
    let part = length.saturating_mul(few) / parts.max(1);
    part.min(length)
}

// Where a row begins.
pub fn row_top(row: usize) -> usize
    ensures { result ≡ top_of row }
{
    TOP + row.min(MOST_ROWS) * ROW
}

// Where a column stands, the last of which is given: the columns are evenly spread over the axis.
pub fn column_x(column: usize, last: usize) -> usize
    ensures unit { result ≡ unit_of column last }
    ensures within { result ≤ AXIS_RIGHT }
    ensures apart { KeepsApart last }
{
    AXIS_LEFT + share(AXIS_WIDTH, column, last)
}
