// The arrows as curves between bars, and the labels beside them.
use crate::geometry::{AXIS_RIGHT, BAR_HEIGHT, BAR_TOP, ROW, TOP, share};

// A bar in the units of the picture: from left to right, in the row that begins at the top.
#[derive(Clone, Copy)]
pub struct Span {
    pub left: usize,
    pub right: usize,
    pub top: usize,
}

#[derive(Clone, Copy)]
pub struct Point {
    pub x: usize,
    pub y: usize,
}

// From a point of one bar to a point of another, drawn towards two points on its way.
#[derive(Clone, Copy)]
pub struct Curve {
    pub from: Point,
    pub leaving: Point,
    pub entering: Point,
    pub to: Point,
}

// The arrows of a picture keep apart by their tracks, as far as there are so many.
const MOST_TRACKS: usize = 40;

// How far from the middle of a bar an arrow leaves or enters its end.
const ASIDE: usize = 3;

// How far an arrow goes on from the end of a bar, and comes from before the end of another, at least.
const LEAST_PULL: usize = 28;

// How far a curve swings out at most.
const MOST_SWING: usize = 36;

// The number halfway between two.
fn middle(a: usize, b: usize) -> usize {
    a / 2 + b / 2 + (a % 2 + b % 2) / 2
}

impl Span {
    fn middle_x(self) -> usize {
        middle(self.left, self.right)
    }

    fn middle_y(self) -> usize {
        self.top.saturating_add(BAR_TOP + BAR_HEIGHT / 2)
    }

    // Where an arrow of a track crosses the bar.
    fn track_x(self, track: usize, tracks: usize) -> usize {
        let tracks = tracks.clamp(1, MOST_TRACKS);
        let width = self.right.saturating_sub(self.left);
        let way = share(width, track % tracks + 1, tracks + 1);
        self.left.saturating_add(way)
    }
}

// Between bars of which one ends before the other begins.
fn across(from: Point, to: Point) -> Curve {
    let pull = (from.x.abs_diff(to.x) / 2).max(LEAST_PULL);
    let (leaving_x, entering_x) = if from.x < to.x {
        (from.x.saturating_add(pull), to.x.saturating_sub(pull))
    } else {
        (from.x.saturating_sub(pull), to.x.saturating_add(pull))
    };
    Curve {
        from,
        leaving: Point {
            x: leaving_x,
            y: from.y,
        },
        entering: Point {
            x: entering_x,
            y: to.y,
        },
        to,
    }
}

// Between bars that are there at one time, from the middle of the first to the edge of the second. It swings to the right where it goes
// down, and to the left where it goes up.
fn upright(first: Span, second: Span, from_x: usize, to_x: usize) -> Curve {
    let down = first.top < second.top;
    let edge = if down { BAR_TOP } else { BAR_TOP + BAR_HEIGHT };
    let (from_y, to_y) = (first.middle_y(), second.top.saturating_add(edge));
    let swing = (from_y.abs_diff(to_y).saturating_sub(ROW) / 4).min(MOST_SWING);
    let swung = |x: usize| {
        if down {
            x.saturating_add(swing)
        } else {
            x.saturating_sub(swing)
        }
    };
    let y = middle(from_y, to_y);
    Curve {
        from: Point {
            x: from_x,
            y: from_y,
        },
        leaving: Point {
            x: swung(from_x),
            y,
        },
        entering: Point { x: swung(to_x), y },
        to: Point { x: to_x, y: to_y },
    }
}

// To a bar that ends before the other begins: where it is near, from the middle of the one to the middle of the other.
fn backward(first: Span, second: Span) -> Curve {
    if first.left.saturating_sub(second.right) < 2 * LEAST_PULL {
        return upright(first, second, first.middle_x(), second.middle_x());
    }
    let from = Point {
        x: first.left,
        y: first.middle_y().saturating_add(ASIDE),
    };
    let to = Point {
        x: second.right,
        y: second.middle_y().saturating_add(ASIDE),
    };
    across(from, to)
}

fn forward(first: Span, second: Span) -> Curve {
    let from = Point {
        x: first.right,
        y: first.middle_y().saturating_sub(ASIDE),
    };
    let to = Point {
        x: second.left,
        y: second.middle_y().saturating_sub(ASIDE),
    };
    across(from, to)
}

// The curve of an arrow, which is one of so many. One to an earlier bar runs below one from there.
pub fn curve_of(first: Span, second: Span, track: usize, tracks: usize) -> Curve {
    if first.right < second.left {
        forward(first, second)
    } else if second.right < first.left {
        backward(first, second)
    } else {
        let both = Span {
            left: first.left.max(second.left),
            right: first.right.min(second.right),
            top: first.top,
        };
        let x = both.track_x(track, tracks);
        upright(first, second, x, x)
    }
}

// A character of a label is no wider.
const CHARACTER: usize = 6;

// So far to the right of its curve a label begins.
const BESIDE: usize = 7;

// A label stands above a row, counted from 0, and is so long.
#[derive(Clone, Copy)]
pub struct Label {
    pub x: usize,
    pub row: usize,
    pub length: usize,
    pub name: &'static str,
}

impl Label {
    // Beside the middle of the curve, but within the axis.
    pub fn beside(curve: Curve, name: &'static str) -> Label {
        let length = name.len().saturating_mul(CHARACTER);
        let chord = middle(curve.from.x, curve.to.x);
        let x = chord.max(middle(curve.leaving.x, curve.entering.x));
        let y = middle(curve.from.y, curve.to.y);
        Label {
            x: x.saturating_add(BESIDE)
                .min(AXIS_RIGHT.saturating_sub(length)),
            row: y.saturating_sub(TOP - ROW / 2) / ROW,
            length,
            name,
        }
    }

    fn end(self) -> usize {
        self.x.saturating_add(self.length)
    }

    fn hides(self, other: Label) -> bool {
        self.row == other.row && self.x < other.end() && other.x < self.end()
    }

    // Moved down, row by row, until it hides none of the others; from the last row it goes on at the first.
    pub fn settled(self, others: &[Label], rows: usize) -> Label {
        let mut label = self;
        for _ in 0..rows {
            if !others.iter().any(|other| label.hides(*other)) {
                return label;
            }
            label.row = if label.row < rows { label.row + 1 } else { 0 };
        }
        label
    }
}
