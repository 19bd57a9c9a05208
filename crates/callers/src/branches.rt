// A node's part of a branch, a branch, and all branches of a tree, in normal form. Assumes nothing.
use super::told;
use affine::identity;
use normal::{Body, Choice, Half, Mode, Pen, Taken, Walk};
use std::test::Fail;

// A case of the constants 7 and 9. It stands alone: these steps ask for a tree at a place, and not for a whole sheet.
const CASE: [u8; 48] = [
    6, 0, 0, 0, 0, 0, 0, 0, 2, 0, 0, 0, 0, 0, 0, 0, 1, 0, 0, 0, 0, 0, 0, 0, 7, 0, 0, 0, 0, 0, 0, 0,
    1, 0, 0, 0, 0, 0, 0, 0, 9, 0, 0, 0, 0, 0, 0, 0,
];

// A dependence of no rows and columns over one of them.
const OVER_SEVEN: [u8; 40] = [
    8, 0, 0, 0, 0, 0, 0, 0, 0, 0, 0, 0, 0, 0, 0, 0, 0, 0, 0, 0, 0, 0, 0, 0, 1, 0, 0, 0, 0, 0, 0, 0,
    7, 0, 0, 0, 0, 0, 0, 0,
];

const OVER_NINE: [u8; 40] = [
    8, 0, 0, 0, 0, 0, 0, 0, 0, 0, 0, 0, 0, 0, 0, 0, 0, 0, 0, 0, 0, 0, 0, 0, 1, 0, 0, 0, 0, 0, 0, 0,
    9, 0, 0, 0, 0, 0, 0, 0,
];

const STORING: Walk<'static> = Walk {
    sheet: &CASE,
    half: Half::Tree,
    mode: Mode::Store,
};

const PEN: Pen = Pen {
    to: 0,
    things: 0,
    deep: 0,
};

#[test]
fn a_leaf_below_three_nodes() -> Result<(), Fail> {
    let mut out = [255; 40];
    let pen = STORING.visit(16, &identity(0), 3, &mut out, PEN);
    told("the pen", (pen.to, pen.things, pen.deep) == (40, 2, 5))?;
    told("the bytes", out == OVER_SEVEN)
}

#[test]
fn the_second_branch() -> Result<(), Fail> {
    let mut out = [255; 40];
    let choice = Choice { number: 1, of: 2 };
    let pen = STORING.follow(0, 3, choice, &identity(0), 0, &mut out, PEN);
    told("the pen", (pen.to, pen.things, pen.deep) == (40, 2, 2))?;
    told("the bytes", out == OVER_NINE)
}

#[test]
fn both_branches() -> Result<(), Fail> {
    let body = Body {
        sheet: &CASE,
        dimension: 0,
        mode: Mode::Measure,
    };
    let none = Taken {
        nodes: 0,
        bytes: 0,
        limits: 0,
        deep: 0,
    };
    let all = body.turn(0, 3, 2, &mut [], none);
    told(
        "both",
        (all.nodes, all.bytes, all.limits, all.deep) == (6, 128, 0, 2),
    )
}
