// Where each section is drawn, from the plan alone: a column by the longest way up to it, and a row by how the lines branch.
#![tactic(auto)]

use plan::view::Plan;

// The columns where a section stands and where it ends; it has no row until it is placed.
#[derive(Clone, Copy)]
struct Cell {
    column: u8,
    end: u8,
    row: Option<u8>,
}

// The cells are an array, as of the sections elsewhere: a layout asks for no memory. It holds no plan, so the plan's numbers need not stay lent as long as it is kept.
#[derive(Clone, Copy)]
pub struct Layout {
    cells: [Cell; 64],
    width: u8,
    height: u8,
}

// A layout, and the plan that it is made of.
#[derive(Clone, Copy)]
struct Placing<'a> {
    plan: Plan<'a>,
    layout: Layout,
}

// The sections beyond an end, on the left and on the right; an end that no point moves has only the one on the left. An end is a way and a section, as in `Plan::end`.
pub fn beyond(plan: Plan<'_>, up: bool, x: u16) -> [Option<u16>; 2] {
    let end = plan.end(up, x);
    let left = Some(end.on_left).filter(|y| *y < plan.sections());
    let right = Some(end.on_right).filter(|y| end.moves && *y < plan.sections());
    [left, right]
}

// How straight on it is from a section to one beyond: most so where no point moves the end, and then on the left.
// This and what follows ask the plan and no cells: methods of `Plan` can stand only in its crate, which draws nothing.
fn weight(plan: Plan<'_>, up: bool, x: u16, y: u16) -> u8 {
    let [left, _] = beyond(plan, up, x);
    if !plan.end(up, x).moves {
        4
    } else if left == Some(y) {
        1
    } else {
        0
    }
}

fn straight(plan: Plan<'_>, up: bool, x: u16, y: u16) -> u8 {
    weight(plan, up, x, y).saturating_add(weight(plan, !up, y, x))
}

// The section that goes on straightest beyond an end.
fn main_beyond(plan: Plan<'_>, up: bool, x: u16) -> Option<u16> {
    match beyond(plan, up, x) {
        [Some(a), Some(b)] if straight(plan, up, x, a) < straight(plan, up, x, b) => Some(b),
        [left, right] => left.or(right),
    }
}

// The next section of the same line: each is the other's straightest.
fn next_in_line(plan: Plan<'_>, up: bool, x: u16) -> Option<u16> {
    main_beyond(plan, up, x).filter(|y| main_beyond(plan, !up, *y) == Some(x))
}

// The last section of the line that begins here; in a ring this stops after so many as there can be.
fn line_end(plan: Plan<'_>, x: u16) -> u16 {
    (0..64).fold(x, |last, _| next_in_line(plan, true, last).unwrap_or(last))
}

impl Layout {
    pub fn new(plan: Plan<'_>) -> Layout {
        let unplaced = Cell {
            column: 0,
            end: 1,
            row: None,
        };
        let layout = Layout {
            cells: [unplaced; 64],
            width: 1,
            height: 0,
        };
        let mut placing = Placing { plan, layout };
        placing.spread();
        placing.draw_near();
        placing.set_ends();
        placing.place_all();
        placing.layout
    }

    // Each section has a column, and a row once the layout is made; a number that is no section gets 0, since what draws it has no other place for it.
    pub fn column(&self, x: u16) -> u8 {
        self.cells.get(usize::from(x)).map_or(0, |cell| cell.column)
    }

    pub fn row(&self, x: u16) -> u8 {
        self.placed(x).unwrap_or(0)
    }

    // How many rows there are.
    pub fn height(&self) -> u8 {
        self.height
    }

    // The column where a section ends: where the first one beyond begins, or the next one; a number that is no section gets 1.
    pub fn end(&self, x: u16) -> u8 {
        self.cells.get(usize::from(x)).map_or(1, |cell| cell.end)
    }

    // The column where the last section ends.
    pub fn width(&self) -> u8 {
        self.width
    }

    // The row of a section that has one already; in a ring the one below may have none yet.
    fn placed(&self, x: u16) -> Option<u8> {
        self.cells.get(usize::from(x))?.row
    }
}

impl Placing<'_> {
    fn first_beyond(&self, x: u16) -> Option<u8> {
        beyond(self.plan, true, x)
            .into_iter()
            .flatten()
            .map(|y| self.layout.column(y))
            .min()
    }

    // A section stands to the right of each below it; in a ring this stops at the number of sections.
    fn spread(&mut self) {
        for _ in 0..self.plan.sections() {
            for x in 0..self.plan.sections() {
                for y in beyond(self.plan, true, x).into_iter().flatten() {
                    self.push(x, y);
                }
            }
        }
    }

    fn push(&mut self, x: u16, y: u16) {
        let next = self.layout.column(x).saturating_add(1);
        if self.layout.column(y) < next && u16::from(next) < self.plan.sections() {
            self.set_column(y, next);
        }
    }

    fn set_column(&mut self, x: u16, column: u8) {
        if let Some(cell) = self.layout.cells.get_mut(usize::from(x)) {
            cell.column = column;
        }
    }

    // A section with none below it stands close to the one above it.
    fn draw_near(&mut self) {
        for x in 0..self.plan.sections() {
            let alone = main_beyond(self.plan, false, x).is_none();
            let before = self.first_beyond(x).and_then(|first| first.checked_sub(1));
            if let Some(column) = before.filter(|_| alone) {
                self.set_column(x, column);
            }
        }
    }

    // Once the columns stand.
    fn set_ends(&mut self) {
        for x in 0..self.plan.sections() {
            let least = self.layout.column(x).saturating_add(1);
            let end = self.first_beyond(x).unwrap_or(least).max(least);
            if let Some(cell) = self.layout.cells.get_mut(usize::from(x)) {
                cell.end = end;
            }
            self.layout.width = self.layout.width.max(end);
        }
    }

    fn place_all(&mut self) {
        for column in 0..64 {
            for x in 0..self.plan.sections() {
                if self.layout.column(x) == column {
                    self.place(x);
                }
            }
        }
    }

    // A section goes on in its line's row; where a line begins it gets a row beside the one that it leaves, or a new one.
    fn place(&mut self, x: u16) {
        let row = match next_in_line(self.plan, false, x).and_then(|y| self.layout.placed(y)) {
            Some(row) => row,
            None => self.new_row(x),
        };
        if let Some(cell) = self.layout.cells.get_mut(usize::from(x)) {
            cell.row = Some(row);
        }
    }

    // What leaves to the left goes above, seen on the way up, and what leaves to the right below.
    fn new_row(&mut self, x: u16) -> u8 {
        let Some(y) = main_beyond(self.plan, false, x) else {
            return self.insert(self.layout.height);
        };
        let Some(row) = self.layout.placed(y) else {
            return self.insert(self.layout.height);
        };
        let [left, _] = beyond(self.plan, true, y);
        let above = left == Some(x);
        let beside = if above {
            row.checked_sub(1)
        } else {
            row.checked_add(1)
        };
        match beside.filter(|beside| self.has_room(*beside, x)) {
            Some(beside) => beside,
            None if above => self.insert(row),
            None => self.insert(row.saturating_add(1)),
        }
    }

    // Is there such a row, and is it empty where the line goes that begins here?
    fn has_room(&self, row: u8, x: u16) -> bool {
        let to = self.layout.column(line_end(self.plan, x));
        row < self.layout.height && self.is_free(row, self.layout.column(x), to)
    }

    // Is a row empty between two columns?
    fn is_free(&self, row: u8, from: u8, to: u8) -> bool {
        (0..self.plan.sections()).all(|x| {
            self.layout.placed(x) != Some(row)
                || self.layout.end(x) < from
                || self.layout.column(x) > to.saturating_add(1)
        })
    }

    // A new row; those from there on move down.
    fn insert(&mut self, row: u8) -> u8 {
        for cell in &mut self.layout.cells {
            if let Some(old) = cell.row.filter(|old| *old >= row) {
                cell.row = Some(old.saturating_add(1));
            }
        }
        self.layout.height = self.layout.height.saturating_add(1);
        row
    }
}
