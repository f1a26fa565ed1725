// Where a search looks: a block whose geometry was judged, with the eight places of its size.
ghost use Rattle.std.specs.Prelude.{true, [], ◌≡◌, ◌≤◌, ◌<◌, get_or};
ghost use Rattle.places.specs.Places as Places;
ghost use Rattle.records.specs.Tables as Tables;

use crate::geometry::{MvRefGeometry, cell_at, inside, own};

// Built where the geometry is judged, so that no function that takes it asks again.
#[derive(Clone, Copy)]
pub struct Site {
    pub geometry: MvRefGeometry,
    pub near: [[i8; 2]; 8],
    ghost grid: { Tables.grid_ok geometry ≡ true },
    ghost size: { geometry.mi_size ≤ 12 },
    ghost places: { near ≡ get_or Places.places geometry.mi_size [] },
}

impl Site {
    pub fn new(geometry: MvRefGeometry) -> Site
        requires grid { Tables.grid_ok geometry ≡ true }
        requires size { geometry.mi_size ≤ 12 }
        ensures { result.geometry ≡ geometry }
    {
        let near = places::places_of(geometry.mi_size);
        Site { geometry, near }
    }

    // The block's own cell.
    pub fn own(self) -> usize
        ensures { result ≡ Tables.own self.geometry }
    {
        own(self.geometry)
    }

    // The cell of a row and a column, if it is inside.
    fn spot_at(self, row: i32, col: i32) -> Option<usize>
        ensures { result ≡ Tables.spot_at self.geometry row col }
    {
        if inside(self.geometry, row, col) {
            Some(cell_at(self.geometry, row, col))
        } else {
            None
        }
    }

    // Place k of the block, counted from 0.
    pub fn spot(self, k: usize) -> Option<usize>
        requires { k < 8 }
        ensures { result ≡ Tables.spot self.geometry k }
    {
        let row = self.geometry.mi_row + places::step_of(self.near, k, 0);
        let col = self.geometry.mi_col + places::step_of(self.near, k, 1);
        self.spot_at(row, col)
    }
}
