// Where a block and its neighbours stand, in cells of 8 by 8 luma samples.
ghost use Rattle.std.specs.Prelude.{true, ◌≡◌};
ghost use Rattle.records.specs.Tables as Tables;
ghost use Rattle.records.specs.Lent.{Placed};

// The block, the frame and the block's tile, as the caller counts them.
#[repr(C)]
#[derive(Clone, Copy)]
pub struct MvRefGeometry {
    pub mi_row: i32,
    pub mi_col: i32,
    pub mi_rows: i32,
    pub mi_cols: i32,
    pub mi_size: usize,
    pub mi_col_start: i32,
    pub mi_col_end: i32,
}

// Row 2 of document 01, for a call that is given a tile.
pub fn grid_ok(g: MvRefGeometry) -> bool
    ensures { result ≡ Tables.grid_ok g }
{
    base::between(1, 8192, g.mi_rows)
        & base::between(1, 8192, g.mi_cols)
        & (0 <= g.mi_row)
        & (g.mi_row < g.mi_rows)
        & (0 <= g.mi_col_start)
        & (g.mi_col_start <= g.mi_col)
        & (g.mi_col < g.mi_col_end)
        & (g.mi_col_end <= g.mi_cols)
}

pub(crate) fn inside(g: MvRefGeometry, row: i32, col: i32) -> bool
    ensures { result ≡ Tables.inside g row col }
{
    (0 <= row) & (row < g.mi_rows) & (g.mi_col_start <= col) & (col < g.mi_col_end)
}

pub(crate) fn cell_at(g: MvRefGeometry, row: i32, col: i32) -> usize
    requires { Placed g row col }
    ensures { result ≡ Tables.cell_at g row col }
{
    base::natural(row) * base::natural(g.mi_cols) + base::natural(col)
}

// The block's own cell.
pub fn own(g: MvRefGeometry) -> usize
    requires { Tables.grid_ok g ≡ true }
    ensures { result ≡ Tables.own g }
{
    cell_at(g, g.mi_row, g.mi_col)
}
