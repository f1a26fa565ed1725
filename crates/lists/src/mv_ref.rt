// The standard's 6.5: the candidate search with its clamp, the best vectors.
ghost use Rattle.std.specs.Prelude.{true, ◌≡◌, ◌≤◌, ◌&&◌, leb, ltb, nat_abs, IfOk};
ghost use Rattle.base.specs.Answer.{answer};
ghost use Rattle.base.specs.Refused.{told};
ghost use Rattle.base.specs.Vector as Vector;
ghost use Rattle.records.specs.Seen.{seen, has_prev};
ghost use Rattle.records.specs.Tables as Tables;
ghost use Rattle.lists.specs.MvRef as MvRef;
ghost use Rattle.lists.specs.Rows as Rows;

use base::{Eighth, Mv, Refusal};
use candidates::Found;
use clamping::Axis;
use records::{LentTables, MvRefGeometry, Site};

// What a search found as C takes it, two candidates and the context of the neighbours' modes: a refusal's number beside zeros.
#[repr(C)]
#[derive(Clone, Copy, Debug, PartialEq, Eq)]
pub struct MvRefs {
    pub answer: u32,
    pub first: Mv,
    pub second: Mv,
    pub context: u8,
}

impl From<Result<Found, Refusal>> for MvRefs {
    ghost from_gives = { λ r c. c ≡ MvRef.searched r };

    fn from(found: Result<Found, Refusal>) -> MvRefs {
        match found {
            Ok(found) => MvRefs {
                answer: 0,
                first: found.first,
                second: found.second,
                context: found.context,
            },
            Err(refusal) => MvRefs {
                answer: refusal.number(),
                first: Mv::default(),
                second: Mv::default(),
                context: 0,
            },
        }
    }
}

// The nearest vector and the near one.
#[derive(Clone, Copy, Debug, PartialEq, Eq)]
pub struct Best {
    pub nearest: Mv,
    pub near: Mv,
}

// Two vectors as C takes them, the nearest first: a refusal's number beside zeros.
#[repr(C)]
#[derive(Clone, Copy, Debug, PartialEq, Eq)]
pub struct MvPair {
    pub answer: u32,
    pub first: Mv,
    pub second: Mv,
}

impl From<Result<Best, Refusal>> for MvPair {
    ghost from_gives = { λ r c. c ≡ MvRef.best_pair r };

    fn from(best: Result<Best, Refusal>) -> MvPair {
        match best {
            Ok(best) => MvPair {
                answer: 0,
                first: best.nearest,
                second: best.near,
            },
            Err(refusal) => MvPair {
                answer: refusal.number(),
                first: Mv::default(),
                second: Mv::default(),
            },
        }
    }
}

// ---- the clamp, 6.5.3 to 6.5.5

pub fn clamp_ref(border: i32, g: MvRefGeometry, v: Mv) -> Mv
    requires border { nat_abs border ≤ 1248 }
    requires size { g.mi_size ≤ 12 }
    requires grid { Tables.grid_ok g ≡ true }
    ensures { result ≡ MvRef.clamp_ref border g v }
{
    let down = Axis {
        total: g.mi_rows,
        length: clamping::num_8x8_high(g.mi_size),
        first: g.mi_row,
    };
    let across = Axis {
        total: g.mi_cols,
        length: clamping::num_8x8_wide(g.mi_size),
        first: g.mi_col,
    };
    let row = down.clamp_part(border, v.row);
    let col = across.clamp_part(border, v.col);
    Mv { row, col }
}

// ---- what the search asks of a call

// Rows 1, 2 and 3. `block_ok` says what row 1 asks of the sub-block.
fn call_allowed(g: MvRefGeometry, target: i32, block_ok: bool) -> Result<(), Refusal>
    ensures { told result ≡ answer (Rows.call_rows (leb g.mi_size 12 && block_ok) g target) }
{
    Refusal::Block.unless((g.mi_size <= 12) & block_ok)?;
    Refusal::Grid.unless(records::grid_ok(g))?;
    Refusal::Target.unless(base::between(1, 3, target))
}

// Rows 7 and 8: records are judged only in tables that are long enough.
fn tables_allowed(tables: LentTables, site: Site) -> Result<(), Refusal>
    ensures { told result ≡ answer (Rows.table_rows (seen tables.entry) site.geometry (has_prev tables.entry)) }
{
    Refusal::Short.unless(records::long_enough(tables, site.geometry))?;
    Refusal::Record.unless(records::legal_records(tables, site))
}

// All rows of the search: the tables are asked only where the call is in order. An accepted call is told where to look.
pub fn search_allowed(
    tables: LentTables,
    g: MvRefGeometry,
    target: i32,
    block_ok: bool,
) -> Result<Site, Refusal>
    ensures told { told result ≡ answer (Rows.shared_rows (seen tables.entry) g target (leb g.mi_size 12 && block_ok) (has_prev tables.entry)) }
    ensures site { IfOk result (λ s. s.geometry ≡ g) }
{
    call_allowed(g, target, block_ok)?;
    let site = Site::new(g);
    tables_allowed(tables, site)?;
    Ok(site)
}

// ---- find_mv_refs, 6.5.1

pub fn find_mv_refs(
    tables: LentTables,
    geometry: MvRefGeometry,
    target: i32,
    block: i32,
    sign_bias: [bool; 4],
) -> Result<Found, Refusal>
    ensures { MvRef.searched result
        ≡ MvRef.find_mv_refs (seen tables.entry) geometry target block sign_bias (has_prev tables.entry) }
{
    let block_ok = base::between(-1, 3, block);
    let site = search_allowed(tables, geometry, target, block_ok)?;
    let found = candidates::search(tables, site, target, block, sign_bias);
    let first = clamp_ref(128, geometry, found.first);
    let second = clamp_ref(128, geometry, found.second);
    Ok(Found {
        first,
        second,
        context: found.context,
    })
}

// ---- find_best_ref_mvs, 6.5.12

// "moves odd components one towards zero"
fn evened(x: Eighth) -> Eighth
    requires { Vector.legal x ≡ true }
    ensures { result ≡ Vector.eighth (MvRef.evened x.0) }
{
    Eighth(x.0 / 2 * 2)
}

// The standard's use_mv_hp: absolutely below 64.
fn is_near(x: Eighth) -> bool
    ensures { result ≡ ltb (nat_abs x.0) 64 }
{
    base::between(-63, 63, x.0)
}

fn lowered(allowed: bool, v: Mv) -> Mv
    requires { Vector.legal_mv v ≡ true }
    ensures { result ≡ MvRef.lowered allowed v }
{
    if allowed & is_near(v.row) & is_near(v.col) {
        return v;
    }
    Mv {
        row: evened(v.row),
        col: evened(v.col),
    }
}

// Rows 1, 2 and 9.
fn best_allowed(g: MvRefGeometry, first: Mv, second: Mv) -> Result<(), Refusal>
    ensures { told result ≡ answer (MvRef.best_rows g first second) }
{
    Refusal::Block.unless(g.mi_size <= 12)?;
    Refusal::Grid.unless(records::grid_ok(g))?;
    Refusal::Vector.unless(base::is_legal_mv(first) & base::is_legal_mv(second))
}

pub fn find_best_ref_mvs(
    geometry: MvRefGeometry,
    first: Mv,
    second: Mv,
    high_precision: bool,
) -> Result<Best, Refusal>
    ensures { MvRef.best_pair result ≡ MvRef.best_mvs geometry first second high_precision }
{
    best_allowed(geometry, first, second)?;
    let nearest = clamp_ref(1248, geometry, lowered(high_precision, first));
    let near = clamp_ref(1248, geometry, lowered(high_precision, second));
    Ok(Best { nearest, near })
}
