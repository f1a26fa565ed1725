// Document 01, rows 7 and 8: tables that are long enough, and legal records.
ghost use Rattle.std.specs.Prelude.{true, ◌≡◌, ◌+◌, ◌*◌, ◌≤◌, ◌<◌, length};
ghost use Rattle.records.specs.Tables as Tables;
ghost use Rattle.records.specs.Records as Records;
ghost use Rattle.records.specs.Seen.{seen, has_prev};
ghost use Rattle.records.specs.Lent.{cells, PairRoom, Room, PrevRoom, prev_long_enough, legal_places, legal_prev};

use crate::geometry::MvRefGeometry;
use crate::site::Site;
use crate::tables::{LentTables, Pairs, frame_at};

// The previous tables are measured only where they are used.
fn prev_long_enough(prev: Option<Pairs>, n: usize) -> bool
    requires { n ≤ 67108864 }
    ensures { result ≡ prev_long_enough prev.entry n }
{
    match prev {
        None => true,
        Some(pairs) => (2 * n <= pairs.frames.len()) & (4 * n <= pairs.mvs.len()),
    }
}

// Row 7.
pub fn long_enough(tables: LentTables, g: MvRefGeometry) -> bool
    requires { Tables.grid_ok g ≡ true }
    ensures { result ≡ Tables.long_enough (seen tables.entry) g (has_prev tables.entry) }
{
    let n = base::natural(g.mi_rows) * base::natural(g.mi_cols);
    (n <= tables.modes.len())
        & (2 * n <= tables.frames.len())
        & (4 * n <= tables.mvs.len())
        & (16 * n <= tables.subs.len())
        & prev_long_enough(tables.prev, n)
}

fn legal_part(x: i16) -> bool
    ensures { result ≡ Records.legal_part x }
{
    (-32767 <= x) & (x <= 32767)
}

// n components from a place on. It looks at all of them: a loop that leaves early can't be vectorised.
fn legal_parts(parts: &[i16], from: usize, n: usize) -> bool
    requires { from + n ≤ length parts.now }
    ensures { result ≡ Records.legal_parts parts.now from n }
{
    let mut ok = true;
    for j in 0..n {
        ok = ok & legal_part(parts[from + j]);
    }
    ok
}

fn legal_frame(pairs: Pairs, i: usize, list: usize) -> bool
    requires { 2 * i + list < length pairs.frames.now }
    ensures { result ≡ Records.legal_frame (Tables.frame_at pairs.entry.frames.now i list) }
{
    base::between(-1, 3, frame_at(pairs.frames, i, list))
}

// What a previous record has.
fn legal_pair(pairs: Pairs, i: usize) -> bool
    requires { PairRoom (i + 1) pairs }
    ensures { result ≡ Records.legal_pair pairs.entry.frames.now pairs.entry.mvs.now i }
{
    legal_frame(pairs, i, 0) & legal_frame(pairs, i, 1) & legal_parts(pairs.mvs, 4 * i, 4)
}

// A record of the frame, judged whole.
fn legal_record(tables: LentTables, i: usize) -> bool
    requires { Room (i + 1) tables }
    ensures { result ≡ Records.legal_record (seen tables.entry) i }
{
    (tables.modes[i] <= 13) & legal_pair(tables.pairs(), i) & legal_parts(tables.subs, 16 * i, 16)
}

fn legal_place(tables: LentTables, site: Site, k: usize) -> bool
    requires place { k < 8 }
    requires room { Room (cells site.geometry) tables }
    ensures { result ≡ Records.legal_spot (seen tables.entry) (Tables.spot site.geometry k) }
{
    match site.spot(k) {
        None => true,
        Some(i) => legal_record(tables, i),
    }
}

// All eight places, also those that the scan will not reach.
fn legal_places(tables: LentTables, site: Site) -> bool
    requires { Room (cells site.geometry) tables }
    ensures { result ≡ legal_places (seen tables.entry) site.geometry 8 }
{
    let mut ok = true;
    for k in 0..8 {
        ok = ok & legal_place(tables, site, k);
    }
    ok
}

fn legal_prev(prev: Option<Pairs>, site: Site) -> bool
    requires { PrevRoom (cells site.geometry) prev }
    ensures { result ≡ legal_prev prev.entry (Tables.own site.geometry) }
{
    match prev {
        None => true,
        Some(pairs) => legal_pair(pairs, site.own()),
    }
}

// Row 8.
pub fn legal_records(tables: LentTables, site: Site) -> bool
    requires { Tables.long_enough (seen tables) site.geometry (has_prev tables) ≡ true }
    ensures { result ≡ Records.legal_records (seen tables.entry) site.geometry (has_prev tables.entry) }
{
    legal_places(tables, site) & legal_prev(tables.prev, site)
}
