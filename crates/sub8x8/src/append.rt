// The standard's 6.5.14: append_sub8x8_mvs.
ghost use Rattle.std.specs.Prelude.{[], ◌∷◌, ◌≡◌, IfOk};
ghost use Rattle.base.specs.Answer.{answer};
ghost use Rattle.base.specs.Refused.{told};
ghost use Rattle.records.specs.Seen.{seen, has_prev};
ghost use Rattle.candidates.specs.Offers as Offers;
ghost use Rattle.lists.specs.MvRef as MvRef;

use base::{Mv, Refusal};
use candidates::Held;
use lists::Best;
use records::{LentTables, MvRefGeometry, Site};

fn is_legal_four(m: [Mv; 4]) -> bool
    ensures { result ≡ MvRef.legal_four m }
{
    let a = base::is_legal_mv(m[0]);
    let b = base::is_legal_mv(m[1]);
    let c = base::is_legal_mv(m[2]);
    let d = base::is_legal_mv(m[3]);
    a & b & c & d
}

// The search's pair, offered after what is held.
fn offered(h: Held, first: Mv, second: Mv) -> Held
    ensures { result ≡ Offers.offers h (first ∷ second ∷ []) }
{
    h.add(first).add(second)
}

// "1 and 2 take block vector 0 first, 3 takes block vector 2, then 1, then 0"
fn before(block: usize, m: [Mv; 4]) -> Held
    ensures { result ≡ Offers.offers Offers.none (MvRef.before block m []) }
{
    let none = Held::default();
    if block <= 2 {
        return none.add(m[0]);
    }
    let two = none.add(m[2]);
    let one = two.add(m[1]);
    one.add(m[0])
}

fn sub_list(block: usize, m: [Mv; 4], first: Mv, second: Mv) -> Held
    ensures { result ≡ MvRef.sub_list block m first second }
{
    if block == 0 {
        return Held {
            count: 2,
            first,
            second,
        };
    }
    offered(before(block, m), first, second)
}

// The rows of the search, then row 9.
fn append_allowed(
    tables: LentTables,
    g: MvRefGeometry,
    block: usize,
    target: i32,
    m: [Mv; 4],
) -> Result<Site, Refusal>
    ensures told { told result ≡ answer (MvRef.append_rows (seen tables.entry) g target block m (has_prev tables.entry)) }
    ensures site { IfOk result (λ s. s.geometry ≡ g) }
{
    let site = lists::search_allowed(tables, g, target, block <= 3)?;
    Refusal::Vector.unless(is_legal_four(m))?;
    Ok(site)
}

pub fn append_sub8x8_mvs(
    tables: LentTables,
    geometry: MvRefGeometry,
    block: usize,
    target: i32,
    block_mvs: [Mv; 4],
    sign_bias: [bool; 4],
) -> Result<Best, Refusal>
    ensures { MvRef.best_pair result
        ≡ MvRef.append_mvs (seen tables.entry) geometry target block block_mvs sign_bias (has_prev tables.entry) }
{
    let site = append_allowed(tables, geometry, block, target, block_mvs)?;
    let found = candidates::search(tables, site, target, block as i32, sign_bias);
    let first = lists::clamp_ref(128, geometry, found.first);
    let second = lists::clamp_ref(128, geometry, found.second);
    let list = sub_list(block, block_mvs, first, second);
    let nearest = list.first;
    let near = list.second;
    Ok(Best { nearest, near })
}
