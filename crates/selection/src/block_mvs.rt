// A block's vectors as they travel: "one value, list, then sub-block, then row and column"; row and column make a vector.
ghost use Rattle.std.specs.Prelude.{◌≡◌, ◌<◌};
ghost use Rattle.selection.specs.BlockMvs as BlockMvs;

use base::Mv;

fn is_legal_list(m: [[Mv; 4]; 2], list: usize) -> bool
    requires { list < 2 }
    ensures { result ≡ BlockMvs.legal_list m list }
{
    let a = base::is_legal_mv(m[list][0]);
    let b = base::is_legal_mv(m[list][1]);
    let c = base::is_legal_mv(m[list][2]);
    let d = base::is_legal_mv(m[list][3]);
    a & b & c & d
}

// Of both lists: all are handed in by value.
pub fn is_legal_block(m: [[Mv; 4]; 2]) -> bool
    ensures { result ≡ BlockMvs.legal_block m }
{
    is_legal_list(m, 0) & is_legal_list(m, 1)
}
