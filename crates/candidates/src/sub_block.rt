// Which sub-block's vector a place offers.
ghost use Rattle.std.specs.Prelude.{◌≡◌, true, pos, negsuc};
ghost use Rattle.base.specs.Number.{between};
ghost use Rattle.candidates.specs.Scan.{Numbered, column};

const IDX_N_COLUMN_TO_SUBBLOCK: [[u8; 2]; 4] = [[1, 2], [1, 3], [3, 2], [3, 3]];

fn column_of(offset: i32) -> usize
    ensures { result ≡ column offset }
{
    if offset == 0 { 1 } else { 0 }
}

// "for sub-block -1 number 3, else by IDX_N_COLUMN_TO_SUBBLOCK, second column when the place's column offset is 0"
pub(crate) fn sub_number(block: i32, offset: i32) -> usize
    requires { between (negsuc 0) (pos 3) block ≡ true }
    ensures { Numbered block offset result }
{
    if block < 0 {
        return 3;
    }
    let b = base::natural(block);
    let c = column_of(offset);
    usize::from(IDX_N_COLUMN_TO_SUBBLOCK[b][c])
}
