// The constant tables of the search, as the standard has them.
ghost use Rattle.std.specs.Prelude.{◌≡◌, ◌<◌, ◌≤◌, [], pos, get_or};
ghost use Rattle.places.specs.Places as Places;
ghost use Rattle.places.specs.Places.{Counted};

// mv_ref_blocks: eight places for each of the thirteen block sizes, row before column.
const MV_REF_BLOCKS: [[[i8; 2]; 8]; 13] = [
    [
        [-1, 0],
        [0, -1],
        [-1, -1],
        [-2, 0],
        [0, -2],
        [-2, -1],
        [-1, -2],
        [-2, -2],
    ],
    [
        [-1, 0],
        [0, -1],
        [-1, -1],
        [-2, 0],
        [0, -2],
        [-2, -1],
        [-1, -2],
        [-2, -2],
    ],
    [
        [-1, 0],
        [0, -1],
        [-1, -1],
        [-2, 0],
        [0, -2],
        [-2, -1],
        [-1, -2],
        [-2, -2],
    ],
    [
        [-1, 0],
        [0, -1],
        [-1, -1],
        [-2, 0],
        [0, -2],
        [-2, -1],
        [-1, -2],
        [-2, -2],
    ],
    [
        [0, -1],
        [-1, 0],
        [1, -1],
        [-1, -1],
        [0, -2],
        [-2, 0],
        [-2, -1],
        [-1, -2],
    ],
    [
        [-1, 0],
        [0, -1],
        [-1, 1],
        [-1, -1],
        [-2, 0],
        [0, -2],
        [-1, -2],
        [-2, -1],
    ],
    [
        [-1, 0],
        [0, -1],
        [-1, 1],
        [1, -1],
        [-1, -1],
        [-3, 0],
        [0, -3],
        [-3, -3],
    ],
    [
        [0, -1],
        [-1, 0],
        [2, -1],
        [-1, -1],
        [-1, 1],
        [0, -3],
        [-3, 0],
        [-3, -3],
    ],
    [
        [-1, 0],
        [0, -1],
        [-1, 2],
        [-1, -1],
        [1, -1],
        [-3, 0],
        [0, -3],
        [-3, -3],
    ],
    [
        [-1, 1],
        [1, -1],
        [-1, 2],
        [2, -1],
        [-1, -1],
        [-3, 0],
        [0, -3],
        [-3, -3],
    ],
    [
        [0, -1],
        [-1, 0],
        [4, -1],
        [-1, 2],
        [-1, -1],
        [0, -3],
        [-3, 0],
        [2, -1],
    ],
    [
        [-1, 0],
        [0, -1],
        [-1, 4],
        [2, -1],
        [-1, -1],
        [-3, 0],
        [0, -3],
        [-1, 2],
    ],
    [
        [-1, 3],
        [3, -1],
        [-1, 4],
        [4, -1],
        [-1, -1],
        [-1, 0],
        [0, -1],
        [-1, 6],
    ],
];

// mode_2_counter and counter_to_context.
const MODE_2_COUNTER: [u8; 14] = [9, 9, 9, 9, 9, 9, 9, 9, 9, 9, 0, 0, 3, 1];

const COUNTER_TO_CONTEXT: [u8; 19] = [2, 3, 4, 1, 3, 9, 0, 9, 9, 5, 5, 9, 5, 9, 9, 9, 9, 9, 6];

// The places of a size, fetched once for each search: a table that is indexed is built anew each time.
pub fn places_of(size: usize) -> [[i8; 2]; 8]
    requires { size ≤ 12 }
    ensures { result ≡ get_or Places.places size [] }
{
    MV_REF_BLOCKS[size]
}

pub fn step_of(near: [[i8; 2]; 8], k: usize, part: usize) -> i32
    requires place { k < 8 }
    requires part { part < 2 }
    ensures { result ≡ get_or (get_or near k []) part (pos 0) }
{
    i32::from(near[k][part])
}

pub fn counter_of(mode: u8) -> usize
    ensures { Counted mode result }
{
    if mode < 14 {
        usize::from(MODE_2_COUNTER[usize::from(mode)])
    } else {
        0
    }
}

pub fn context_of(counter: usize) -> u8
    requires { counter ≤ 18 }
    ensures { result ≡ get_or Places.contexts counter 0 }
{
    COUNTER_TO_CONTEXT[counter]
}
