// Eight taps made ready for unsigned sums.
ghost use Rattle.taps.specs.Eight.{Raised};
ghost use Rattle.taps.specs.Taps.{tap};

// A row of the table, each tap with 24 added, so that none is below zero.
#[derive(Clone, Copy)]
pub struct Taps {
    pub filter: usize,
    pub phase: usize,
    pub t0: u16,
    pub t1: u16,
    pub t2: u16,
    pub t3: u16,
    pub t4: u16,
    pub t5: u16,
    pub t6: u16,
    pub t7: u16,
    pub ghost tap0: { Raised t0 (tap filter phase 0) },
    pub ghost tap1: { Raised t1 (tap filter phase 1) },
    pub ghost tap2: { Raised t2 (tap filter phase 2) },
    pub ghost tap3: { Raised t3 (tap filter phase 3) },
    pub ghost tap4: { Raised t4 (tap filter phase 4) },
    pub ghost tap5: { Raised t5 (tap filter phase 5) },
    pub ghost tap6: { Raised t6 (tap filter phase 6) },
    pub ghost tap7: { Raised t7 (tap filter phase 7) },
}
