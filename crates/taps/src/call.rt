// What is asked of a desk.

// How many taps a desk may hold.
pub const MOST_TAPS: usize = 256;
// The first time, in ms, that is too late: after four hours and a half.
pub const TIME_END: u32 = 1 << 24;

#[derive(Clone, Copy, PartialEq, Eq, Debug)]
pub enum Call {
    // A tap at a time in ms: which number, from 0, does it get?
    Tap(u32),
    // The last tap is taken back: how many are left?
    Back,
    // What does the best reading cost?
    Cost,
    // Which is the first best reading?
    Read,
}
