// The choices of bytes that are tried inside an erase: each of the first 32 bytes alone, all but each of these, 64 by a
// seed, the even ones, the odd ones, and in steps of 64 the lowest, from none on, and the highest, from all down.
use harness::tearing::Choice;

const STRIDE: usize = 64;

pub fn count(granule: usize) -> usize {
    130 + 2 * (granule / STRIDE)
}

pub fn choice_of(number: usize, granule: usize) -> Choice {
    if number < 32 {
        return Choice::Alone(number);
    }
    if number < 64 {
        return Choice::AllBut(number - 32);
    }
    if number < 128 {
        return Choice::Seeded((number - 64) as u64);
    }
    if number < 130 {
        return Choice::Every(number - 128);
    }
    stretch(number - 130, granule)
}

fn stretch(number: usize, granule: usize) -> Choice {
    let stretches = granule / STRIDE;
    if number < stretches {
        return Choice::Lowest(STRIDE * number);
    }
    if number - stretches < stretches {
        return Choice::Highest(granule - STRIDE * (number - stretches));
    }
    Choice::Lowest(0)
}
