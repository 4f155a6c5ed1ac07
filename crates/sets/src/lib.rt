// The sets of recordings, by the numbers that they are stored with: which is test, which are training, and which is retired; and the last bytes of their entries: which edition of the leak rule one names, and which may stand beside which set.
// Stays two numbers: an entry can be stored with any set and any last byte, and refusal 14 speaks of just those (`is_bad_entry`).
#![tactic(auto)]

ghost use Rattle.std.specs.Prelude.{◌≡◌};
ghost use Rattle.sets.specs.Sets.{is_test, is_retired, is_training};
ghost use Rattle.sets.specs.Editions.{is_second, is_wrong_last};

// Whether a recording of this set is a test recording.
pub fn is_test(set: u32) -> bool
    ensures { result ≡ is_test set }
{
    set == 1
}

// Whether the set is the one that is retired.
pub fn is_retired(set: u32) -> bool
    ensures { result ≡ is_retired set }
{
    set == 2
}

// Whether a recording of this set is a training recording.
pub fn is_training(set: u32) -> bool
    ensures { result ≡ is_training set }
{
    (set == 0) | (set == 2)
}

// Whether a recording with this last byte goes by the second edition of the leak rule.
pub fn is_second(last: u32) -> bool
    ensures { result ≡ is_second last }
{
    last == 1
}

// Whether this last byte may not stand beside this set.
pub fn is_wrong_last(set: u32, last: u32) -> bool
    ensures { result ≡ is_wrong_last set last }
{
    !((last == 0) | ((set == 1) & (last == 1)))
}
