// Sets of numbers below 64, each in one word: k is in the set where bit k is set. The index of one bit counts modulo 64, so no function asks anything.

#![tactic(auto)]

ghost use Rattle.std.specs.Prelude.{◌≡◌, ◌%◌};
ghost use Rattle.psl.specs.Booleans.{bit};
ghost use Rattle.psl.specs.Tells.{Tells};
ghost use Rattle.std.specs.Iterator.{at_most};
ghost use Rattle.words.specs.Sets.{WithBit, WithoutBit, HasFrom, Lowest, Highest, Without};
ghost use Rattle.words.specs.Walk.{TakesFrom};

// Whether a number is in the word.
pub fn bit(word: u64, index: u8) -> bool
    ensures { result ≡ bit word (index % 64) }
{
    (word >> (index % 64)) % 2 == 1
}

// The word with one number more, where on.
pub fn with_bit(word: u64, index: u8, on: bool) -> u64
    ensures { WithBit word index on result }
{
    word | ((on as u64) << (index % 64))
}

// The word without a number.
pub fn without_bit(word: u64, index: u8) -> u64
    ensures { WithoutBit word index result }
{
    word & !(1u64 << (index % 64))
}

// Whether the word has a number from index on: from 64 on there is none.
pub fn has_from(word: u64, index: u8) -> bool
    ensures { Tells (HasFrom word index) result }
{
    index < 64 && word >> index != 0
}

// The lowest number in the word; 64 where there is none. `Members` gives both ends as options; this and the three below are what it is proved by.
pub fn lowest(word: u64) -> u8
    ensures { Lowest word result }
{
    word.trailing_zeros() as u8
}

// The highest number in the word; 64 where there is none.
pub fn highest(word: u64) -> u8
    ensures { Highest word result }
{
    if word == 0 {
        64
    } else {
        (63 - word.leading_zeros()) as u8
    }
}

// The word without its lowest number.
pub fn without_lowest(word: u64) -> u64
    ensures { Without Lowest word result }
{
    word & word.wrapping_sub(1)
}

// The word without its highest number.
pub fn without_highest(word: u64) -> u64
    ensures { Without Highest word result }
{
    without_bit(word, highest(word))
}

// The numbers in a word, one by one: from the front the lowest first, from the back (`rev`) the highest. The field has those that are left.
#[derive(Drop)]
pub struct Members(pub u64);

impl Iterator for Members {
    type Item = u8;

    ghost next_gives = { λ s r t. TakesFrom Lowest s.0 r t.0 };

    ghost remaining = { λ s. at_most s.0 };

    fn next(&mut self) -> Option<u8> {
        if self.0 == 0 {
            return None;
        }
        let n = lowest(self.0);
        self.0 = without_lowest(self.0);
        Some(n)
    }
}

impl DoubleEndedIterator for Members {
    ghost next_back_gives = { λ s r t. TakesFrom Highest s.0 r t.0 };

    fn next_back(&mut self) -> Option<u8> {
        if self.0 == 0 {
            return None;
        }
        let n = highest(self.0);
        self.0 = without_highest(self.0);
        Some(n)
    }
}
