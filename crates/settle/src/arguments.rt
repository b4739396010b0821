use std::io;

// A number of the call, and the word that it was given as.
#[derive(Clone, Copy)]
pub struct Given<'a> {
    pub word: &'a [u8],
    pub number: u32,
}

// What is to be studied: a load in watts, in at most so many passes.
#[derive(Clone, Copy)]
pub struct Asked<'a> {
    pub load: Given<'a>,
    pub budget: Given<'a>,
}

// The most that a word is read as, which is more than any range here has.
const MOST: u32 = 999999999;

// The number of a word of decimal digits, and none of another word; a larger one than the most is
// the most.
fn number(word: &[u8]) -> Option<u32> {
    if word.is_empty() {
        return None;
    }
    let mut n: u32 = 0;
    for byte in word {
        let digit = (*byte as char).to_digit(10)?;
        n = n.saturating_mul(10).saturating_add(digit).min(MOST);
    }
    Some(n)
}

impl<'a> Given<'a> {
    // A word and its number, where it is one.
    fn parse(word: &'a [u8]) -> Option<Self> {
        let number = number(word)?;
        Some(Given { word, number })
    }
}

impl<'a> Asked<'a> {
    // The words of the call, where both are numbers.
    pub fn parse(load: &'a [u8], budget: &'a [u8]) -> Option<Self> {
        let load = Given::parse(load)?;
        let budget = Given::parse(budget)?;
        Some(Asked { load, budget })
    }
}

// How the program is called.
pub fn usage(err: &impl Print) -> io::Result<()> {
    println!(err;
        "usage: settle LOAD [BUDGET] <FILE\n    LOAD is in watts, such as 150000; BUDGET is the most passes, such as 100."
    )
}
