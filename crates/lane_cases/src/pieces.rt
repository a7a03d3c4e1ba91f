// Pieces written as lines of words, and what a lane says to them.
use aftr_base::Numbers;
use reassembly_lane::{Answer, FragBad, Lane, Piece};
use std::alloc::Global;
use std::str::SplitWhitespace;
use std::test::Fail;

/// An answer in a word.
fn word_of(answer: &Answer) -> &'static str {
    match answer {
        Answer::Held => "held",
        Answer::Whole { .. } => "whole",
        Answer::Refused(why) => refusal(*why),
    }
}

fn refusal(why: FragBad) -> &'static str {
    match why {
        FragBad::Odd => "odd",
        FragBad::Long => "long",
        FragBad::Overlap => "overlap",
        FragBad::Many => "many",
        FragBad::Full => "full",
    }
}

/// Whether a lane has exactly the numbers that the rest of a line has.
fn are(alloc: Global, numbers: &Numbers, words: SplitWhitespace<'_>) -> Result<bool, Fail> {
    let mut want = Vec::new(alloc);
    for word in words {
        want.push(word.parse::<u32>()?)?;
    }
    Ok(numbers.as_slice() == want.as_slice())
}

/// The numbers of a piece as a line has them: key, offset, whether more follows, how many bytes, which byte, extra, and the time
/// in nanoseconds.
fn numbers_of(words: &mut SplitWhitespace<'_>) -> Option<[u64; 7]> {
    let mut numbers = [0; 7];
    for number in &mut numbers {
        *number = match words.next()? {
            "more" => 1,
            "last" => 0,
            word => word.parse().ok()?,
        };
    }
    Some(numbers)
}

/// The piece of these numbers, with this body.
fn piece_of(numbers: [u64; 7], body: &[u8], number: u32) -> Option<Piece<'_, u32>> {
    let [key, offset, more, _, _, extra, time] = numbers;
    Some(Piece {
        key: key.try_into().ok()?,
        offset: offset.try_into().ok()?,
        more: more == 1,
        extra: extra.try_into().ok()?,
        head: &[],
        body,
        time,
        number,
    })
}

/// The bytes of a piece of these numbers.
fn body_of(alloc: Global, numbers: [u64; 7]) -> Result<Vec<u8>, Fail> {
    let mut list = Vec::new(alloc);
    list.resize(numbers[3].try_into()?, numbers[4].try_into()?)?;
    Ok(list)
}

/// Feeds the piece of a line, and says whether the answer is the word behind its numbers, and the datagrams given up have the
/// numbers behind that.
fn feeds(alloc: Global, lane: &mut Lane<u32>, number: u32, line: &str) -> Result<bool, Fail> {
    let mut words = line.split_whitespace();
    let numbers = numbers_of(&mut words).ok_or("numbers")?;
    let body = body_of(alloc, numbers)?;
    let fed = lane.feed(alloc, piece_of(numbers, &body, number).ok_or("a piece")?)?;
    Ok(words.next() == Some(word_of(&fed.answer)) && are(alloc, &fed.ended, words)?)
}

/// Whether the numbers of what waits are those behind the word `unfinished`.
fn waits(alloc: Global, lane: &Lane<u32>, line: &str) -> Result<bool, Fail> {
    let mut words = line.split_whitespace();
    let _word = words.next();
    are(alloc, &lane.unfinished(alloc)?, words)
}

/// A lane in which 256 pieces of eight bytes wait since time 0: each of a datagram of its own, of keys from 1000 on, or all
/// of key 1 at offsets from 0 on.
fn filled(alloc: Global, one_key: bool) -> Result<Lane<u32>, Fail> {
    let mut lane = Lane::new(alloc);
    for number in 0..256 {
        let (key, offset) = if one_key {
            (1, number)
        } else {
            (1000 + number, 0)
        };
        let piece = piece_of([key, offset, 1, 8, 1, 0, 0], &[1; 8], number as u32);
        let fed = lane.feed(alloc, piece.ok_or("a piece")?)?;
        if !matches!(fed.answer, Answer::Held) {
            return Err("a piece that waits".into());
        }
    }
    Ok(lane)
}

/// A lane by the word that begins a case.
fn opening(alloc: Global, word: &str) -> Result<Lane<u32>, Fail> {
    match word {
        "256 datagrams" => filled(alloc, false),
        "256 pieces" => filled(alloc, true),
        _ => Ok(Lane::new(alloc)),
    }
}

fn is_opening(line: &str) -> bool {
    line == "nothing" || line == "256 datagrams" || line == "256 pieces"
}

/// Goes through the lines of some cases, each begun by what waits already, and says which line was the first at which the
/// lane says something else. Pieces are numbered by their lines.
pub fn first_other(alloc: Global, cases: &str) -> Result<Option<u32>, Fail> {
    let mut lane = Lane::new(alloc);
    let mut number = 0u32;
    for line in cases.lines() {
        let line = line.trim();
        if is_opening(line) {
            lane = opening(alloc, line)?;
        } else if !said(alloc, &mut lane, number, line)? {
            return Ok(Some(number));
        }
        number = number.wrapping_add(1);
    }
    Ok(None)
}

fn said(alloc: Global, lane: &mut Lane<u32>, number: u32, line: &str) -> Result<bool, Fail> {
    if line.starts_with("unfinished") {
        waits(alloc, lane, line)
    } else {
        feeds(alloc, lane, number, line)
    }
}
