// The number of a record, as its lines begin.
use itoa::write_digits;
use std::marker::Model;

/// As many digits as the greatest number has.
const MOST_DIGITS: usize = 10;

/// The number of a record, with its decimal digits. Those of the next number differ from them in the last one mostly, so they are
/// kept from one record to the next. A contract sees it as the number.
#[derive(Drop)]
pub struct RecordNumber {
    number: u32,
    digits: [u8; MOST_DIGITS],
    /// Where they begin.
    start: usize,
}

impl Model for RecordNumber {
    ghost use Rattle.std.specs.Prelude.{◌≡◌, ◌≤◌, ℕ, decimal, drop, length};

    ghost Value = { ℕ };

    ghost view = { λ n. n.number };

    ghost invariant = { λ n. (n.start ≤ 9) × (drop n.start n.digits ≡ decimal n.number) };
}

impl RecordNumber {
    ghost use Rattle.std.specs.Prelude.{◌≡◌, ◌+◌, ◌++◌, ◌<◌, ◌≤◌, decimal, drop, length};

    /// This number.
    pub fn of(number: u32) -> RecordNumber
        ensures { result ≡ number }
    {
        let mut digits = [b'0'; MOST_DIGITS];
        let start = write_digits(u64::from(number), &mut digits, MOST_DIGITS);
        RecordNumber {
            number,
            digits,
            start,
        }
    }

    /// The number itself.
    #[inline(always)]
    pub fn get(&self) -> u32
        ensures { result ≡ self.now }
    {
        self.number
    }

    /// One more.
    #[inline(always)]
    pub fn rise(&mut self)
        requires { self.old + 1 < 4294967296 }
        ensures { self.new ≡ self.old + 1 }
    {
        let last = self.digits[MOST_DIGITS - 1];
        if last == b'9' {
            *self = RecordNumber::of(self.number + 1);
            return;
        }
        self.digits[MOST_DIGITS - 1] = last + 1;
        self.number += 1;
    }

    /// Writes its digits so that they end at an index, and tells where they begin. What stands in the ten bytes in front of the index
    /// is lost.
    #[inline(always)]
    pub(crate) fn write(&self, line: &mut [u8], end: usize) -> usize
        requires room { 10 ≤ end }
        requires inside { end ≤ length line.old }
        ensures start { result + length (decimal self.now) ≡ end }
        ensures written { drop result line.new ≡ decimal self.now ++ drop end line.old }
    {
        let from = end - MOST_DIGITS;
        line[from..end].copy_from_slice(&self.digits);
        from + self.start
    }
}
