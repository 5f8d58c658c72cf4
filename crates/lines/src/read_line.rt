// A line of numbers as it is read (specification, 4.2).
ghost use Rattle.lines.specs.ShapeInCode.{Shape};

// No line has more numbers than the first: M I L O A B C J F.
pub const MOST_NUMBERS: usize = 9;

// The numbers of a line, none where it is ill-formed, and the position behind it.
#[derive(Clone, Copy)]
pub struct ReadLine {
    pub count: usize,
    pub numbers: [usize; MOST_NUMBERS],
    pub next: usize,
    pub ghost shape: { Shape count numbers },
}

impl ReadLine {
    ghost use Rattle.std.specs.Prelude.{◌≡◌, ◌<◌, get_or};
    ghost use Rattle.text.specs.Text.{reset_word};
    ghost use Rattle.lines.specs.ShapeInCode.{most_numbers};
    ghost use Rattle.lines.specs.LinesInCode.{numbers_of};

    // Number i, and 0 where it is absent.
    pub fn entry(self, i: usize) -> usize
        requires { i < most_numbers }
        ensures { result ≡ get_or (numbers_of self) i 0 }
    {
        if i >= self.count {
            return 0;
        }
        self.numbers[i]
    }

    // The reset word of a latch's line: 2 where it repeats the own literal, 3 where the number is no reset.
    pub fn reset_word(self) -> usize
        ensures { result ≡ reset_word (get_or (numbers_of self) 0 0) (get_or (numbers_of self) 2 0) }
    {
        let reset = self.entry(2);
        if reset <= 1 {
            return reset;
        }
        if reset == self.entry(0) {
            return 2; // no start value
        }
        3
    }
}
