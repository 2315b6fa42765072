// A line of any length, byte by byte into a small buffer: what its reading does not depend on is left out.
ghost use Rattle.std.specs.Prelude.{◌≤◌, length};
ghost use Rattle.text.specs.Limits.{line_room};
ghost use Rattle.text.specs.Squeeze.{SqueezeFits, NoneEnsures, PushEnsures};

// What is kept of a line: how many bytes, tabs, and bytes of the present field. A line may go on for ever, so these
// stop at 59, 5 and 9. (No heap: the buffer is the caller's, of any length from 64 on. A struct that owned an array
// would take no other, and of a slice in a struct nothing is known once its front was lent, as it is where the line is
// read. `SqueezeFits` stands in clauses, and in no ghost field: a file with one may not name definitions about its
// struct.)
#[derive(Clone, Copy)]
pub struct Squeeze {
    pub length: usize,
    pub tabs: usize,
    pub width: usize,
}

impl Squeeze {
    // Nothing of a line is seen yet.
    pub fn none() -> Squeeze
        ensures { NoneEnsures result }
    {
        Squeeze {
            length: 0,
            tabs: 0,
            width: 0,
        }
    }

    // One byte more of the line: put after those kept, or left out.
    pub fn push(self, line: &mut [u8], b: u8) -> Squeeze
        requires { (line_room ≤ length line.old) × SqueezeFits self }
        ensures { PushEnsures line.old self b line.new result }
    {
        if b == b'\t' {
            if self.tabs < 5 {
                line[self.length] = b;
                return Squeeze {
                    length: self.length + 1,
                    tabs: self.tabs + 1,
                    width: 0,
                };
            }
            // The sixth field ends, and counts as full from here on.
            return Squeeze { width: 9, ..self };
        }
        if self.width < 9 {
            line[self.length] = b;
            return Squeeze {
                length: self.length + 1,
                width: self.width + 1,
                ..self
            };
        }
        self
    }
}
