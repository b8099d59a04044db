// Places of a file, as an editor shows them.
ghost use Rattle.std.specs.Prelude.{◌≤◌, length};

// Lines and columns count from 1; each byte is a column, a tab too.
#[derive(Clone, Copy)]
pub struct Place {
    pub line: usize,
    pub column: usize,
}

// The line and the column of a place; of one past the end, those of the end.
pub fn place_of(file: &[u8], at: usize) -> Place {
    let end = at.min(file.len());
    let mut line = 1;
    let mut begins = 0;
    for (i, b) in file[..end].iter().enumerate() {
        if *b == b'\n' {
            line += 1;
            begins = i + 1;
        }
    }
    Place {
        line,
        column: end - begins + 1,
    }
}

// A place of the text that starts at a place of the file, as a place of the file; the file's end if it is past it.
pub fn in_file(file: &[u8], start: usize, place: usize) -> usize
    requires { start ≤ length file.now }
{
    if file.len() - start < place {
        return file.len();
    }
    start + place
}
