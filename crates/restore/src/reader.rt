// A journal and a place in it. All other code calls `line_end`, which has plain parameters.
ghost use Rattle.std.specs.Prelude.{◌≡◌};
ghost use Rattle.restore.specs.laws.Places.{place_of, line_end};

const LF: u8 = b'\n';

#[derive(Clone, Copy)]
pub struct Reader<'a> {
    pub src: &'a [u8],
    pub at: usize,
}

// The first place of a byte from a place on, or the end.
pub fn place_of(b: &[u8], at: usize, byte: u8) -> usize
    ensures { result ≡ place_of byte b.now at }
{
    for k in at..b.len() {
        if b[k] == byte {
            return k;
        }
    }
    at.max(b.len())
}

// The place after the line at a place, or that place where the line is not complete.
pub fn end_of_line(src: &[u8], at: usize) -> usize
    ensures { result ≡ line_end src.now at }
{
    let e = place_of(src, at, LF);
    if e < src.len() {
        return e + 1;
    }
    at
}

pub fn new<'a>(src: &'a [u8]) -> Reader<'a>
    ensures { (result.src ≡ src.entry) × (result.at ≡ 0) }
{
    Reader { src, at: 0 }
}

pub fn moved<'a>(r: Reader<'a>, at: usize) -> Reader<'a>
    ensures { (result.src ≡ r.entry.src) × (result.at ≡ at) }
{
    Reader { src: r.src, at }
}

pub fn next<'a>(r: Reader<'a>) -> usize
    ensures { result ≡ line_end r.entry.src.now r.entry.at }
{
    end_of_line(r.src, r.at)
}

// Where the line at a place ends.
pub fn line_end(journal: &[u8], at: usize) -> usize
    ensures { result ≡ line_end journal.now at }
{
    next(moved(new(journal), at))
}
