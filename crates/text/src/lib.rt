// text: the bytes that the program `figure` writes, from plain numbers (document 01, "The program `figure` reads").
//
// Promises, for every input and every lent buffer:
//   list_refused   the line `refused NUMBER PLACE` at the buffer's start (`refused_listed`)
//   list_figures   the lines of the figures, the count and the exit offsets there (`figures_listed`)
// Each answers how many bytes that is and leaves the rest of the buffer. A buffer of fewer than 8,192 bytes is left whole, and so
// is one beside a table that does not fit the period; the error says which. (No listing has more than 6,485 bytes.)
// Definitions: the bytes in specs/Text.antt; what is answered and left in specs/Buffer.antt; what a page is written in specs/Pages.antt.
#![tactic(auto)]

ghost use Rattle.std.specs.Prelude.{◌≡◌, [], ◌∷◌, ◌+◌, ◌*◌, ◌≤◌, ◌<◌, length};
ghost use Rattle.text.specs.Text.{decimal, last_item, line, refused_line, exit_line, exit_lines, figure_lines};
ghost use Rattle.text.specs.Buffer.{refused_listed, figures_listed};
ghost use Rattle.text.specs.Pages.{HasRoom, Puts};

// At a place of the table: no run ends there.
const NO_TIME: u64 = u64::MAX;

// A buffer that holds every listing.
const ENOUGH: usize = 8192;

// Why there is no listing; the buffer is then as it was.
#[derive(Clone, Copy, PartialEq, Eq)]
pub enum Unlisted {
    // The buffer has fewer than 8,192 bytes.
    Short,
    // The period is above 256, or the table has fewer places than the period.
    NoTable,
}

// ---- whole listings

// The line of a refusal.
pub fn list_refused(number: u64, place: u64, out: &mut [u8]) -> Result<usize, Unlisted>
    ensures { refused_listed number place out.old ≡ (result, out.new) }
{
    if out.len() < ENOUGH {
        return Err(Unlisted::Short);
    }
    let mut line = Page { out, at: 0 };
    line.refused(number, place);
    Ok(line.at)
}

// The lines of the figures, the count of exit offsets and the exit offsets below the period.
pub fn list_figures(
    tight: u64,
    published: u64,
    exits: u64,
    period: usize,
    table: &[u64],
    out: &mut [u8],
) -> Result<usize, Unlisted>
    ensures { figures_listed tight published exits period table.now out.old ≡ (result, out.new) }
{
    if period > 256 || period > table.len() {
        return Err(Unlisted::NoTable);
    }
    if out.len() < ENOUGH {
        return Err(Unlisted::Short);
    }
    let mut page = Page { out, at: 0 };
    page.figures(tight, published, exits, period, table);
    Ok(page.at)
}

// A lent buffer that is written from its start on, and how many bytes of it are written. Each method writes its text behind those.
#[derive(Drop)]
struct Page<'a> {
    out: &'a mut [u8],
    at: usize,
}

impl Page<'_> {
    // ---- parts of a listing

    fn figures(&mut self, tight: u64, published: u64, exits: u64, period: usize, table: &[u64])
        requires { (period ≤ 256) × (period ≤ length table.now) × HasRoom self.old 8192 }
        ensures { Puts self.old self.new (figure_lines tight published exits period table.now) }
    {
        self.line(b"tight", tight);
        self.line(b"published", published);
        self.line(b"exits", exits);
        self.exits(period, table);
    }

    // The lines of the exit offsets below the period: at most 25 bytes each.
    fn exits(&mut self, period: usize, table: &[u64])
        requires { (period ≤ 256) × (period ≤ length table.now) × HasRoom self.old (25 * period) }
        ensures { Puts self.old self.new (exit_lines period table.now) }
    {
        for o in 0..period {
            self.exit(o as u64, table[o]);
        }
    }

    // The line of one exit offset, or nothing where the time is none.
    fn exit(&mut self, offset: u64, time: u64)
        requires { (offset < 256) × HasRoom self.old 25 }
        ensures { Puts self.old self.new (exit_line offset time) }
    {
        if time == NO_TIME {
            return;
        }
        self.number(offset);
        self.last(time);
    }

    fn refused(&mut self, number: u64, place: u64)
        requires { HasRoom self.old (length (refused_line number place)) }
        ensures { Puts self.old self.new (refused_line number place) }
    {
        self.text(b"refused ");
        self.number(number);
        self.last(place);
    }

    // ---- items

    // A line of a word and a number.
    fn line(&mut self, word: &[u8], n: u64)
        requires { HasRoom self.old (length (line word.now n)) }
        ensures { Puts self.old self.new (line word.now n) }
    {
        self.text(word);
        self.last(n);
    }

    // A line's last item: a space, the number and the line feed.
    fn last(&mut self, n: u64)
        requires { HasRoom self.old (length (last_item n)) }
        ensures { Puts self.old self.new (last_item n) }
    {
        self.text(b" ");
        self.number(n);
        self.text(b"\n");
    }

    // The digits by `io::decimal`: the contract of std's `write!` does not rule out that it fails.
    fn number(&mut self, n: u64)
        requires { HasRoom self.old (length (decimal n)) }
        ensures { Puts self.old self.new (decimal n) }
    {
        let mut digits = [0u8; 20];
        let k = io::decimal(n, &mut digits);
        self.text(&digits[..k]);
    }

    fn text(&mut self, text: &[u8])
        requires { HasRoom self.old (length text.now) }
        ensures { Puts self.old self.new text.now }
    {
        let end = self.at + text.len();
        self.out[self.at..end].copy_from_slice(text);
        self.at = end;
    }
}
