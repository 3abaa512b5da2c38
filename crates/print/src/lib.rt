// The program's output text, written into a lent buffer from a place on.
#![tactic(auto)]

ghost use Rattle.std.specs.Prelude.{◌≡◌, [], ◌∷◌, ◌++◌, ◌+◌, ◌≤◌, ◌<◌, nat_abs, length, get_or, drop};
ghost use Rattle.model.specs.Reading.{after_groups, is_mark, superedges_at, u16_at};
ghost use Rattle.model.specs.Program.{change_line, change_lines, decimal, open_line, refused_line, signed, spaced, superedge_line};
ghost use Rattle.buffers.specs.Wrote.{Wrote};
ghost use Rattle.print.specs.Printed.{HasRoom};
ghost use Rattle.print.specs.Lines.{file_text, group_text, group_texts, member_texts, next_group, superedge_texts};

// The byte at i; 0 past the end.
fn byte_at(file: &[u8], i: usize) -> u8
    ensures { result ≡ get_or file.now i 0 }
{
    file.get(i).copied().unwrap_or(0)
}

// The number of 16 bits at i, low byte first.
fn number_at(file: &[u8], i: usize) -> usize
    requires { i + 1 < 18446744073709551616 }
    ensures { (result ≡ u16_at file.now i) × (result < 65536) }
{
    usize::from(u16::from_le_bytes([byte_at(file, i), byte_at(file, i + 1)]))
}

// The place after the group record at p.
fn next_group(file: &[u8], p: usize) -> usize
    requires { p < 17179869184 }
    ensures { (result ≡ next_group file.now p) × (result ≤ p + 131076) }
{
    p + 6 + 2 * number_at(file, p + 2)
}

// The place after k group records, the first at `from`.
fn groups_end(file: &[u8], from: usize, k: usize) -> usize
    requires { (from ≤ 8) × (k < 65536) }
    ensures { (drop result file.now ≡ after_groups k (drop from file.now)) × (result < 17179869184) }
{
    let mut p = from;
    for _ in 0..k {
        p = next_group(file, p);
    }
    p
}

// Whether a superedge's mark stands at p.
fn is_superedge(file: &[u8], p: usize) -> bool
    ensures { result ≡ is_mark (drop p file.now) 0x53 0x45 }
{
    let mark = b"SE";
    byte_at(file, p) == mark[0] && byte_at(file, p + 1) == mark[1]
}

// How many superedge records stand from the place `from` on.
fn count_superedges(file: &[u8], from: usize) -> usize
    requires { from < 17179869184 }
    ensures { result ≡ length (superedges_at (length file.now) (drop from file.now)) }
{
    let mut p = from;
    let mut count = 0;
    while is_superedge(file, p) {
        p += 6;
        count += 1;
    }
    count
}

// A lent buffer, and the place in it where the next byte goes.
#[derive(Drop)]
struct Printer<'a> {
    out: &'a mut [u8],
    at: usize,
}

impl Printer<'_> {
    // One byte.
    fn byte(&mut self, b: u8)
        requires { HasRoom (b ∷ []) self.old }
        ensures same { self.new.out.ghost_name ≡ self.old.out.ghost_name }
        ensures wrote { Wrote self.old.out.now self.old.at (b ∷ []) self.new.out.now self.new.at }
    {
        let at = self.at;
        self.at = at + 1;
        let out = &mut *self.out;
        out[at] = b;
    }

    // A text as it stands.
    fn text(&mut self, text: &[u8])
        requires { HasRoom (text.now) self.old }
        ensures same { self.new.out.ghost_name ≡ self.old.out.ghost_name }
        ensures wrote { Wrote self.old.out.now self.old.at (text.now) self.new.out.now self.new.at }
    {
        let at = self.at;
        let end = at + text.len();
        self.at = end;
        let out = &mut *self.out;
        out[at..end].copy_from_slice(text);
    }

    // A number in decimal: its leading digits, then its last.
    fn decimal(&mut self, x: usize)
        requires { HasRoom (decimal x) self.old }
        ensures same { self.new.out.ghost_name ≡ self.old.out.ghost_name }
        ensures wrote { Wrote self.old.out.now self.old.at (decimal x) self.new.out.now self.new.at }
    {
        if x < 10 {
            self.byte((0x30 + x) as u8);
            return;
        }
        self.decimal(x / 10);
        self.byte((0x30 + x % 10) as u8);
    }

    // A signed number: a minus sign where it is below 0, then how far it is from 0.
    fn signed(&mut self, x: i16)
        requires { HasRoom (signed x) self.old }
        ensures same { self.new.out.ghost_name ≡ self.old.out.ghost_name }
        ensures wrote { Wrote self.old.out.now self.old.at (signed x) self.new.out.now self.new.at }
    {
        let size = usize::from(x.unsigned_abs());
        if x < 0 {
            self.text(b"-");
            self.decimal(size);
            return;
        }
        self.decimal(size);
    }

    // A label and a number in decimal.
    fn count(&mut self, label: &[u8], x: usize)
        requires { HasRoom (label.now ++ decimal x) self.old }
        ensures same { self.new.out.ghost_name ≡ self.old.out.ghost_name }
        ensures wrote { Wrote self.old.out.now self.old.at (label.now ++ decimal x) self.new.out.now self.new.at }
    {
        self.text(label);
        self.decimal(x);
    }

    // A number after a space.
    fn spaced(&mut self, x: usize)
        requires { HasRoom (spaced x) self.old }
        ensures same { self.new.out.ghost_name ≡ self.old.out.ghost_name }
        ensures wrote { Wrote self.old.out.now self.old.at (spaced x) self.new.out.now self.new.at }
    {
        self.count(b" ", x);
    }

    // The line that refuses an input at its line k.
    fn refused_line(&mut self, k: usize)
        requires { HasRoom (refused_line k) self.old }
        ensures same { self.new.out.ghost_name ≡ self.old.out.ghost_name }
        ensures wrote { Wrote self.old.out.now self.old.at (refused_line k) self.new.out.now self.new.at }
    {
        self.count(b"input refused at line ", k);
        self.text(b"\n");
    }

    // The line of the change at position i and its answer.
    fn change_line(&mut self, i: usize, answer: i16)
        requires { HasRoom (change_line i answer) self.old }
        ensures same { self.new.out.ghost_name ≡ self.old.out.ghost_name }
        ensures wrote { Wrote self.old.out.now self.old.at (change_line i answer) self.new.out.now self.new.at }
    {
        self.count(b"change ", i);
        self.text(b": ");
        self.signed(answer);
        self.text(b"\n");
    }

    // The lines of all changes, from position 1 on.
    fn change_lines(&mut self, answers: &[i16])
        requires { HasRoom (change_lines 1 answers.now) self.old }
        ensures same { self.new.out.ghost_name ≡ self.old.out.ghost_name }
        ensures wrote { Wrote self.old.out.now self.old.at (change_lines 1 answers.now) self.new.out.now self.new.at }
    {
        for (i, answer) in answers.iter().enumerate() {
            self.change_line(i + 1, *answer);
        }
    }

    // The line of m, g and s.
    fn open_line(&mut self, m: usize, g: usize, s: usize)
        requires { HasRoom (open_line m g s) self.old }
        ensures same { self.new.out.ghost_name ≡ self.old.out.ghost_name }
        ensures wrote { Wrote self.old.out.now self.old.at (open_line m g s) self.new.out.now self.new.at }
    {
        self.count(b"open ", m);
        self.count(b" groups ", g);
        self.count(b" joins ", s);
        self.text(b"\n");
    }

    // The members of a group, k numbers of the file from the place `from` on.
    fn members(&mut self, file: &[u8], from: usize, k: usize)
        requires from_bound { (from < 34359738368) × (k < 65536) }
        requires has_room { HasRoom (member_texts k (drop from file.now)) self.old }
        ensures same { self.new.out.ghost_name ≡ self.old.out.ghost_name }
        ensures wrote { Wrote self.old.out.now self.old.at (member_texts k (drop from file.now)) self.new.out.now self.new.at }
    {
        for i in 0..k {
            self.spaced(number_at(file, from + 2 * i));
        }
    }

    // The line of the group record at p.
    fn group_line(&mut self, file: &[u8], p: usize)
        requires p_bound { p < 17179869184 }
        requires has_room { HasRoom (group_text (drop p file.now)) self.old }
        ensures same { self.new.out.ghost_name ≡ self.old.out.ghost_name }
        ensures wrote { Wrote self.old.out.now self.old.at (group_text (drop p file.now)) self.new.out.now self.new.at }
    {
        self.byte(byte_at(file, p + 1));
        self.members(file, p + 6, number_at(file, p + 2));
        self.text(b"\n");
    }

    // The lines of k group records, the first at `from`.
    fn group_lines(&mut self, file: &[u8], from: usize, k: usize)
        requires from_bound { (from ≤ 8) × (k < 65536) }
        requires has_room { HasRoom (group_texts k (drop from file.now)) self.old }
        ensures same { self.new.out.ghost_name ≡ self.old.out.ghost_name }
        ensures wrote { Wrote self.old.out.now self.old.at (group_texts k (drop from file.now)) self.new.out.now self.new.at }
    {
        let mut p = from;
        for _ in 0..k {
            self.group_line(file, p);
            p = next_group(file, p);
        }
    }

    // The line of a superedge between the groups at positions i and j.
    fn superedge_line(&mut self, i: usize, j: usize)
        requires { HasRoom (superedge_line (i, j)) self.old }
        ensures same { self.new.out.ghost_name ≡ self.old.out.ghost_name }
        ensures wrote { Wrote self.old.out.now self.old.at (superedge_line (i, j)) self.new.out.now self.new.at }
    {
        self.text(b"J");
        self.spaced(i);
        self.spaced(j);
        self.text(b"\n");
    }

    // The lines of the superedge records from the place `from` on.
    fn superedge_lines(&mut self, file: &[u8], from: usize)
        requires from_bound { from < 17179869184 }
        requires has_room { HasRoom (superedge_texts (length file.now) (drop from file.now)) self.old }
        ensures same { self.new.out.ghost_name ≡ self.old.out.ghost_name }
        ensures wrote { Wrote self.old.out.now self.old.at (superedge_texts (length file.now) (drop from file.now)) self.new.out.now self.new.at }
    {
        let mut p = from;
        while is_superedge(file, p) {
            self.superedge_line(number_at(file, p + 2), number_at(file, p + 4));
            p += 6;
        }
    }

    // What a release file says, as lines: m, g and s, the groups, the superedges.
    fn release_lines(&mut self, file: &[u8])
        requires { HasRoom (file_text file.now) self.old }
        ensures same { self.new.out.ghost_name ≡ self.old.out.ghost_name }
        ensures wrote { Wrote self.old.out.now self.old.at (file_text file.now) self.new.out.now self.new.at }
    {
        let g = number_at(file, 6);
        let p = groups_end(file, 8, g);
        self.open_line(number_at(file, 4), g, count_superedges(file, p));
        self.group_lines(file, 8, g);
        self.superedge_lines(file, p);
    }

    // The answers to the changes of an accepted input, then the release of the graph after them.
    fn accepted(&mut self, answers: &[i16], file: &[u8])
        requires { HasRoom (change_lines 1 answers.now ++ file_text file.now) self.old }
        ensures same { self.new.out.ghost_name ≡ self.old.out.ghost_name }
        ensures wrote { Wrote self.old.out.now self.old.at (change_lines 1 answers.now ++ file_text file.now) self.new.out.now self.new.at }
    {
        self.change_lines(answers);
        self.release_lines(file);
    }
}

// The line that refuses an input at its line k, from the place `at` on: the place after it.
pub fn refused_line(out: &mut [u8], at: usize, k: usize) -> usize
    requires { at + length (refused_line k) ≤ length out.old }
    ensures { Wrote out.old at (refused_line k) out.new result }
{
    let mut printer = Printer { out, at };
    printer.refused_line(k);
    printer.at
}

// The whole output for an accepted input: the answers to its changes, then the release of the graph after them.
pub fn output(out: &mut [u8], answers: &[i16], file: &[u8]) -> usize
    requires { length (change_lines 1 answers.now ++ file_text file.now) ≤ length out.old }
    ensures { Wrote out.old 0 (change_lines 1 answers.now ++ file_text file.now) out.new result }
{
    let mut printer = Printer { out, at: 0 };
    printer.accepted(answers, file);
    printer.at
}
