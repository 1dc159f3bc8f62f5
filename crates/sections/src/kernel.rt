// Lines and sections of values of any type that a field spells.
ghost use Rattle.std.specs.Prelude.{◌+◌, ◌<◌, ◌≤◌, ◌≡◌, eqb, length, IfNone, IfSome};
ghost use Rattle.text.specs.Pieces.{ended, split_from};
ghost use Rattle.sections.specs.Lines.{once, rows, tagged, told, values};
ghost use Rattle.sections.specs.Left.{left, parts, told_filled, told_one, told_rows, told_tagged};

use text::Field;
use text::kernel::cut;

// The fields of a line that are left from index next on; none behind its end.
#[derive(Clone, Copy)]
pub struct Fields<'a> {
    pub line: &'a [u8],
    pub next: usize,
}

impl<'a> Fields<'a> {
    // Whether they are as many values as row has places. These are then in row.
    #[tactic(auto, using(crate::proofs::RowLaws::row_laws))]
    pub fn read<T: Field>(self, row: &mut [T]) -> Option<()>
        ensures { values T.spelled (length row.new) (parts self.entry) ≡ told result row.new }
    {
        let line = self.line;
        let mut from = self.next;
        for value in row.iter_mut() {
            if line.len() < from {
                return None;
            }
            let end = cut(line, from, b'\t');
            *value = T::parse(&line[from..end])?;
            from = end + 1;
        }
        if from <= line.len() {
            return None;
        }
        Some(())
    }
}

// The lines of a text that are left from index next on. That the text stays is a fact of two moments, which no ghost field can hold: the clauses say it.
#[derive(Drop)]
pub struct Lines<'a> {
    pub text: &'a [u8],
    pub next: usize,
}

impl<'a> Lines<'a> {
    pub fn new(text: &'a [u8]) -> Lines<'a>
        ensures lines { left result ≡ ended 10 text.now }
        ensures same { result.text ≡ text.entry }
    {
        Lines { text, next: 0 }
    }

    // Whether no line is left.
    #[tactic(auto, using(crate::proofs::LineLaws::left_laws))]
    pub fn is_empty(&self) -> bool
        ensures { result ≡ eqb (length (left self.now)) 0 }
    {
        self.text.len() <= self.next
    }

    // The values of the next line, where it bears the tag: the line is then read. None where it has another tag, or where no line is left.
    pub fn tagged(&mut self, tag: &[u8]) -> Option<Fields<'a>>
        ensures line { tagged tag.now (left self.old) ≡ told_tagged result (left self.new) }
        ensures stays { IfNone result (self.new ≡ self.old) }
        ensures bytes { IfSome result (λ f. self.old.next + length (parts f) < self.new.next) }
        ensures within { IfSome result (λ f. self.old.next < length self.old.text.now) }
        ensures same { self.new.text ≡ self.old.text }
    {
        let text = self.text;
        if text.len() <= self.next {
            return None;
        }
        let end = cut(text, self.next, b'\n');
        let line = &text[self.next..end];
        let tag_end = cut(line, 0, b'\t');
        if &line[..tag_end] != tag {
            return None;
        }
        self.next = end + 1;
        Some(Fields {
            line,
            next: tag_end + 1,
        })
    }

    // The next line, which bears the tag and as many values as row has places. They are then in row.
    #[tactic(auto, using(crate::proofs::LineLaws::once_laws))]
    pub fn one<T: Field>(&mut self, tag: &[u8], row: &mut [T]) -> Option<()>
        ensures line { once T.spelled tag.now (length row.new) (left self.old) ≡ told_one result row.new (left self.new) }
        ensures same { self.new.text ≡ self.old.text }
    {
        self.tagged(tag)?.read(row)
    }

    // The next lines that bear the tag, n values each: how many values, which are then at the start of out.
    pub fn fill_rows<T: Field>(&mut self, tag: &[u8], n: usize, out: &mut [T]) -> Option<usize>
        requires { length self.old.text.now + n ≤ length out.old }
        ensures section { rows T.spelled tag.now n (left self.old) ≡ told_filled result out.new (left self.new) }
        ensures within { IfSome result (λ count. count ≤ length out.new) }
        ensures same { self.new.text ≡ self.old.text }
    {
        let mut count = 0;
        // `while let`: a `for` would need an iterator over `self`, a struct and a contract more for this one loop
        while let Some(fields) = self.tagged(tag) {
            fields.read(&mut out[count..count + n])?;
            count += n;
        }
        Some(count)
    }

    // The same lines: their values, where they are then in out.
    pub fn rows<'b, T: Field>(&mut self, tag: &[u8], n: usize, out: &'b mut [T]) -> Option<&'b [T]>
        requires { length self.old.text.now + n ≤ length out.old }
        ensures section { rows T.spelled tag.now n (left self.old) ≡ told_rows result (left self.new) }
        ensures same { self.new.text ≡ self.old.text }
    {
        let count = self.fill_rows(tag, n, out)?;
        Some(&out[..count])
    }
}
