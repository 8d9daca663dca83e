ghost use Rattle.std.specs.Prelude.{◌≡◌, ◌+◌, ◌*◌, ◌/◌, ◌%◌, ◌<◌, ◌≤◌, true, length, IfOk};
ghost use Rattle.std.specs.Result.{result_err};
ghost use Rattle.refusals.specs.Numbers.{u16_at};
ghost use Rattle.graphs.specs.Forms.{lift_fits};

use refusals::{Fault, Layer, Refusal};

// The two forms of graph file.
#[derive(Clone, Copy)]
pub enum Form {
    Listed,
    Lift,
}

// The form of a graph file's records, and the numbers that it is opened with. A listed file is a lift of size 1.
#[derive(Clone, Copy)]
pub struct Shape {
    pub(crate) form: Form,
    pub(crate) bases: usize,
    pub(crate) columns: usize,
    pub(crate) lift: usize,
    pub(crate) degree: usize,
    ghost single: { lift_fits form lift ≡ true },
}

// One record of a graph file.
#[derive(Clone, Copy)]
pub struct Entry {
    pub column: u16,
    pub base: u16,
    pub shift: u16,
    pub weight: u16,
}

// The two forms of record differ in width, so a number is read at its offset and not from an array of the record's bytes.
fn read_u16(bytes: &[u8], at: usize) -> u16
    requires { at + 1 < length bytes.now }
    ensures { result ≡ u16_at bytes.now at }
{
    u16::from_be_bytes([bytes[at], bytes[at + 1]])
}

impl Form {
    ghost use Rattle.graphs.specs.Files.{width, entry_of};

    // The bytes of a record.
    fn width(self) -> usize
        ensures { result ≡ width self }
    {
        match self {
            Form::Listed => 6,
            Form::Lift => 8,
        }
    }

    // Record `k`.
    pub(crate) fn entry(self, bytes: &[u8], k: usize) -> Entry
        requires { width self * (k + 1) ≤ length bytes.now }
        ensures { result ≡ entry_of self bytes.now k }
    {
        let at = self.width() * k;
        let (shift, weight) = match self {
            Form::Listed => (0, read_u16(bytes, at + 4)),
            Form::Lift => (read_u16(bytes, at + 4), read_u16(bytes, at + 6)),
        };
        Entry {
            column: read_u16(bytes, at),
            base: read_u16(bytes, at + 2),
            shift,
            weight,
        }
    }
}

impl Entry {
    ghost use Rattle.graphs.specs.Files.{ascends};

    fn ascends_from(self, before: Entry) -> bool
        ensures { result ≡ ascends before self }
    {
        (before.base, before.shift) < (self.base, self.shift)
    }
}

impl Shape {
    ghost use Rattle.graphs.specs.Files.{width, entry_of, row_of, sizes_fit, records_of, in_order, in_range, entry_fault, first_fault, file_fault};
    ghost use Rattle.graphs.specs.ListedFiles.{listed_shape};
    ghost use Rattle.graphs.specs.LiftFiles.{lift_shape};

    // A file that lists every edge of a graph with these numbers: a lift of size 1.
    pub fn listed(places: usize, rows: usize, degree: usize) -> Shape
        ensures { result ≡ listed_shape places rows degree }
    {
        Shape {
            form: Form::Listed,
            bases: rows,
            columns: places,
            lift: 1,
            degree,
        }
    }

    // A file of the records of a lift: with base rows, base columns, lift size and degree.
    pub fn lift(bases: usize, columns: usize, size: usize, degree: usize) -> Shape
        ensures { result ≡ lift_shape bases columns size degree }
    {
        Shape {
            form: Form::Lift,
            bases,
            columns,
            lift: size,
            degree,
        }
    }

    fn fits(self) -> bool
        ensures { result ≡ sizes_fit self }
    {
        let (Some(places), Some(rows)) = (
            self.columns.checked_mul(self.lift),
            self.bases.checked_mul(self.lift),
        ) else {
            return false;
        };
        (1..=512).contains(&places)
            && (1..=512).contains(&rows)
            && (1..=16).contains(&self.degree)
            && self.degree <= rows
    }

    fn in_order(self, k: usize, before: Entry, entry: Entry) -> bool
        requires { 0 < self.degree }
        ensures { result ≡ in_order self k before entry }
    {
        usize::from(entry.column) == k / self.degree
            && (k % self.degree == 0 || entry.ascends_from(before))
    }

    fn in_range(self, entry: Entry) -> bool
        ensures { result ≡ in_range self entry }
    {
        usize::from(entry.base) < self.bases && usize::from(entry.shift) < self.lift
    }

    // Checks record `k`, which follows `before`, and answers it.
    fn check_record(self, bytes: &[u8], k: usize, before: Entry) -> Result<Entry, Fault>
        requires some { 0 < self.degree }
        requires inside { width self.form * (k + 1) ≤ length bytes.now }
        ensures fault { result_err result ≡ entry_fault self k before (entry_of self.form bytes.now k) }
        ensures entry { IfOk result (λ e. e ≡ entry_of self.form bytes.now k) }
    {
        let entry = self.form.entry(bytes, k);
        if !self.in_order(k, before, entry) {
            return Err(Layer::Shelf.fault(Refusal::RecordOrder, k));
        }
        if !self.in_range(entry) {
            return Err(Layer::Shelf.fault(Refusal::RowOutOfRange, k));
        }
        if entry.weight == 0 {
            return Err(Layer::Shelf.fault(Refusal::ZeroWeight, k));
        }
        Ok(entry)
    }

    // Checks the records of a file in their order. The file's length has shown how many there are.
    fn check_records(self, bytes: &[u8]) -> Result<(), Fault>
        requires fits { sizes_fit self ≡ true }
        requires long { length bytes.now ≡ width self.form * records_of self }
        ensures { result_err result ≡ first_fault bytes.now self }
    {
        let first = self.form.entry(bytes, 0);
        let records = self.columns * self.degree;
        (0..records)
            .try_fold(first, |before, k| self.check_record(bytes, k, before))
            .map(|_| ())
    }

    // Checks the bytes of a file: the sizes first, then its length, then its records in their order.
    pub(crate) fn check(self, bytes: &[u8]) -> Result<(), Fault>
        ensures { result_err result ≡ file_fault bytes.now self }
    {
        if !self.fits() {
            return Err(Layer::Shelf.fault(Refusal::SizeOutOfRange, 0));
        }
        if bytes.len() != self.form.width() * (self.columns * self.degree) {
            return Err(Layer::Shelf.fault(Refusal::FileLength, 0));
        }
        self.check_records(bytes)
    }

    // The column of place `i`, and which of the column's places it is.
    pub(crate) fn column_of(self, i: usize) -> (usize, usize)
        requires { 0 < self.lift }
        ensures column { result.0 ≡ i / self.lift }
        ensures place { result.1 ≡ i % self.lift }
    {
        match self.form {
            Form::Listed => (i, 0),
            Form::Lift => (i / self.lift, i % self.lift),
        }
    }

    // The row that a record gives place `t` of its column.
    pub(crate) fn row(self, entry: Entry, t: usize) -> usize
        requires few { self.lift ≤ 512 }
        requires below { t < self.lift }
        ensures { result ≡ row_of self entry t }
    {
        let base = usize::from(entry.base);
        match self.form {
            Form::Listed => base,
            Form::Lift => base * self.lift + (t + usize::from(entry.shift)) % self.lift,
        }
    }
}
