// Order sheets: a row, when it grants a package, and whether some row does. The rows are searched as a lent slice of structs; in_sheet takes
// an array by value, and lends its first rows to the search.
// Whoever asks for many packages reads the sheet into a table of plain numbers, which is lent and not copied; of those the rows that can grant
// something in a message are its near rows, and they alone are asked for its packages.
#![tactic(auto)]

ghost use Rattle.std.specs.Prelude.{◌≡◌, ◌+◌, ◌≤◌, ◌<◌, [], ◌∷◌, length, get_or, take};
ghost use Rattle.std.proofs.lemmas.List.Edits.{sets};
ghost use Rattle.rules.specs.Sheet.{row_fits, grants, sheet, sheet_rows};
ghost use Rattle.rules.specs.Packages.{instant};
ghost use Rattle.rules.specs.Message.{is_simulated};
ghost use Rattle.sheet.specs.Rows.{row_in, row_at, no_row, some_grants};
ghost use Rattle.sheet.specs.Reading.{first_fits, wrong_size, told, answer};
ghost use Rattle.refusal.specs.Numbers.{outcome_of};
ghost use Rattle.sheet.specs.Table.{table_of, laid_out, count_of_rows, Keeps, reaches, near_of, within, near_grants};

use message::{Header, Mdid, Pdid};
use refusal::{Refusal, Why, refuse};
use wire::word_at;

#[derive(Clone, Copy, PartialEq, Eq)]
pub struct Time {
    pub seconds: u32,
    pub nanos: u32,
}

#[derive(Clone, Copy, PartialEq, Eq)]
pub struct Row {
    pub first_mdid: Mdid,
    pub last_mdid: Mdid,
    pub first_pdid: Pdid,
    pub last_pdid: Pdid,
    pub start: Time,
    pub end: Time,
    pub acquired_only: bool,
}

// What a grant looks at of a message beside its time.
#[derive(Clone, Copy, PartialEq, Eq)]
pub struct Source {
    pub mdid: Mdid,
    pub simulated: bool,
}

// What a grant looks at of the message with header h.
pub fn source_of(h: Header) -> Source
    ensures { (result.mdid ≡ h.id) × (result.simulated ≡ is_simulated h.flags) }
{
    Source {
        mdid: h.id,
        simulated: h.flags / 8 % 2 == 1,
    }
}

// A time as a whole number of nanoseconds.
fn nanos_of(t: Time) -> u64
    ensures { result ≡ instant t.seconds t.nanos }
{
    t.seconds as u64 * 1_000_000_000 + t.nanos as u64
}

// The row in eight words, without its three spare bits.
fn row_at(s: &[u8]) -> Row
    ensures { result ≡ row_at s.now }
{
    let f = word_at(s, 20);
    let g = word_at(s, 24);
    let start = Time {
        seconds: word_at(s, 16),
        nanos: f / 4,
    };
    let end = Time {
        seconds: f % 4 * 1073741824 + g / 4,
        nanos: g % 4 * 268435456 + word_at(s, 28) / 16,
    };
    Row {
        first_mdid: Mdid(word_at(s, 0)),
        last_mdid: Mdid(word_at(s, 4)),
        first_pdid: Pdid(word_at(s, 8)),
        last_pdid: Pdid(word_at(s, 12)),
        start,
        end,
        acquired_only: word_at(s, 28) % 2 == 1,
    }
}

// Whether a row keeps the rules.
fn fits(row: Row) -> bool
    ensures { result ≡ row_fits (row_in row) }
{
    if row.last_mdid.0 < row.first_mdid.0 {
        return false;
    }
    if row.last_pdid.0 < row.first_pdid.0 {
        return false;
    }
    if 999_999_999 < row.start.nanos {
        return false;
    }
    if 999_999_999 < row.end.nanos {
        return false;
    }
    nanos_of(row.start) < nanos_of(row.end)
}

// Whether the row at the start of s, which has one at least, keeps the rules; what stands in its eight words is handed over, so that a row is read once.
fn first_fits(s: &[u8], row: Row) -> bool
    requires long { 32 ≤ length s.now }
    requires read { row ≡ row_at s.now }
    ensures { result ≡ first_fits s.now }
{
    if word_at(s, 28) / 2 % 8 != 0 {
        return false;
    }
    fits(row)
}

// A row that is all zero.
fn no_row() -> Row
    ensures { result ≡ no_row }
{
    let zero = Time {
        seconds: 0,
        nanos: 0,
    };
    Row {
        first_mdid: Mdid(0),
        last_mdid: Mdid(0),
        first_pdid: Pdid(0),
        last_pdid: Pdid(0),
        start: zero,
        end: zero,
        acquired_only: false,
    }
}

// The rows of a sheet and their number; rows behind the last are all zero.
#[derive(Clone, Copy)]
pub struct Sheet {
    pub rows: [Row; 32],
    pub count: usize,
}

// Whether a size is not that of at most 32 whole rows.
fn wrong_size(n: usize) -> bool
    ensures { result ≡ wrong_size n }
{
    (1024 < n) | (n % 32 != 0)
}

// How many rows a sheet has, or why it is refused. Its size is looked at before any row.
fn count_rows(s: &[u8]) -> Result<usize, Refusal>
    ensures { outcome_of result ≡ count_of_rows (sheet s.now) }
{
    if wrong_size(s.len()) {
        return refuse(Why::Row, s.len());
    }
    let count = s.len() / 32;
    for i in 0..count {
        let at = 32 * i;
        let rest = &s[at..];
        if !first_fits(rest, row_at(rest)) {
            return refuse(Why::Row, at);
        }
    }
    Ok(count)
}

// The rows of a sheet. Its size is looked at before any row.
pub fn read_sheet(s: &[u8]) -> Result<Sheet, Refusal>
    ensures { told result ≡ answer (sheet_rows s.now) }
{
    if wrong_size(s.len()) {
        return refuse(Why::Row, s.len());
    }
    let count = s.len() / 32;
    let mut rows = [no_row(); 32];
    for i in 0..count {
        let at = 32 * i;
        let rest = &s[at..];
        let row = row_at(rest);
        if !first_fits(rest, row) {
            return refuse(Why::Row, at);
        }
        rows[i] = row;
    }
    Ok(Sheet { rows, count })
}

// Whether a row grants a package of message m with this id and time. Both ends of a range of ids are included, the end of the window is not.
pub fn grants(row: Row, m: Source, p: Pdid, t: u64) -> bool
    ensures { result ≡ grants m.mdid.0 m.simulated p.0 t (row_in row) }
{
    if m.mdid.0 < row.first_mdid.0 {
        return false;
    }
    if row.last_mdid.0 < m.mdid.0 {
        return false;
    }
    if p.0 < row.first_pdid.0 {
        return false;
    }
    if row.last_pdid.0 < p.0 {
        return false;
    }
    if t < nanos_of(row.start) {
        return false;
    }
    if nanos_of(row.end) <= t {
        return false;
    }
    if row.acquired_only {
        return !m.simulated;
    }
    true
}

// Whether some row of the sheet grants it.
pub fn some_row_grants(rows: &[Row], m: Source, p: Pdid, t: u64) -> bool
    ensures { result ≡ some_grants rows.now m.mdid.0 m.simulated p.0 t }
{
    rows.iter().any(|row| grants(*row, m, p, t))
}

// The first n rows of an array by value are lent to the search.
fn in_first<const N: usize>(rows: [Row; N], n: usize, m: Source, p: Pdid, t: u64) -> bool
    requires { n ≤ N }
    ensures { result ≡ some_grants (take n rows.entry) m.mdid.0 m.simulated p.0 t }
{
    some_row_grants(&rows[..n], m, p, t)
}

// Whether one of the first n rows grants it: rows behind them grant nothing.
pub fn in_sheet(rows: [Row; 32], n: usize, m: Source, p: Pdid, t: u64) -> bool
    ensures { result ≡ some_grants (take n rows) m.mdid.0 m.simulated p.0 t }
{
    if n <= 4 {
        // Whoever lends an array copies it first, and four rows are copied sooner than 32.
        let few = [rows[0], rows[1], rows[2], rows[3]];
        return in_first(few, n, m, p, t);
    }
    if n <= 32 {
        return in_first(rows, n, m, p, t);
    }
    in_first(rows, 32, m, p, t)
}

// Numbers of a table, one behind the other. Those that do not fit are not stored.
fn put_numbers(table: &mut [u64], at: usize, values: &[u64])
    requires { at + length values.now ≤ 18446744073709551616 }
    ensures { table.new ≡ sets table.old at values.now }
{
    for (i, v) in values.iter().enumerate() {
        if at + i < table.len() {
            table[at + i] = *v;
        }
    }
}

// The seven numbers of a row.
fn put_row(table: &mut [u64], at: usize, row: Row)
    requires { at + 7 ≤ 18446744073709551616 }
    ensures { table.new ≡ sets table.old at (table_of (row_in row ∷ [])) }
{
    let values = [
        row.first_mdid.0 as u64,
        row.last_mdid.0 as u64,
        row.first_pdid.0 as u64,
        row.last_pdid.0 as u64,
        nanos_of(row.start),
        nanos_of(row.end),
        row.acquired_only as u64,
    ];
    put_numbers(table, at, &values);
}

// The numbers of all rows of a sheet that keeps the rules.
fn put_rows(s: &[u8], table: &mut [u64])
    requires { Keeps s.now }
    ensures { table.new ≡ laid_out (sheet s.now) table.old }
{
    for i in 0..s.len() / 32 {
        put_row(table, 7 * i, row_at(&s[32 * i..]));
    }
}

// Reads a sheet into a table and says how many rows it has. Every row is looked at before one is stored: a sheet that is refused leaves the
// table as it was. They are read twice and not held, since 32 rows would take over a thousand bytes of the stack.
pub fn read_table(s: &[u8], table: &mut [u64]) -> Result<usize, Refusal>
    ensures { (outcome_of result ≡ count_of_rows (sheet s.now)) × (table.new ≡ laid_out (sheet s.now) table.old) }
{
    let n = count_rows(s)?;
    put_rows(s, table);
    Ok(n)
}

// Whether a row can grant something in a message.
fn reaches(id: u64, simulated: bool, first: u64, last: u64, acquired: u64) -> bool
    ensures { result ≡ reaches id simulated first last acquired }
{
    (first <= id) & (id <= last) & !((acquired == 1) & simulated)
}

// Package ids, start and end of the row at place i of a table, to place n of the near rows. Where they fit, all four are copied behind one
// test, so that the compiler moves two at a time.
fn put_near(near: &mut [u64], n: usize, table: &[u64], i: usize)
    requires n_bound { n + 4 ≤ 18446744073709551616 }
    requires i_in_bounds { i + 6 < length table.now }
    ensures { near.new ≡ sets near.old n (get_or table.now (i + 2) 0 ∷ get_or table.now (i + 3) 0 ∷ get_or table.now (i + 4) 0 ∷ get_or table.now (i + 5) 0 ∷ []) }
{
    if n + 3 < near.len() {
        near[n] = table[i + 2];
        near[n + 1] = table[i + 3];
        near[n + 2] = table[i + 4];
        near[n + 3] = table[i + 5];
    } else {
        put_numbers(near, n, &table[i + 2..i + 6]);
    }
}

// The near rows of a message, from place 0 of `near` on; says how many numbers they are.
pub fn near_rows(table: &[u64], m: Source, near: &mut [u64]) -> usize
    ensures { (result ≡ length (near_of m.mdid.0 m.simulated table.now)) × (near.new ≡ sets near.old 0 (near_of m.mdid.0 m.simulated table.now)) }
{
    let id = m.mdid.0 as u64;
    let mut n = 0;
    let mut i = 0;
    while 7 <= table.len() - i {
        if reaches(id, m.simulated, table[i], table[i + 1], table[i + 6]) {
            put_near(near, n, table, i);
            n += 4;
        }
        i += 7;
    }
    n
}

// Whether a near row grants a package. Whether it does is random, so that no jump may hang on it.
fn within(p: u64, t: u64, first: u64, last: u64, start: u64, end: u64) -> bool
    ensures { result ≡ within p t first last start end }
{
    (first <= p) & (p <= last) & (start <= t) & (t < end)
}

// Whether one of a few near rows grants the package. Each is asked, also behind one that does. Here and below a row is told by
// its place: to part the slice at each row takes a fifth more time.
fn ask_near(near: &[u64], p: u64, t: u64) -> bool
    ensures { result ≡ near_grants p t near.now }
{
    let mut granted = false;
    let mut i = 0;
    while 4 <= near.len() - i {
        let it = within(p, t, near[i], near[i + 1], near[i + 2], near[i + 3]);
        granted = granted | it;
        i += 4;
    }
    granted
}

// The same of many near rows, no further than the first that does. Few of them have the package in their range, so that the jumps over the
// others are foreseen.
fn search_near(near: &[u64], p: u64, t: u64) -> bool
    ensures { result ≡ near_grants p t near.now }
{
    let mut i = 0;
    while 4 <= near.len() - i {
        if near[i] <= p && p <= near[i + 1] && near[i + 2] <= t && t < near[i + 3] {
            return true;
        }
        i += 4;
    }
    false
}

// Whether some near row grants the package. One row, which is four numbers, needs no loop. To ask four rows costs less than one jump that is not
// foreseen.
pub fn near_grants(near: &[u64], p: Pdid, t: u64) -> bool
    ensures { result ≡ near_grants p.0 t near.now }
{
    let id = p.0 as u64;
    if let [first, last, start, end] = near {
        return within(id, t, *first, *last, *start, *end);
    }
    if near.len() <= 16 {
        return ask_near(near, id, t);
    }
    search_near(near, id, t)
}
