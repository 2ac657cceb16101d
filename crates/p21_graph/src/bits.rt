//! Tables of bits.

ghost use Rattle.std.specs.Prelude.{◌≡◌, ◌≤◌, ◌*◌, length};
ghost use Rattle.p21_graph.specs.declared.bits.TheConstants.{BITS};

use std::alloc::{AllocError, Global};

/// How many bits a word has.
const BITS: usize = u64::BITS as usize;

/// A table of bits: for each of so many rows, which of so many columns it holds.
#[derive(Drop)]
pub struct Bits {
    /// How many rows there are.
    pub rows: usize,
    /// How many columns a row has.
    pub columns: usize,
    /// How many words a row has.
    width: usize,
    /// The words of all rows, those of each after those of the one before.
    words: Vec<u64>,
    ghost columns_fit: { columns ≤ width * BITS },
    ghost rows_fit: { length words.items ≡ rows * width },
}

impl Bits {
    ghost use Rattle.std.specs.Prelude.{◌<◌, ◌/◌, ◌%◌, ◌↔◌, ◌⊎◌, ℕ, IfOk, IsTrue};
    ghost use Rattle.std.specs.Int.{bit_at};
    ghost use Rattle.p21_graph.specs.Bits.{Holds, IsLike, word_at};

    /// A table in which no row holds a column.
    pub fn new(alloc: Global, rows: usize, columns: usize) -> Result<Bits, AllocError>
        ensures rows { IfOk result (λ t. t.rows ≡ rows) }
        ensures columns { IfOk result (λ t. t.columns ≡ columns) }
        ensures clear { IfOk result (λ t. (r c : ℕ) → ¬ (Holds t r c)) }
    {
        let width = columns.div_ceil(BITS);
        let Some(count) = rows.checked_mul(width) else {
            return Err(AllocError);
        };
        Ok(Bits {
            rows,
            columns,
            width,
            words: vec![in alloc; 0; count]?,
        })
    }

    /// The word of a row at a place.
    fn word(&self, row: usize, place: usize) -> u64
        requires row { row < self.now.rows }
        requires place { place < self.now.width }
        ensures { result ≡ word_at self.now row place }
    {
        self.words[row * self.width + place]
    }

    /// Sets those bits of a row's word at a place that are set in this word.
    fn add(&mut self, row: usize, place: usize, word: u64)
        requires row { row < self.old.rows }
        requires place { place < self.old.width }
        ensures size { IsLike self.old self.new }
        ensures holds { (r c : ℕ) → Holds self.new r c ↔ (Holds self.old r c ⊎ ((r ≡ row) × ((c / BITS ≡ place) × (bit_at word (c % BITS) ≡ 1)))) }
    {
        self.words[row * self.width + place] |= word;
    }

    /// Whether a row holds a column.
    pub fn has(&self, row: usize, column: usize) -> bool
        requires row { row < self.now.rows }
        requires column { column < self.now.columns }
        ensures { IsTrue result ↔ Holds self.now row column }
    {
        self.word(row, column / BITS) >> (column % BITS) & 1 == 1
    }

    /// Has a row hold a column as well.
    pub fn insert(&mut self, row: usize, column: usize)
        requires row { row < self.old.rows }
        requires column { column < self.old.columns }
        ensures size { IsLike self.old self.new }
        ensures holds { (r c : ℕ) → Holds self.new r c ↔ (Holds self.old r c ⊎ ((r ≡ row) × (c ≡ column))) }
    {
        self.add(row, column / BITS, 1 << (column % BITS));
    }

    /// Has a row hold what another holds as well.
    pub fn add_row(&mut self, row: usize, from: usize)
        requires row { row < self.old.rows }
        requires from { from < self.old.rows }
        ensures size { IsLike self.old self.new }
        ensures holds { (r c : ℕ) → Holds self.new r c ↔ (Holds self.old r c ⊎ ((r ≡ row) × Holds self.old from c)) }
    {
        for place in 0..self.width {
            self.add(row, place, self.word(from, place));
        }
    }

    /// Whether a row and one of another table hold a column in common.
    pub fn meets(&self, row: usize, other: &Bits, other_row: usize) -> bool
        requires row { row < self.now.rows }
        requires other_row { other_row < other.now.rows }
        ensures { IsTrue result ↔ ((c : ℕ) × (Holds self.now row c × Holds other.now other_row c)) }
    {
        for place in 0..self.width.min(other.width) {
            if self.word(row, place) & other.word(other_row, place) != 0 {
                return true;
            }
        }
        false
    }

    /// Whether a row holds some column.
    pub fn holds_some(&self, row: usize) -> bool
        requires { row < self.now.rows }
        ensures { IsTrue result ↔ ((c : ℕ) × Holds self.now row c) }
    {
        self.meets(row, self, row)
    }
}
